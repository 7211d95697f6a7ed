//! The laws of what octets are opened to, each the contract of a function that does nothing.

ghost use Rattle.krb_token.specs.Laws.{FramesAreOpened};

/// Octets are opened to a message in a frame just if they are a frame of it.
pub fn frames_are_opened()
    ensures { FramesAreOpened }
{}
