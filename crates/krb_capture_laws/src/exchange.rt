//! Laws of what is told of requests and replies in captures. Each is the contract of a function that
//! does nothing. What is told of any events has laws of its own, of `krb_exchange_laws`.

ghost use Rattle.krb_capture_laws.specs.Exchanges.{CountsAreOfEvents, EndTellsOfEvents, LinesTellOfEvents};

/// What the lines of a capture tell is what is told of the events of what is found in it; and at the
/// end, what is told of that.
pub fn lines_tell_of_events()
    ensures lines { LinesTellOfEvents }
    ensures end { EndTellsOfEvents }
{}

/// Four counts of a capture are how many replies answer, how many requests nothing answers, how many
/// were sent before, and how often somebody could not be reached, up to 2^64 - 1.
pub fn counts_are_of_events()
    ensures { CountsAreOfEvents }
{}
