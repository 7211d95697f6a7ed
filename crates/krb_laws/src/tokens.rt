//! The laws of what octets are opened to. Each is the contract of a function that does nothing.
ghost use Rattle.krb_laws.specs.Opened.{LayersAreOpened, TicketTagsAreOpened};

/// Octets are opened to a message under layers just if it lies in them under these layers: by
/// itself, in a frame, in a GSS-API token of Kerberos, or in a token of SPNEGO, by itself or in a
/// GSS-API token, and there by itself or in a GSS-API token of Kerberos.
pub fn layers_are_opened()
    ensures { LayersAreOpened }
{}

/// Octets are opened to a Ticket just if they begin with its tag, and then under no layer.
pub fn ticket_tags_are_opened()
    ensures { TicketTagsAreOpened }
{}
