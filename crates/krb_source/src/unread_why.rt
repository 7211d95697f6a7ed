//! Reasons for which octets of a capture are in no message.

ghost use Rattle.std.specs.Prelude.{◌≡◌};
ghost use Rattle.krb_source.specs.UnreadReasons.{unread_reason_number, unread_reason_name};

/// A reason for which octets that were captured between ports of Kerberos are in no message. Each
/// has a number ([`unread_why_number`]) and a name ([`unread_why_text`]).
#[derive(Clone, Copy, PartialEq, Eq, Debug)]
pub enum UnreadWhy {
    /// They follow the octets of a UDP datagram, within the length of IP (RFC 768).
    Surplus,
    /// Their segment resets its connection (RFC 9293, 3.5.3).
    Reset,
    /// They are before octet 0 of their direction.
    Before,
    /// Their segment begins more than 1048576 octets ahead.
    Ahead,
    /// They are copies of octets that are no longer kept, so that they are not compared.
    Old,
    /// They are copies that are not the octets that were taken, or that wait, at their places.
    Differs,
}

/// Returns the number of a reason: 1 (`Surplus`), 2 (`Reset`), 3 (`Before`), 4 (`Ahead`), 5 (`Old`)
/// or 6 (`Differs`).
pub fn unread_why_number(why: UnreadWhy) -> u8
    ensures { result ≡ unread_reason_number why }
{
    match why {
        UnreadWhy::Surplus => 1,
        UnreadWhy::Reset => 2,
        UnreadWhy::Before => 3,
        UnreadWhy::Ahead => 4,
        UnreadWhy::Old => 5,
        UnreadWhy::Differs => 6,
    }
}

/// Returns the name of a reason, as the enum spells it.
pub fn unread_why_text(why: UnreadWhy) -> &'static str
    ensures { result.now ≡ unread_reason_name why }
{
    match why {
        UnreadWhy::Surplus => "Surplus",
        UnreadWhy::Reset => "Reset",
        UnreadWhy::Before => "Before",
        UnreadWhy::Ahead => "Ahead",
        UnreadWhy::Old => "Old",
        UnreadWhy::Differs => "Differs",
    }
}
