//! The kinds of messages as types: what is written once for any kind, with the view of that kind.

ghost use Rattle.std.specs.Prelude.{◌≡◌, MatchOption};
ghost use Rattle.krb_msg.specs.Notes.{notes_of};
ghost use Rattle.krb_msg.specs.ViewValues.{BeginAs, IsMessageView, IsNoMessage, IsValidMessage, message_of_view};
ghost use Rattle.krb_msg.specs.Viewed.{IfElse};
ghost use Rattle.krb_msg.specs.declared.message.Kind.{Kind};
ghost use Rattle.krb_msg.specs.declared.message_view.MessageView.{MessageView};

use crate::message_view::MessageView;
use crate::notes::Notes;

/// A kind of message, whose octets are viewed in place (RFC 4120, 5.4 to 5.9).
pub trait MessageKind<'a> {
    /// The view of a message. Its default is a view of none.
    type View: Copy + Default;

    /// The kind.
    ghost kind: { Kind };

    /// A view as that of a message of any kind.
    ghost as_message: { Self.View → MessageView };

    /// Makes `seen` the view of a message of this kind, and returns whether the octets are one: all of
    /// them, judged and viewed in one pass. It allocates nothing.
    fn view_into(octets: &'a [u8], seen: &mut Self::View) -> bool
        requires { BeginAs kind octets.now }
        ensures { IfElse result (IsMessageView octets.now (as_message seen.new)) (IsNoMessage octets.now) };

    /// Returns a view as that of a message of any kind.
    fn into_message(view: Self::View) -> MessageView<'a>
        ensures { result ≡ as_message view };

    /// Returns the notes that hold in a message. It allocates nothing.
    fn notes(view: &Self::View) -> Notes
        requires { IsValidMessage (as_message view.now) }
        ensures { result ≡ notes_of (message_of_view (as_message view.now)) };
}

/// Returns a view of a message of a kind, if the octets are one.
#[inline(always)]
pub(crate) fn view_of<'a, K: MessageKind<'a>>(octets: &'a [u8]) -> Option<MessageView<'a>>
    requires { BeginAs K.kind octets.now }
    ensures { MatchOption result (IsNoMessage octets.now) (λ m. IsMessageView octets.now m) }
{
    let mut seen = Default::default();
    if K::view_into(octets, &mut seen) {
        Some(K::into_message(seen))
    } else {
        None
    }
}
