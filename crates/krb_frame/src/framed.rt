//! A frame that is ready, borrowed from its decoder.

use krb_der::Profile;
use krb_msg::{Kind, MessageView, view_message, whole_kind};
use std::marker::Model;

/// The frame that a decoder has ready. Contracts see the octets of its message.
#[derive(Drop)]
pub struct Framed<'a> {
    octets: &'a [u8],
}

impl<'a> Model for Framed<'a> {
    ghost use Rattle.std.specs.Prelude.{ℕ, ◌≡◌, ◌<◌, ◌^◌, List, length};
    ghost use Rattle.krb_der.specs.declared.profile.Profile.TheVariants.{Lenient};
    ghost use Rattle.krb_der.specs.declared.verdict.Verdict.TheVariants.{Whole};
    ghost use Rattle.krb_msg.specs.Judgement.{judgement};

    ghost Value = { List ℕ };

    ghost view = { λ framed. framed.octets.now };

    ghost invariant = { λ framed. (length framed.octets.now < 2 ^ 31) × (judgement Lenient (length framed.octets.now) framed.octets.now ≡ Whole) };
}

ghost use Rattle.std.specs.Prelude.{◌≡◌, ◌<◌, ◌^◌, length};
ghost use Rattle.std.specs.Option.{option_map};
ghost use Rattle.krb_msg.specs.Realm.{AreOfRealm};
ghost use Rattle.krb_msg.specs.ViewValues.{IsMessageView};
ghost use Rattle.krb_msg.specs.Views.{AreOfKind};
ghost use Rattle.krb_der.specs.declared.verdict.Verdict.TheVariants.{Whole};
ghost use Rattle.krb_msg.specs.Judgement.{judgement};

impl<'a> Framed<'a> {
    /// Creates a frame of the octets of one message.
    pub(crate) fn new(octets: &'a [u8]) -> Framed<'a>
        requires short { length octets.now < 2 ^ 31 }
        requires whole { judgement Profile.Lenient (length octets.now) octets.now ≡ Whole }
        ensures { result ≡ octets.now }
    {
        Framed { octets }
    }

    /// Returns the octets of the message, without the frame's length.
    pub fn octets(&self) -> &[u8]
        ensures { result.now ≡ self.now }
    {
        self.octets
    }

    /// Returns the kind of the message. It allocates nothing.
    pub fn kind(&self) -> Kind
        ensures { AreOfKind Profile.Lenient self.now result }
    {
        whole_kind(self.octets)
    }

    /// Returns a view of the message. It allocates nothing.
    pub fn view(&self) -> MessageView<'_>
        ensures { IsMessageView self.now result }
    {
        let Some(view) = view_message(self.octets) else {
            unreachable!()
        };
        view
    }

    /// Returns the realm of the message, borrowed: of an AS-REQ or a TGS-REQ the realm that its
    /// body names, of an AS-REP or a TGS-REP the client's, of an AP-REQ the ticket's, of a
    /// KRB-ERROR the server's. The other messages have none. It allocates nothing.
    pub fn realm(&self) -> Option<&[u8]>
        ensures { AreOfRealm Profile.Lenient self.now (option_map (λ realm. realm.now) result) }
    {
        self.view().realm()
    }
}
