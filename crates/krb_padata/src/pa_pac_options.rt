//! PA-PAC-OPTIONS. `asn1/generate` wrote this from `asn1/padata.asn1`.

ghost use Rattle.std.specs.Prelude.{◌≡◌, true};
ghost use Rattle.krb_msg.specs.Term.{tag_of};
ghost use Rattle.krb_padata.specs.Grammar.{pa_pac_options};
ghost use Rattle.krb_padata.specs.Types.{pa_pac_options_view_value, IsValidPaPacOptions};

use krb_der::Flags;
use krb_msg::{End, FlagsView, Required, Sequence, View, ViewSequence};

/// The options that a client requests of the PAC (MS-KILE, 2.2.10).
#[derive(Drop)]
pub struct PaPacOptions {
    /// PAC-OPTIONS-FLAGS.
    pub flags: Flags,
}

/// A view of a PA-PAC-OPTIONS: its strings and lists are borrowed from the octets.
#[derive(Clone, Copy, Default)]
pub struct PaPacOptionsView<'a> {
    /// PAC-OPTIONS-FLAGS.
    pub flags: FlagsView<'a>,
}

/// Its fields.
type Layout = Sequence<Required<0, Flags, End>>;

impl<'a> View<'a> for PaPacOptions {
    type Of = PaPacOptionsView<'a>;

    ghost term = { pa_pac_options };

    ghost value = { pa_pac_options_view_value };

    ghost IsValid = { IsValidPaPacOptions };

    #[inline(always)]
    fn tag() -> u8
        ensures { result ≡ tag_of pa_pac_options }
    {
        0x30
    }

    #[inline(always)]
    fn view_into(contents: &'a [u8], seen: &mut PaPacOptionsView<'a>) -> bool {
        let mut fields = Default::default();
        if !<Layout as ViewSequence<'_>>::view_into(contents, &mut fields) {
            return false;
        }
        let (flags, ()) = fields;
        *seen = PaPacOptionsView { flags };
        true
    }
}
