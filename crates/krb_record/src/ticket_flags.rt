//! The flags of a ticket by name.

ghost use Rattle.std.specs.Prelude.{⊤, ◌≡◌, ◌∷◌, ◌++◌, [], OnOk, codes};
ghost use Rattle.krb_registry.specs.declared.registry.Registry.TheVariants as registries;
ghost use Rattle.krb_record.specs.Forms.{flags_object, four_octets, named_flags_text};
ghost use Rattle.krb_record.specs.Values.{TicketFlags as IsTicketFlags};
ghost use Rattle.krb_record.specs.TicketFlags.{eight_hex, flag_name, names_text, others_text, ticket_flags_text};

use crate::cell::put_no_cell;
use crate::escape::put_hex;
use crate::flags::{put_flags_object, put_named_flags, put_names_cell};
use crate::path::Path;
use crate::shown::{Shown, put_begin};
use crate::text_buffer::TextBuffer;
use bitflags::{Flag, Flags, bitflag_items};
use krb_registry::Registry;
use std::alloc::AllocError;

/// The flags of a ticket (RFC 4120, 5.3), bit 0 the highest.
#[derive(Clone, Copy, PartialEq, Eq, Debug)]
pub struct TicketFlags(pub u32);

bitflag_items! {
    impl TicketFlags: u32 {
        const FORWARDABLE = 0x4000_0000;
        const FORWARDED = 0x2000_0000;
        const PROXIABLE = 0x1000_0000;
        const PROXY = 0x0800_0000;
        const MAY_POSTDATE = 0x0400_0000;
        const POSTDATED = 0x0200_0000;
        const INVALID = 0x0100_0000;
        const RENEWABLE = 0x0080_0000;
        const INITIAL = 0x0040_0000;
        const PRE_AUTHENT = 0x0020_0000;
        const HW_AUTHENT = 0x0010_0000;
        const TRANSITED_POLICY_CHECKED = 0x0008_0000;
        const OK_AS_DELEGATE = 0x0004_0000;
    }
}

/// The bits that have no name.
const NAMELESS: u32 = 0x8003_FFFF;

impl Flags for TicketFlags {
    type Bits = u32;

    ghost exact = { ⊤ };

    ghost table = { (codes "FORWARDABLE", 0x4000_0000) ∷ (codes "FORWARDED", 0x2000_0000) ∷ (codes "PROXIABLE", 0x1000_0000)
        ∷ (codes "PROXY", 0x0800_0000) ∷ (codes "MAY_POSTDATE", 0x0400_0000) ∷ (codes "POSTDATED", 0x0200_0000)
        ∷ (codes "INVALID", 0x0100_0000) ∷ (codes "RENEWABLE", 0x0080_0000) ∷ (codes "INITIAL", 0x0040_0000)
        ∷ (codes "PRE_AUTHENT", 0x0020_0000) ∷ (codes "HW_AUTHENT", 0x0010_0000)
        ∷ (codes "TRANSITED_POLICY_CHECKED", 0x0008_0000) ∷ (codes "OK_AS_DELEGATE", 0x0004_0000) ∷ [] };

    ghost set_of = { λ flags. flags.0 };

    fn flags<'a>() -> &'a [Flag<TicketFlags>] {
        TicketFlags::FLAGS
    }

    fn bits(&self) -> u32 {
        self.0
    }

    fn from_bits_retain(bits: u32) -> TicketFlags {
        TicketFlags(bits)
    }
}

/// The flags that have names, in order of bit number.
const NAMED: [u32; 13] = [
    TicketFlags::FORWARDABLE.0,
    TicketFlags::FORWARDED.0,
    TicketFlags::PROXIABLE.0,
    TicketFlags::PROXY.0,
    TicketFlags::MAY_POSTDATE.0,
    TicketFlags::POSTDATED.0,
    TicketFlags::INVALID.0,
    TicketFlags::RENEWABLE.0,
    TicketFlags::INITIAL.0,
    TicketFlags::PRE_AUTHENT.0,
    TicketFlags::HW_AUTHENT.0,
    TicketFlags::TRANSITED_POLICY_CHECKED.0,
    TicketFlags::OK_AS_DELEGATE.0,
];

/// Returns the name of a flag.
#[tactic(auto, unfolding(crate::specs::TicketFlags::flag_name))]
fn flag_name(flag: u32) -> &'static str
    ensures { result.now ≡ flag_name flag }
{
    match flag {
        0x4000_0000 => "forwardable",
        0x2000_0000 => "forwarded",
        0x1000_0000 => "proxiable",
        0x0800_0000 => "proxy",
        0x0400_0000 => "may-postdate",
        0x0200_0000 => "postdated",
        0x0100_0000 => "invalid",
        0x0080_0000 => "renewable",
        0x0040_0000 => "initial",
        0x0020_0000 => "pre-authent",
        0x0010_0000 => "hw-authent",
        0x0008_0000 => "transited-policy-checked",
        _ => "ok-as-delegate",
    }
}

/// Appends the names of the flags that are set, in order of bit number, with `,` between them, or
/// `-` if there is none.
fn put_names(line: &mut TextBuffer, flags: TicketFlags) -> Result<(), AllocError>
    ensures { OnOk result (line.new ≡ line.old ++ names_text flags.0) }
{
    let mut separator = "";
    for flag in NAMED {
        if flags.contains(TicketFlags(flag)) {
            line.push_str(separator)?;
            line.push_str(flag_name(flag))?;
            separator = ",";
        }
    }
    if separator.is_empty() {
        line.push_str("-")?;
    }
    Ok(())
}

/// Appends a number in eight hexadecimal digits.
fn put_eight_hex(line: &mut TextBuffer, number: u32) -> Result<(), AllocError>
    ensures { OnOk result (line.new ≡ line.old ++ eight_hex number) }
{
    put_hex(line, &number.to_be_bytes())
}

fn put_others(line: &mut TextBuffer, others: u32) -> Result<(), AllocError>
    ensures { OnOk result (line.new ≡ line.old ++ others_text others) }
{
    if others == 0 {
        Ok(())
    } else {
        line.push_str("+")?;
        put_eight_hex(line, others)
    }
}

/// Appends the names of the flags that are set, or `-`, and the bits without a name.
#[tactic(auto, unfolding(crate::specs::TicketFlags::ticket_flags_text))]
fn put_flags(line: &mut TextBuffer, flags: TicketFlags) -> Result<(), AllocError>
    ensures { OnOk result (line.new ≡ line.old ++ ticket_flags_text flags.0) }
{
    put_names(line, flags)?;
    put_others(line, flags.0 & NAMELESS)
}

/// Appends the same with the names of two more flags (RFC 6806, RFC 8062).
fn put_all_names(line: &mut TextBuffer, flags: u32) -> Result<(), AllocError>
    ensures { OnOk result (line.new ≡ line.old ++ named_flags_text registries.TicketFlags (four_octets flags)) }
{
    put_named_flags(line, Registry::TicketFlags, &flags.to_be_bytes())
}

/// Appends what an object has of flags.
fn put_object(object: &mut TextBuffer, flags: u32) -> Result<(), AllocError>
    ensures { OnOk result (object.new ≡ object.old ++ flags_object registries.TicketFlags (0, four_octets flags)) }
{
    put_flags_object(object, Registry::TicketFlags, 0, &flags.to_be_bytes())
}

/// The names of the flags that are set, with `,` between them, or `-` if there is none; then `+`
/// and eight hexadecimal digits if bits without a name are set.
impl Shown for TicketFlags {
    ghost shown = { λ flags. IsTicketFlags flags.0 };

    #[tactic(auto, unfolding(crate::specs::Forms::value_text))]
    fn put_text(&self, line: &mut TextBuffer, names: bool) -> Result<(), AllocError> {
        if names {
            put_all_names(line, self.0)
        } else {
            put_flags(line, *self)
        }
    }

    #[tactic(auto, unfolding(crate::specs::Forms::members, crate::specs::Forms::json_value, crate::specs::Forms::names_member))]
    fn put_members(&self, object: &mut TextBuffer, begin: &str) -> Result<(), AllocError> {
        put_begin(object, begin)?;
        put_object(object, self.0)
    }

    #[tactic(auto, unfolding(crate::specs::Forms::cell))]
    fn put_cell(&self, text: &mut TextBuffer, path: Path) -> Result<(), AllocError> {
        match path {
            Path::Whole => put_all_names(text, self.0),
            Path::Bits => text.push_number(32),
            Path::Hex => put_eight_hex(text, self.0),
            Path::Names => put_names_cell(text, Registry::TicketFlags, &self.0.to_be_bytes()),
            _ => put_no_cell(text),
        }
    }
}
