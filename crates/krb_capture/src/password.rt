//! Messages that change passwords (RFC 3244, 2).

ghost use Rattle.std.specs.Prelude.{◌≡◌, Some, Ok, ◌+◌, ◌^◌, ◌<◌, ◌≤◌, length, OnOk};
ghost use Rattle.krb_capture.specs.Found.{Faulty, with_all, with_found};
ghost use Rattle.krb_capture.specs.Happened.{begins_ap_req};
ghost use Rattle.krb_capture.specs.Passwords.{checked, header, number, part_found, parts_found, password_found, path_of, place_of};

use crate::listing::Listing;
use crate::message::list_message;
use krb_der::{Memory, Profile, Refusal, Why};
use krb_record::{CaptureOrigin, Extent};

/// The first octet of an AP-REQ (RFC 4120, 5.5.1).
const AP_REQ: u8 = 0x6E;

/// How many octets precede the AP-REQ or AP-REP: the length, the version, and the length of that.
const HEADER: usize = 6;

/// A field of the header.
#[derive(Clone, Copy)]
enum Field {
    /// The length of all of the message.
    Length,
    /// The version.
    Version,
    /// The length of the AP-REQ or AP-REP.
    ApLength,
}

impl Field {
    /// Returns how many octets precede it.
    fn place(self) -> u32
        ensures value { result ≡ place_of self }
        ensures few { result < 6 }
    {
        match self {
            Field::Length => 0,
            Field::Version => 2,
            Field::ApLength => 4,
        }
    }

    /// Returns its path.
    fn path(self) -> &'static str
        ensures { result.now ≡ path_of self }
    {
        match self {
            Field::Length => "KPASSWD.length",
            Field::Version => "KPASSWD.version",
            Field::ApLength => "KPASSWD.ap-length",
        }
    }
}

/// A field that is refused.
#[derive(Clone, Copy)]
struct Fault {
    field: Field,
    why: Why,
}

/// The header of a message that changes a password.
#[derive(Clone, Copy)]
pub(crate) struct Header {
    pub(crate) version: u16,
    /// How many octets the AP-REQ or AP-REP has, which may be left out.
    pub(crate) ap: u16,
}

/// Reads a field of the header.
fn number(field: Field, octets: &[u8]) -> Result<u16, Fault>
    ensures { result ≡ number field octets.now }
{
    let place = field.place() as usize;
    match octets.get(place..place + 2) {
        Some([high, low]) => Ok(u16::from_be_bytes([*high, *low])),
        _ => Err(Fault {
            field,
            why: Why::Overrun,
        }),
    }
}

/// Returns the header of a message of `size` octets, unless a length does not fit these.
fn checked(size: usize, length: u16, version: u16, ap: u16) -> Result<Header, Fault>
    ensures { result ≡ checked size length version ap }
{
    let (field, why) = if usize::from(length) < size {
        (Field::Length, Why::Loose)
    } else if usize::from(length) > size {
        (Field::Length, Why::Overrun)
    } else if HEADER + usize::from(ap) > size {
        (Field::ApLength, Why::Overrun)
    } else {
        return Ok(Header { version, ap });
    };
    Err(Fault { field, why })
}

/// Reads the header of a message that is all there.
#[tactic(auto, unfolding(crate::specs::Passwords::header))]
fn read_header(octets: &[u8]) -> Result<Header, Fault>
    ensures { result ≡ header octets.now }
{
    let length = number(Field::Length, octets)?;
    let version = number(Field::Version, octets)?;
    let ap = number(Field::ApLength, octets)?;
    checked(octets.len(), length, version, ap)
}

/// Returns whether what precedes the rest of a message begins as an AP-REQ does.
pub(crate) fn begins_ap_req(ap: &[u8]) -> bool
    ensures { result ≡ begins_ap_req ap.now }
{
    match ap {
        [first, ..] => *first == AP_REQ,
        [] => false,
    }
}

/// Lists a part that follows `before` other octets, unless it is left out.
fn list_part(
    profile: Profile,
    octets: &[u8],
    before: u32,
    extent: Extent,
    origin: &CaptureOrigin,
    listing: &mut Listing<'_>,
) -> Result<(), Memory>
    requires { before < 2 ^ 31 }
    ensures { OnOk result (listing.new ≡ with_all origin.now (part_found profile extent before octets.now) listing.old) }
{
    if octets.is_empty() {
        return Ok(());
    }
    list_message(profile, octets, before, extent, origin, listing)
}

/// Lists the refusal of a header that follows `before` octets.
fn list_fault(
    before: u32,
    extent: Extent,
    fault: Fault,
    origin: &CaptureOrigin,
    listing: &mut Listing<'_>,
) -> Result<(), Memory>
    requires { before < 2 ^ 30 }
    ensures { OnOk result (listing.new ≡ with_found origin.now (Faulty (record { place = before + place_of fault.field; why = fault.why }) (Some (path_of fault.field)) extent) listing.old) }
{
    let refusal = Refusal {
        place: before + fault.field.place(),
        why: fault.why,
    };
    listing.put_refusal(origin, refusal, Some(fault.field.path()), extent)
}

/// Lists octets that follow `before` others of a frame or a datagram, as a message that changes a
/// password and is all there.
#[tactic(auto, unfolding(crate::specs::Passwords::password_found))]
pub(crate) fn list_password(
    profile: Profile,
    octets: &[u8],
    before: u32,
    extent: Extent,
    origin: &CaptureOrigin,
    listing: &mut Listing<'_>,
) -> Result<(), Memory>
    requires { before < 2 ^ 30 }
    ensures { OnOk result (listing.new ≡ with_all origin.now (password_found profile extent before octets.now) listing.old) }
{
    let header = match read_header(octets) {
        Ok(header) => header,
        Err(fault) => return list_fault(before, extent, fault, origin, listing),
    };
    list_parts(profile, octets, before, extent, header, origin, listing)
}

/// Lists a message that changes a password, and its parts.
fn list_parts(
    profile: Profile,
    octets: &[u8],
    before: u32,
    extent: Extent,
    header: Header,
    origin: &CaptureOrigin,
    listing: &mut Listing<'_>,
) -> Result<(), Memory>
    requires few { before < 2 ^ 30 }
    requires parts { 6 + header.ap ≤ length octets.now }
    ensures { OnOk result (listing.new ≡ with_all origin.now (parts_found profile extent before octets.now (Ok header)) listing.old) }
{
    let (_, parts) = octets.split_at(HEADER);
    let (ap, rest) = parts.split_at(usize::from(header.ap));
    let after_ap = HEADER as u32 + u32::from(header.ap);
    listing.put_password(origin, octets, ap, header, rest.len() as u64)?;
    list_part(profile, ap, before + HEADER as u32, extent, origin, listing)?;
    list_part(profile, rest, before + after_ap, extent, origin, listing)
}
