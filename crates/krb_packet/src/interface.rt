//! The interfaces of a pcapng, and the times of their packets.

ghost use Rattle.std.specs.Prelude.{◌≡◌, ◌*◌, ◌^◌, ◌<◌, ◌≤◌, []};
ghost use Rattle.std.specs.Option.{SomeIff};
ghost use Rattle.krb_file.specs.Fields.{called, is_at_end, octets_to_end};
ghost use Rattle.krb_file.specs.declared.field_name.FieldName.TheVariants as fields;
ghost use Rattle.krb_file.specs.FieldReaders.{Follows, Keeps, source_at};
ghost use Rattle.krb_packet.specs.Interfaces.{padded, with_setting, setting_at, value_at, option_at, options_within, clock_of, interface_at, units_in_second, nanoseconds, seconds_after, clock_time, no_options};

use crate::order::{ByteOrder, field16, field32, number16};
use crate::packet::{LinkType, NANOSECONDS, time_at};
use krb_file::{FieldName, FieldReader, FileFault, FileRefusal, called};
use krb_source::Timestamp;

/// What packets of a pcapng were captured from.
#[derive(Clone, Copy, PartialEq, Eq, Debug)]
pub struct Interface {
    /// The type of the link.
    pub link: LinkType,
    /// How many octets of a packet are captured at most; 0 for any number.
    pub snaplen: u32,
    /// The unit and the offset of its times.
    pub clock: Clock,
}

/// The unit and the offset of the times of an interface.
#[derive(Clone, Copy, PartialEq, Eq, Debug)]
pub struct Clock {
    /// The units of a second, as the octet of `if_tsresol`: a power of 2 if its highest bit
    /// is set, else a power of 10.
    pub resolution: u8,
    /// The seconds that are added to each time.
    pub offset: i64,
}

/// The options of an interface that were read.
#[derive(Clone, Copy)]
pub struct Options {
    /// The octet of `if_tsresol`.
    pub resolution: Option<u8>,
    /// The seconds of `if_tsoffset`.
    pub offset: Option<i64>,
}

/// An option of an interface.
#[derive(Clone, Copy)]
pub enum Setting {
    /// The octet of `if_tsresol`.
    Resolution(u8),
    /// The seconds of `if_tsoffset`.
    Offset(i64),
    /// Nothing that is read.
    Other,
}

/// The code of the option that ends a list of them.
const END_OF_OPTIONS: u16 = 0;

/// The code of `if_tsresol`.
const TIME_RESOLUTION: u16 = 9;

/// The code of `if_tsoffset`.
const TIME_OFFSET: u16 = 14;

/// The resolution of times without an option for it: microseconds.
const MICROSECONDS: u8 = 6;

impl Options {
    /// Returns the options with one more. Of several of one code, the first counts.
    fn with(self, setting: Setting) -> Options
        ensures { result ≡ with_setting setting self }
    {
        match (setting, self.resolution, self.offset) {
            (Setting::Resolution(octet), None, offset) => Options {
                resolution: Some(octet),
                offset,
            },
            (Setting::Offset(seconds), resolution, None) => Options {
                resolution,
                offset: Some(seconds),
            },
            _ => self,
        }
    }

    /// Returns the unit and the offset of the times of an interface with these options.
    fn clock(self) -> Clock
        ensures { result ≡ clock_of self }
    {
        Clock {
            resolution: self.resolution.unwrap_or(MICROSECONDS),
            offset: self.offset.unwrap_or(0),
        }
    }
}

/// Returns how many octets a value of `size` octets and its padding have.
fn padded(size: u16) -> u64
    ensures { result ≡ padded size }
{
    (u64::from(size) + 3) / 4 * 4
}

/// Reads the value of an option, and its padding.
fn value<F: FieldReader>(
    order: ByteOrder,
    code: u16,
    size: u16,
    reader: &mut F,
) -> Result<Setting, FileFault>
    ensures read { Follows (λ setting. setting) result (value_at order code size) F.MayFail (F.cursor reader.old) (F.cursor reader.new) }
    ensures keeps { Keeps (F.cursor reader.old) (F.cursor reader.new) }
{
    if code == TIME_RESOLUTION && size == 1 {
        let octet = reader.number8()?;
        reader.skip(3)?;
        Ok(Setting::Resolution(octet))
    } else if code == TIME_OFFSET && size == 8 {
        let mut octets = [0; 8];
        reader.fill(&mut octets)?;
        Ok(Setting::Offset(i64::from_be_bytes(order.highest_first(octets))))
    } else {
        reader.skip(padded(size))?;
        Ok(Setting::Other)
    }
}

/// Reads an option, or the end of the options.
fn next_setting<F: FieldReader>(
    order: ByteOrder,
    reader: &mut F,
) -> Result<Option<Setting>, FileFault>
    ensures read { Follows (λ setting. setting) result (setting_at order) F.MayFail (F.cursor reader.old) (F.cursor reader.new) }
    ensures keeps { Keeps (F.cursor reader.old) (F.cursor reader.new) }
{
    let code = number16(order, reader)?;
    let size = number16(order, reader)?;
    if code == END_OF_OPTIONS {
        return Ok(None);
    }
    Ok(Some(value(order, code, size, reader)?))
}

/// Reads an option, or the end of the options, as one field.
fn setting_field<F: FieldReader>(
    order: ByteOrder,
    reader: &mut F,
) -> Result<Option<Setting>, FileFault>
    ensures read { Follows (λ setting. setting) result (called fields.Options (setting_at order)) F.MayFail (F.cursor reader.old) (F.cursor reader.new) }
    ensures keeps { Keeps (F.cursor reader.old) (F.cursor reader.new) }
{
    called(FieldName::Options, next_setting(order, reader))
}

/// Reads an option, or the end of the options. One that passes the end is refused at its first
/// octet.
fn next_option<F: FieldReader>(
    order: ByteOrder,
    reader: &mut F,
) -> Result<Option<Setting>, FileFault>
    ensures read { Follows (λ setting. setting) result (option_at order) F.MayFail (F.cursor reader.old) (F.cursor reader.new) }
    ensures keeps { Keeps (F.cursor reader.old) (F.cursor reader.new) }
{
    let place = reader.place();
    match setting_field(order, reader) {
        Err(FileFault::Refused(refusal)) => {
            Err(FileFault::Refused(FileRefusal { place, ..refusal }))
        }
        read => read,
    }
}

/// Returns how many octets are left up to the end.
pub(crate) fn octets_to_end<F: FieldReader>(reader: &F) -> u64
    ensures { result ≡ octets_to_end (F.cursor reader.now).bounds.end (F.cursor reader.now).place }
{
    match reader.end() {
        Some(end) => end.saturating_sub(reader.place()),
        None => 0,
    }
}

/// Returns whether the end is reached.
fn is_at_end<F: FieldReader>(reader: &F) -> bool
    ensures { result ≡ is_at_end (F.cursor reader.now).bounds (source_at (F.cursor reader.now).place []) }
{
    match reader.end() {
        Some(end) => end <= reader.place(),
        None => false,
    }
}

/// Reads options up to the one that ends them, or up to the end, but no more than `most`.
fn read_options<F: FieldReader>(
    order: ByteOrder,
    most: u64,
    reader: &mut F,
) -> Result<Options, FileFault>
    ensures read { Follows (λ options. options) result (options_within most order no_options) F.MayFail (F.cursor reader.old) (F.cursor reader.new) }
    ensures keeps { Keeps (F.cursor reader.old) (F.cursor reader.new) }
{
    let mut options = Options {
        resolution: None,
        offset: None,
    };
    for _ in 0..most {
        if is_at_end(reader) {
            return Ok(options);
        }
        match next_option(order, reader)? {
            Some(setting) => options = options.with(setting),
            None => return Ok(options),
        }
    }
    Ok(options)
}

/// Reads the body of an interface description block.
pub(crate) fn read_interface<F: FieldReader>(
    order: ByteOrder,
    reader: &mut F,
) -> Result<Interface, FileFault>
    ensures read { Follows (λ interface. interface) result (interface_at order) F.MayFail (F.cursor reader.old) (F.cursor reader.new) }
    ensures keeps { Keeps (F.cursor reader.old) (F.cursor reader.new) }
{
    let link = field16(order, FieldName::LinkType, reader)?;
    field16(order, FieldName::Reserved, reader)?;
    let snaplen = field32(order, FieldName::SnapLen, reader)?;
    let options = read_options(order, octets_to_end(reader), reader)?;
    Ok(Interface {
        link: LinkType::of(u32::from(link)),
        snaplen,
        clock: options.clock(),
    })
}

/// Returns how many units a second has, if 128 bits hold that number.
fn units_in_second(resolution: u8) -> Option<u128>
    ensures { SomeIff result (units_in_second resolution < 2 ^ 128) (units_in_second resolution) }
{
    if resolution < 128 {
        10u128.checked_pow(u32::from(resolution))
    } else {
        2u128.checked_pow(u32::from(resolution - 128))
    }
}

/// Returns the number of nanoseconds of a number of units, rounded down.
fn nanoseconds(resolution: u8, units: u64) -> u128
    ensures value { result ≡ nanoseconds resolution units }
    ensures few { result ≤ units * 10 ^ 9 }
{
    let nanoseconds = u128::from(units) * u128::from(NANOSECONDS);
    match units_in_second(resolution) {
        Some(second) => nanoseconds / second,
        // A nanosecond has more units than a number of 64 bits.
        None => 0,
    }
}

/// Returns seconds moved by an offset, or 0 for those before 1970.
fn seconds_after(offset: i64, seconds: u128) -> u128
    requires { seconds < 2 ^ 64 }
    ensures { result ≡ seconds_after offset seconds }
{
    let distance = u128::from(offset.unsigned_abs());
    if offset < 0 {
        seconds.saturating_sub(distance)
    } else {
        seconds + distance
    }
}

impl Clock {
    /// Returns the time of a number of units.
    pub(crate) fn time(self, units: u64) -> Option<Timestamp>
        ensures { result ≡ clock_time self units }
    {
        let nanoseconds = nanoseconds(self.resolution, units);
        let second = u128::from(NANOSECONDS);
        let seconds = seconds_after(self.offset, nanoseconds / second);
        time_at(seconds, (nanoseconds % second) as u32)
    }
}
