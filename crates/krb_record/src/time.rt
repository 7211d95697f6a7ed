//! Times: seconds since the beginning of 1970, with nanoseconds or without.

ghost use Rattle.std.specs.Prelude.{◌≡◌, ◌++◌, ◌<◌, ◌^◌, IfOk, OnOk, pos, string_bytes};
ghost use Rattle.std.specs.Str.{IsAscii};
ghost use Rattle.krb_record.specs.Time.{civil_date, clock_text, date_text, file_time, timestamp_text, last_digits, microseconds, moment_text, time_text, two_digits};
ghost use Rattle.krb_record.specs.Values.{Word};
ghost use Rattle.jiff_core.specs.Date.{epoch_day};

use crate::cell::{put_no_cell, put_string_cell};
use crate::json::put_string;
use crate::path::Path;
use crate::shown::{Shown, put_begin};
use crate::text_buffer::TextBuffer;
use jiff_core::civil::Date;
use krb_der::Memory;
use krb_source::Timestamp;
use std::alloc::{AllocError, Global};

fn day_after(days: u32) -> Date
    requires { days < 50_000 }
    ensures { epoch_day result ≡ pos days }
{
    match Date::from_unix_epoch_day(i64::from(days)) {
        Ok(date) => date,
        Err(_) => unreachable!(),
    }
}

/// Returns two digits of a number.
#[inline(always)]
#[tactic(auto, unfolding(crate::specs::Time::two_digits))]
fn two_digits(number: u32) -> [u8; 2]
    requires { number < 100 }
    ensures { result ≡ two_digits number }
{
    [b'0' + (number / 10) as u8, b'0' + (number % 10) as u8]
}

/// Returns the ten characters of the date n days after the beginning of 1970.
fn date_text(days: u32) -> [u8; 10]
    requires { days < 50_000 }
    ensures { result ≡ date_text (civil_date days) }
{
    let date = day_after(days);
    let year = u32::from(date.year.unsigned_abs());
    let [a, b] = two_digits(year / 100);
    let [c, d] = two_digits(year % 100);
    let [e, f] = two_digits(u32::from(date.month));
    let [g, h] = two_digits(u32::from(date.day));
    [a, b, c, d, b'-', e, f, b'-', g, h]
}

/// Returns the eight characters of a second of a day.
#[tactic(auto, unfolding(crate::specs::Time::clock_text))]
fn clock_text(seconds: u32) -> [u8; 8]
    requires { seconds < 86_400 }
    ensures { result ≡ clock_text seconds }
{
    let [a, b] = two_digits(seconds / 3600);
    let [c, d] = two_digits(seconds / 60 % 60);
    let [e, f] = two_digits(seconds % 60);
    [a, b, b':', c, d, b':', e, f]
}

/// Returns the last nine digits of a number.
fn nine_digits(number: u32) -> [u8; 9]
    ensures { result ≡ last_digits 9 number }
{
    [
        b'0' + (number / 100_000_000 % 10) as u8,
        b'0' + (number / 10_000_000 % 10) as u8,
        b'0' + (number / 1_000_000 % 10) as u8,
        b'0' + (number / 100_000 % 10) as u8,
        b'0' + (number / 10_000 % 10) as u8,
        b'0' + (number / 1000 % 10) as u8,
        b'0' + (number / 100 % 10) as u8,
        b'0' + (number / 10 % 10) as u8,
        b'0' + (number % 10) as u8,
    ]
}

/// Returns the twenty characters of the moment n seconds after the beginning of 1970.
fn moment(seconds: u32) -> [u8; 20]
    ensures text { result ≡ moment_text seconds }
    ensures ascii { IsAscii result }
{
    let [a, b, c, d, e, f, g, h, i, j] = date_text(seconds / 86_400);
    let [k, l, m, n, o, p, q, r] = clock_text(seconds % 86_400);
    [
        a, b, c, d, e, f, g, h, i, j, b'T', k, l, m, n, o, p, q, r, b'Z',
    ]
}

/// Returns the thirty characters of a time to the nanosecond. Of the nanoseconds the last nine
/// digits are shown.
fn to_the_nanosecond(time: Timestamp) -> [u8; 30]
    ensures text { result ≡ timestamp_text time.seconds time.nanoseconds }
    ensures ascii { IsAscii result }
{
    let [a, b, c, d, e, f, g, h, i, j] = date_text(time.seconds / 86_400);
    let [k, l, m, n, o, p, q, r] = clock_text(time.seconds % 86_400);
    let [s, t, u, v, w, x, y, z, end] = nine_digits(time.nanoseconds);
    [
        a, b, c, d, e, f, g, h, i, j, b'T', k, l, m, n, o, p, q, r, b'.', s, t, u, v, w, x, y, z,
        end, b'Z',
    ]
}

/// Returns the microseconds from the beginning of 1970 to a time, rounded down. Of the nanoseconds
/// the last nine digits count. Readers of JSON take a number below 2^53 as it is (RFC 8259, section
/// 6).
pub fn microseconds(time: Timestamp) -> u64
    ensures number { result ≡ microseconds time.seconds time.nanoseconds }
    ensures exact { result < 2 ^ 53 }
{
    u64::from(time.seconds) * 1_000_000 + u64::from(time.nanoseconds % 1_000_000_000 / 1000)
}

/// Appends the moment n seconds after the beginning of 1970, or `-` at 0.
pub fn put_time(line: &mut TextBuffer, seconds: u32) -> Result<(), AllocError>
    ensures { OnOk result (line.new ≡ line.old ++ time_text seconds) }
{
    if seconds == 0 {
        line.push_str("-")
    } else {
        line.push_ascii(&moment(seconds))
    }
}

/// Returns the moment n seconds after the beginning of 1970, or `-` at 0.
pub fn time_text(alloc: Global, seconds: u32) -> Result<String, Memory>
    ensures { IfOk result (λ text. string_bytes text ≡ time_text seconds) }
{
    let mut text = TextBuffer::new(alloc);
    put_time(&mut text, seconds)?;
    Ok(text.into_string())
}

/// A time of a file: seconds since the beginning of 1970, 0 if there is none.
#[derive(Clone, Copy)]
pub struct FileTime(pub u32);

/// `-` in a line and null in an object at 0.
impl Shown for FileTime {
    ghost shown = { λ time. file_time time.0 };

    #[tactic(auto, unfolding(crate::specs::Forms::value_text))]
    fn put_text(&self, line: &mut TextBuffer, _names: bool) -> Result<(), AllocError> {
        put_time(line, self.0)
    }

    #[tactic(auto, unfolding(crate::specs::Forms::members, crate::specs::Forms::json_value, crate::specs::Forms::names_member))]
    fn put_members(&self, object: &mut TextBuffer, begin: &str) -> Result<(), AllocError> {
        put_begin(object, begin)?;
        if self.0 == 0 {
            object.push_str("null")
        } else {
            put_string(object, &moment(self.0))
        }
    }

    #[tactic(auto, unfolding(crate::specs::Forms::cell))]
    fn put_cell(&self, text: &mut TextBuffer, path: Path) -> Result<(), AllocError> {
        match path {
            Path::Whole if self.0 == 0 => put_no_cell(text),
            Path::Whole => put_string_cell(text, &moment(self.0)),
            _ => put_no_cell(text),
        }
    }
}

/// The moment, with nine digits of nanoseconds.
impl Shown for Timestamp {
    ghost shown = { λ time. Word (timestamp_text time.seconds time.nanoseconds) };

    #[tactic(auto, unfolding(crate::specs::Forms::value_text))]
    fn put_text(&self, line: &mut TextBuffer, _names: bool) -> Result<(), AllocError> {
        line.push_ascii(&to_the_nanosecond(*self))
    }

    #[tactic(auto, unfolding(crate::specs::Forms::members, crate::specs::Forms::json_value, crate::specs::Forms::names_member))]
    fn put_members(&self, object: &mut TextBuffer, begin: &str) -> Result<(), AllocError> {
        put_begin(object, begin)?;
        put_string(object, &to_the_nanosecond(*self))
    }

    #[tactic(auto, unfolding(crate::specs::Forms::cell))]
    fn put_cell(&self, text: &mut TextBuffer, path: Path) -> Result<(), AllocError> {
        match path {
            Path::Whole => put_string_cell(text, &to_the_nanosecond(*self)),
            _ => put_no_cell(text),
        }
    }
}
