//! The times that credentials are compared with.

ghost use Rattle.std.specs.Prelude.{ℕ, ◌≡◌, ◌≤◌, ◌<◌, IfSome, pos, unsigned_abs};
ghost use Rattle.std.specs.Option.{MatchOption};
ghost use Rattle.jiff_core.specs.Calendar.{IsDate};
ghost use Rattle.jiff_core.specs.Date.{IsYmd, epoch_day};
ghost use Rattle.krb_words.specs.Times.{CountsSeconds, IsClock, IsDateTime, IsDay, IsNoTime, IsWhen, days_since, digit, fits, has_form, seconds_of_day, seconds_since, soonest, two, year};

use jiff_core::civil::Date;

/// A time that credentials are compared with.
#[derive(Clone, Copy, PartialEq, Eq, Debug)]
pub enum When {
    /// What the clock says.
    Clock,
    /// That many seconds after the beginning of 1970. No credential ends after the last second of
    /// 32 bits, which stands for each later one, up to the year 9999.
    Seconds(u32),
}

/// The last second after the beginning of 1970 that a date and a time can say.
const LAST_SECOND: u64 = 253_402_300_799;

/// A date and a time as they are printed, in which `0` stands for any digit.
const FORM: &[u8] = b"0000-00-00T00:00:00Z";

/// Returns whether an octet is the one of the form, in which `0` stands for any digit.
fn fits(form: u8, octet: u8) -> bool
    ensures { result ≡ fits form octet }
{
    if form == b'0' {
        b'0' <= octet && octet <= b'9'
    } else {
        octet == form
    }
}

/// Returns whether a text is of a form.
fn has_form(form: &[u8], text: &[u8]) -> bool
    ensures { result ≡ has_form form.now text.now }
{
    let mut places = form;
    let mut octets = text;
    while let ([place, others @ ..], [octet, rest @ ..]) = (places, octets) {
        if !fits(*place, *octet) {
            return false;
        }
        places = others;
        octets = rest;
    }
    places.is_empty() && octets.is_empty()
}

/// Returns the digit at a place of a text.
fn digit(text: &[u8], place: usize) -> u8
    ensures value { result ≡ digit text.now place }
    ensures range { result ≤ 9 }
{
    match text.get(place) {
        Some(octet) => octet.saturating_sub(b'0').min(9),
        None => 0,
    }
}

/// Returns the number of the two digits at a place of a text and after it.
fn two(text: &[u8], place: usize) -> u8
    requires { place ≤ 100 }
    ensures value { result ≡ two text.now place }
    ensures range { result ≤ 99 }
{
    10 * digit(text, place) + digit(text, place + 1)
}

/// Returns the year of a text.
fn year(text: &[u8]) -> u16
    ensures value { result ≡ year text.now }
    ensures range { result ≤ 9999 }
{
    100 * u16::from(two(text, 0)) + u16::from(two(text, 2))
}

/// Returns the date of a year, a month and a day, if the calendar has it.
fn date(year: u16, month: u8, day: u8) -> Option<Date>
    requires year { year ≤ 9999 }
    requires month { month ≤ 99 }
    requires day { day ≤ 99 }
    ensures { MatchOption result (IsDate (pos year) (pos month) (pos day) → ⊥) (λ date. IsDate (pos year) (pos month) (pos day) × IsYmd (pos year) (pos month) (pos day) date) }
{
    match Date::new(year as i16, month as i8, day as i8) {
        Ok(date) => Some(date),
        Err(_) => None,
    }
}

/// Returns how many days lie between the first one of 1970 and a date.
fn days_between(date: Date) -> u32
    ensures value { result ≡ unsigned_abs (epoch_day date) }
    ensures range { result ≤ 4_371_587 }
{
    date.to_unix_epoch_day().unsigned_abs()
}

/// Returns the number of a day of the calendar, from 0 for the first one of 1970, if a text has one.
fn day(text: &[u8]) -> Option<u32>
    ensures day { MatchOption result (IsDay text.now → ⊥) (λ days. IsDay text.now × (days ≡ days_since text.now)) }
    ensures few { IfSome result (λ days. days ≤ 4_371_587) }
{
    let year = year(text);
    if year < 1970 {
        return None;
    }
    match date(year, two(text, 5), two(text, 8)) {
        Some(date) => Some(days_between(date)),
        None => None,
    }
}

/// Returns the second of a day that a text has, if there is such a second.
fn clock(text: &[u8]) -> Option<u32>
    ensures clock { MatchOption result (IsClock text.now → ⊥) (λ seconds. IsClock text.now × (seconds ≡ seconds_of_day text.now)) }
    ensures few { IfSome result (λ seconds. seconds < 86_400) }
{
    let hour = two(text, 11);
    let minute = two(text, 14);
    let second = two(text, 17);
    if hour < 24 && minute < 60 && second < 60 {
        Some(3600 * u32::from(hour) + 60 * u32::from(minute) + u32::from(second))
    } else {
        None
    }
}

/// Returns how many seconds after the beginning of 1970 a text says, if it is a date and a time.
fn date_time(text: &[u8]) -> Option<u64>
    ensures { MatchOption result (IsDateTime text.now → ⊥) (λ seconds. IsDateTime text.now × (seconds ≡ seconds_since text.now)) }
{
    if !has_form(FORM, text) {
        return None;
    }
    match (day(text), clock(text)) {
        (Some(days), Some(seconds)) => Some(86_400 * u64::from(days) + u64::from(seconds)),
        _ => None,
    }
}

/// Returns how many seconds after the beginning of 1970 a text says, if it is such a number that a
/// date can say.
fn count(text: &str) -> Option<u64>
    ensures { MatchOption result ((seconds : ℕ) → CountsSeconds text.now seconds → ⊥) (CountsSeconds text.now) }
{
    match text.parse::<u64>() {
        Ok(seconds) if seconds <= LAST_SECOND => Some(seconds),
        _ => None,
    }
}

/// Returns the time of a number of seconds after the beginning of 1970.
fn at(seconds: u64) -> When
    ensures { result ≡ When.Seconds (soonest seconds) }
{
    When::Seconds(seconds.min(u64::from(u32::MAX)) as u32)
}

/// Returns the time that a text says: `now`, a date and a time, or a number of seconds.
pub(crate) fn read_when(text: &str) -> Option<When>
    ensures { MatchOption result (IsNoTime text.now) (IsWhen text.now) }
{
    if text == "now" {
        return Some(When::Clock);
    }
    if let Some(seconds) = date_time(text.as_bytes()) {
        return Some(at(seconds));
    }
    match count(text) {
        Some(seconds) => Some(at(seconds)),
        None => None,
    }
}
