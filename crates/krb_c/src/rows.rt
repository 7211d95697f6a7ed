//! Records in rows of cells, as `krbls --fields` has them.

ghost use Rattle.std.specs.Prelude.{◌≡◌, ◌++◌, ◌⊎◌, ℕ, List, IfOk, OnOk};
ghost use Rattle.krb_c.specs.Numbers.{goes_on, limit_of, now_of, port_of, profile_of};
ghost use Rattle.krb_c.specs.Rows.{AreNoNames, AreRows, AreRowsBy, IsListingOf, kind_of as kind_of_octets, line_of, listings_of, said_of};
ghost use Rattle.krb_c.specs.Written.{IsToldOf, SaysWrong};
ghost use Rattle.krb_choosing.specs.Listings.{chosen_listing, told_listing};
ghost use Rattle.krb_record.specs.Text.{line_feed};
ghost use Rattle.krb_words.specs.Chosen.{error_text};

use crate::listing::{
    capture_listing, ccache_listing, keytab_listing, message_listing, stream_listing,
};
use crate::numbers::{goes_on, limit_of, now_of, port_of, profile_of};
use crate::writing::{Listing, MEMORY, Told, answer_told, copy_out};
use krb_choice::Choice;
use krb_choosing::Choosing;
use krb_fields::Listing as Names;
use krb_input::{SourceKind, kind_of};
use krb_record::Form;
use krb_run::{RunEnd, RunFault, write_all};
use krb_tool::{Limit, Profile};
use krb_words::{WordsFault, rows_of_names};
use std::alloc::Global;
use std::io::Write;

/// What C is told if names are none of any record.
const WRONG_NAMES: u32 = 2;

/// What is before what an error says, and after it.
const BEFORE: &str = "error: ";

const AFTER: &str = "\nFor more information, try '--help'.\n";

/// How octets are listed.
#[derive(Clone, Copy)]
struct Options {
    profile: Profile,
    limit: Limit,
    goes_on: bool,
    time: Option<u32>,
    port: u16,
}

/// Returns what octets are that a number says to be of a kind, or by their first octets.
fn kind_of_octets(number: u32, octets: &[u8]) -> SourceKind
    ensures { result ≡ kind_of_octets number octets.now }
{
    match number {
        1 => SourceKind::Stream,
        2 => SourceKind::Message,
        3 => SourceKind::Keytab,
        4 => SourceKind::Ccache,
        5 => SourceKind::Capture,
        _ => kind_of(octets),
    }
}

/// Returns the listings that have the names, by the number of a kind.
fn listings_of(number: u32) -> &'static [Names]
    ensures { result.now ≡ listings_of number }
{
    match number {
        1 => &[Names::Stream],
        2 => &[Names::Message],
        3 => &[Names::Keytab],
        4 => &[Names::Ccache],
        5 => &[Names::Capture],
        _ => &[
            Names::Stream,
            Names::Message,
            Names::Keytab,
            Names::Ccache,
            Names::Capture,
        ],
    }
}

/// Returns the listing of a kind.
fn listing_of(
    alloc: Global,
    kind: SourceKind,
    options: &Options,
    form: Form,
    octets: &[u8],
) -> Result<Listing, RunFault>
    ensures { IfOk result (λ made. IsListingOf kind options.now form octets.now made.text.items made.end) }
{
    let Options { profile, limit, .. } = *options;
    match kind {
        SourceKind::Stream => {
            stream_listing(alloc, options.goes_on, form, profile, limit, octets)
        }
        SourceKind::Message => message_listing(alloc, form, profile, octets),
        SourceKind::Keytab => keytab_listing(alloc, form, octets),
        SourceKind::Ccache => ccache_listing(alloc, form, options.time, octets),
        SourceKind::Capture => capture_listing(alloc, form, profile, limit, options.port, octets),
    }
}

/// Writes a listing to what chooses of it.
fn write_into<W: Write>(choosing: &mut Choosing<'_, W>, listing: &[u8]) -> Result<(), RunFault>
    ensures all { OnOk result (choosing.new.given.octets ≡ choosing.old.given.octets ++ listing.now) }
    ensures same_writer { OnOk result (choosing.new.writer.ghost_name ≡ choosing.old.writer.ghost_name) }
    ensures same_before { OnOk result (W.contents choosing.new.before.value ≡ W.contents choosing.old.before.value) }
    ensures same_choice { OnOk result (choosing.new.chooser.choice.now ≡ choosing.old.chooser.choice.now) }
    ensures same_goes_on { OnOk result (choosing.new.chooser.goes_on ≡ choosing.old.chooser.goes_on) }
{
    write_all(choosing, listing)
}

/// Writes what a choice makes of a listing, and returns the line that tells of its last record, if that
/// is not kept.
fn choose(
    alloc: Global,
    choice: &Choice,
    goes_on: bool,
    listing: &[u8],
    rows: &mut Vec<u8>,
) -> Result<Vec<u8>, RunFault>
    ensures rows { OnOk result (rows.new.items ≡ rows.old.items ++ chosen_listing choice.now goes_on listing.now) }
    ensures told { IfOk result (λ told. told.items ≡ told_listing choice.now goes_on listing.now) }
{
    let mut choosing = Choosing::new(alloc, choice, goes_on, rows);
    write_into(&mut choosing, listing)?;
    if let Some(error) = choosing.fault() {
        return Err(RunFault::Write(error));
    }
    let told = Vec::from_slice(alloc, choosing.told())?;
    let _ = &*choosing.finish();
    Ok(told)
}

/// Returns what is said of a listing that ends so, of whose last record this is told.
fn said_of(alloc: Global, end: RunEnd, told: Vec<u8>) -> Vec<u8>
    ensures { result.items ≡ said_of end told.items }
{
    match end {
        RunEnd::Clean => Vec::new(alloc),
        RunEnd::Refused | RunEnd::RefusedAtOnce => told,
    }
}

/// Returns the rows of the records that a choice keeps.
fn rows(
    alloc: Global,
    choice: &Choice,
    kind: SourceKind,
    options: &Options,
    octets: &[u8],
) -> Result<Told, RunFault>
    ensures { IfOk result (λ made. AreRows choice.now kind options.now octets.now made.text.items made.said.items made.end) }
{
    let goes_on = options.goes_on && kind == SourceKind::Stream;
    let listing = listing_of(alloc, kind, options, choice.form(), octets)?;
    let mut text = Vec::new(alloc);
    let told = choose(alloc, choice, goes_on, listing.text.as_slice(), &mut text)?;
    let end = listing.end;
    let said = said_of(alloc, end, told);
    Ok(Told { text, said, end })
}

/// Returns what an error says, with a line feed.
fn line_of(error: &str) -> &[u8]
    ensures { result.now ≡ line_of error.now }
{
    let octets = error.as_bytes();
    let (_, said) = octets.split_at(BEFORE.len().min(octets.len()));
    let (said, _) = said.split_at(said.len().saturating_sub(AFTER.len()));
    said
}

/// Writes no rows, and what is wrong with names.
fn answer_wrong(
    error: &str,
    text: &mut [u8],
    size: &mut usize,
    said: &mut [u8],
    said_size: &mut usize,
) -> u32
    ensures { SaysWrong (λ line. line ≡ line_of error.now) (record { before = text.old; after = text.new; size_before = size.old; size_after = size.new }) (record { before = said.old; after = said.new; size_before = said_size.old; size_after = said_size.new }) result }
{
    copy_out(&[], text, size);
    copy_out(line_of(error), said, said_size);
    WRONG_NAMES
}

/// Lists octets in rows of cells, as `krbls --fields` does: a row of the members of some names for
/// each record that has all of them. `listing` says what the octets are, 1 to 5, or any other number
/// that their first octets do. Says the last record if not all was read and it has no row, and what
/// is wrong with the names: then it returns 2.
#[unsafe(no_mangle)]
pub extern "C" fn krbls_fields(
    alloc: Global,
    listing: u32,
    profile: u32,
    limit: u32,
    going_on: u32,
    now: u32,
    port: u16,
    names: &[u8],
    octets: &[u8],
    text: &mut [u8],
    size: &mut usize,
    said: &mut [u8],
    said_size: &mut usize,
) -> u32
    ensures { IsToldOf (AreRowsBy (listings_of listing) names.now (kind_of_octets listing octets.now) (record { profile = profile_of profile; limit = limit_of limit; goes_on = goes_on going_on; time = now_of now; port = port_of port }) octets.now) (record { before = text.old; after = text.new; size_before = size.old; size_after = size.new }) (record { before = said.old; after = said.new; size_before = said_size.old; size_after = said_size.new }) result ⊎ SaysWrong (AreNoNames (listings_of listing) names.now) (record { before = text.old; after = text.new; size_before = size.old; size_after = size.new }) (record { before = said.old; after = said.new; size_before = said_size.old; size_after = said_size.new }) result }
{
    match rows_of_names(alloc, listings_of(listing), names) {
        Ok(choice) => {
            let options = Options {
                profile: profile_of(profile),
                limit: limit_of(limit),
                goes_on: goes_on(going_on),
                time: now_of(now),
                port: port_of(port),
            };
            let kind = kind_of_octets(listing, octets);
            let made = rows(alloc, &choice, kind, &options, octets);
            answer_told(made, text, size, said, said_size)
        }
        Err(WordsFault::Wrong(error)) => answer_wrong(error.as_str(), text, size, said, said_size),
        Err(WordsFault::Memory) => MEMORY,
    }
}
