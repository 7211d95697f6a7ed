//! A run over one message, which an input spells, that lists its items.

ghost use Rattle.std.specs.Prelude.{◌≡◌, ◌^◌, ◌<◌, Some, length, IfErr, IfOk};
ghost use Rattle.krb_items.specs.Reached.{believed};
ghost use Rattle.krb_run.specs.Files.{FailsFile, ListsFile, shown};
ghost use Rattle.krb_items_run.specs.Items.{IsItemsListing, believed_text, found_items, octets_items, octets_items_listing, reached_of, refused_after, whole_items};
ghost use Rattle.krb_items_run.specs.Seen.{listable_of, message_listing_of};

use crate::fronts::front_listable;
use crate::listable::{Listable, find_listable};
use crate::records::{put_believed, put_items_end};
use krb_der::{Profile, Refusal};
use krb_input::{InputFault, read_input};
use krb_items::{Lies, Listed, believed, list_octets};
use krb_record::{Form, Label, TextBuffer};
use krb_run::{CountedReader, FileFormat, FileText, RunEnd, RunFault, run_file};
use krb_tool::{list_input, list_octets as list_message};
use std::alloc::{AllocError, Global};
use std::io::{Read, Write};

/// The greatest number of octets of an input that spells a message.
const MOST_INPUT: usize = 16777216;

/// The greatest number of octets of a message.
const MOST_OCTETS: usize = 2147483647;

/// What is listed: an input that spells a message, or octets that are not read as text.
#[derive(Clone, Copy)]
enum Given<'a> {
    Input(&'a [u8]),
    Octets(&'a [u8]),
}

/// A profile of messages, and the label of the listing of their items.
#[derive(Clone, Copy)]
struct SpelledItems<'a> {
    label: &'a Label,
    profile: Profile,
}

impl SpelledItems<'_> {
    /// Returns a text and the records of octets after it: of the items before a message of NTLM, if one
    /// is there, or else of all, up to the one at fault.
    fn reach(
        self,
        alloc: Global,
        found: Listable,
        text: TextBuffer,
        octets: &[u8],
    ) -> Result<Listed, AllocError>
        requires short { length octets.now < 2 ^ 32 }
        ensures { IfOk result (λ listed. listed ≡ reached_of self.entry.label.now text (listable_of found) octets.now) }
    {
        let Some(place) = found.ntlm else {
            return list_octets(alloc, self.label, text, found.lies, octets, found.fault);
        };
        let front = &octets[..octets.len().min(place as usize)];
        list_octets(alloc, self.label, text, found.lies, front, None)
    }

    /// Returns a text and, if the first length is believed, the records of the octets of that length.
    fn believe(
        self,
        alloc: Global,
        lies: Lies,
        text: TextBuffer,
        octets: &[u8],
        refusal: Refusal,
    ) -> Result<TextBuffer, AllocError>
        requires short { length octets.now < 2 ^ 31 }
        ensures { IfOk result (λ made. made ≡ believed_text self.entry.label.now self.entry.profile lies octets.now text (believed lies octets.now refusal)) }
    {
        let Some(size) = believed(lies, octets, refusal) else {
            return Ok(text);
        };
        let mut text = text;
        put_believed(&mut text, self.label, size, octets.len())?;
        let front = &octets[..octets.len().min(size as usize)];
        let found = front_listable(self.profile, lies, size, front);
        Ok(self.reach(alloc, found, text, front)?.text)
    }

    /// Returns what is listed of octets that are given, of which more than a message may have are not
    /// looked at.
    #[tactic(auto, unfolding(crate::specs::Items::octets_items))]
    fn list_octets(
        self,
        alloc: Global,
        octets: &[u8],
        given: Given<'_>,
    ) -> Result<FileText, RunFault>
        ensures listed { IfOk result (λ made. shown made ≡ octets_items self.entry.label.now self.entry.profile octets.now (message_listing_of self.entry.label.now self.entry.profile given.entry)) }
        ensures fault { IfErr result (λ e. e ≡ RunFault.Memory) }
    {
        if octets.len() > MOST_OCTETS {
            return self.list_refused(alloc, given);
        }
        match find_listable(self.profile, octets) {
            None => self.list_refused(alloc, given),
            Some(found) => self.list_found(alloc, found, octets, given),
        }
    }

    /// Returns the listing of the message that is given, of which no items are listed.
    fn list_refused(self, alloc: Global, given: Given<'_>) -> Result<FileText, RunFault>
        ensures listed { IfOk result (λ made. shown made ≡ message_listing_of self.entry.label.now self.entry.profile given.entry) }
        ensures fault { IfErr result (λ e. e ≡ RunFault.Memory) }
    {
        match given {
            Given::Input(input) => list_input(alloc, self.label, self.profile, input),
            Given::Octets(octets) => list_message(alloc, self.label.form(), self.profile, octets),
        }
    }

    /// Returns what is listed of octets that something is found in.
    fn list_found(
        self,
        alloc: Global,
        found: Listable,
        octets: &[u8],
        given: Given<'_>,
    ) -> Result<FileText, RunFault>
        requires short { length octets.now < 2 ^ 31 }
        ensures listed { IfOk result (λ made. shown made ≡ found_items self.entry.label.now self.entry.profile octets.now (Some (listable_of found)) (message_listing_of self.entry.label.now self.entry.profile given.entry)) }
        ensures fault { IfErr result (λ e. e ≡ RunFault.Memory) }
    {
        let text = TextBuffer::new(alloc);
        let listed = self.reach(alloc, found, text, octets)?;
        if found.ntlm.is_some() {
            return self.list_fault(alloc, listed.text, given);
        }
        match found.fault {
            None => self.list_whole(listed),
            Some(refusal) => {
                let text = self.believe(alloc, found.lies, listed.text, octets, refusal)?;
                self.list_fault(alloc, text, given)
            }
        }
    }

    /// Returns the listing of items and the record of the end after them.
    fn list_whole(self, listed: Listed) -> Result<FileText, RunFault>
        ensures listed { IfOk result (λ made. shown made ≡ whole_items self.entry.label.now listed) }
        ensures fault { IfErr result (λ e. e ≡ RunFault.Memory) }
    {
        let mut text = listed.text;
        put_items_end(&mut text, self.label, listed.count)?;
        let end = RunEnd::Clean;
        Ok(FileText { text, end })
    }

    /// Returns what is reached of what is given, and the record of its refusal after it.
    fn list_fault(
        self,
        alloc: Global,
        text: TextBuffer,
        given: Given<'_>,
    ) -> Result<FileText, RunFault>
        ensures listed { IfOk result (λ made. shown made ≡ refused_after text (message_listing_of self.entry.label.now self.entry.profile given.entry)) }
        ensures fault { IfErr result (λ e. e ≡ RunFault.Memory) }
    {
        let mut text = text;
        let refused = self.list_refused(alloc, given)?;
        let end = refused.end;
        text.push_str(refused.text.into_string().as_str())?;
        Ok(FileText { text, end })
    }
}

impl FileFormat for SpelledItems<'_> {
    ghost Lists = { λ format input listing. IsItemsListing format.label.now format.profile input listing };

    fn most(&self) -> Option<usize> {
        Some(MOST_INPUT + 1)
    }

    #[tactic(auto, unfolding(crate::specs::Items::items_listing, crate::specs::Items::spelled_items))]
    fn list(&self, alloc: Global, input: &[u8]) -> Result<FileText, RunFault> {
        let given = Given::Input(input);
        if input.len() > MOST_INPUT {
            return self.list_refused(alloc, given);
        }
        match read_input(alloc, input) {
            Ok(made) => self.list_octets(alloc, made.octets.as_slice(), given),
            Err(InputFault::Misspelled(_)) => self.list_refused(alloc, given),
            Err(InputFault::Memory) => Err(RunFault::Memory),
        }
    }
}

/// Returns the items, in a form, of the message of a profile that octets are: what [`run_items_in`]
/// writes of an input that is these octets, or spells them, but that it tells them to be octets. They
/// are not read as text. The one error is running out of memory.
pub fn list_items(
    alloc: Global,
    form: Form,
    profile: Profile,
    octets: &[u8],
) -> Result<FileText, RunFault>
    ensures listed { IfOk result (λ made. shown made ≡ octets_items_listing form profile octets.now) }
    ensures fault { IfErr result (λ e. e ≡ RunFault.Memory) }
{
    let label = &Label::none(form);
    SpelledItems { label, profile }.list_octets(alloc, octets, Given::Octets(octets))
}

/// Lists the items of one message of a profile with a label, which the input spells as
/// [`run_message_in`](krb_tool::run_message_in) reads it: a record for each item in order of place,
/// and then that of the end. If something is refused, the records are those of the items up to there,
/// of the item at fault, of what is reached if the first length is believed, and then that of
/// `run_message_in`. It is read first, as there.
pub fn run_items_in<R: Read, W: Write>(
    alloc: Global,
    label: &Label,
    profile: Profile,
    reader: &mut R,
    writer: &mut W,
) -> Result<RunEnd, RunFault>
    ensures listed { IfOk result (ListsFile (IsItemsListing label.now profile) (R.remaining reader.old) (R.remaining reader.new) (W.contents writer.old) (W.contents writer.new)) }
    ensures fault { IfErr result (FailsFile (IsItemsListing label.now profile) (R.remaining reader.old) (R.remaining reader.new) (W.contents writer.old) (W.contents writer.new)) }
{
    let mut counted = CountedReader::new(reader);
    run_file(
        alloc,
        &mut counted,
        writer,
        &SpelledItems { label, profile },
    )
}
