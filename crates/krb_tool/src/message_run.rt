//! A run over one message, which an input spells.

ghost use Rattle.std.specs.Prelude.{◌≡◌, IfErr, IfOk};
ghost use Rattle.krb_record.specs.Labels.{no_label};
ghost use Rattle.krb_run.specs.Files.{ListsFile, FailsFile, shown};
ghost use Rattle.krb_tool.specs.Messages.{IsMessageListing, message_listing, octets_listing};

use crate::message_input::{MOST_INPUT, MessageInput};
use krb_der::Profile;
use krb_input::Spelling;
use krb_record::{Form, Label, TextBuffer};
use krb_run::{CountedReader, FileFormat, FileText, RunEnd, RunFault, run_file};
use std::alloc::Global;
use std::io::{Read, Write};

/// Returns the record, in a form, of the message of a profile that octets are, or of why they are
/// none: what [`run_message_in`] writes of an input that is these octets, or spells them, but that
/// it tells them to be octets. They may be those of a frame, of a GSS-API token or one of SPNEGO in
/// which there is a message, or of a Ticket, too; they are not read as text. The one error is
/// running out of memory.
pub fn list_octets(
    alloc: Global,
    form: Form,
    profile: Profile,
    octets: &[u8],
) -> Result<FileText, RunFault>
    ensures listed { IfOk result (λ made. shown made ≡ octets_listing form profile octets.now) }
    ensures fault { IfErr result (λ e. e ≡ RunFault.Memory) }
{
    let mut text = TextBuffer::new(alloc);
    let input = MessageInput::whole(form, profile);
    let end = input.put_octets(alloc, &mut text, Spelling::Octets, octets)?;
    Ok(FileText { text, end })
}

/// Returns the record, with a label, of the message of a profile that an input spells, or of why it
/// spells none: what [`run_message_in`] writes of it. The one error is running out of memory.
#[tactic(auto, unfolding(crate::specs::Messages::message_listing))]
pub fn list_input(
    alloc: Global,
    label: &Label,
    profile: Profile,
    input: &[u8],
) -> Result<FileText, RunFault>
    ensures listed { IfOk result (λ made. shown made ≡ message_listing label.now profile input.now) }
    ensures fault { IfErr result (λ e. e ≡ RunFault.Memory) }
{
    let mut text = TextBuffer::new(alloc);
    let whole = MessageInput::whole(label.form(), profile);
    label.begin(&mut text)?;
    let end = whole.put(alloc, &mut text, input)?;
    label.end(&mut text)?;
    Ok(FileText { text, end })
}

/// An input that spells a message of a profile, and the form of its listing.
#[derive(Drop)]
struct SpelledMessage<'a> {
    label: &'a Label,
    profile: Profile,
}

impl FileFormat for SpelledMessage<'_> {
    ghost Lists = { λ format input listing. IsMessageListing format.label.now format.profile input listing };

    fn most(&self) -> Option<usize> {
        Some(MOST_INPUT + 1)
    }

    fn list(&self, alloc: Global, input: &[u8]) -> Result<FileText, RunFault> {
        list_input(alloc, self.label, self.profile, input)
    }
}

/// Lists one message, by the lenient profile and in a line, as [`run_message_in`] does.
pub fn run_message<R: Read, W: Write>(
    alloc: Global,
    reader: &mut R,
    writer: &mut W,
) -> Result<RunEnd, RunFault>
    ensures listed { IfOk result (ListsFile (IsMessageListing (no_label Form.Lines) Profile.Lenient) (R.remaining reader.old) (R.remaining reader.new) (W.contents writer.old) (W.contents writer.new)) }
    ensures fault { IfErr result (FailsFile (IsMessageListing (no_label Form.Lines) Profile.Lenient) (R.remaining reader.old) (R.remaining reader.new) (W.contents writer.old) (W.contents writer.new)) }
{
    run_message_in(
        alloc,
        &Label::none(Form::Lines),
        Profile::Lenient,
        reader,
        writer,
    )
}

/// Lists one message of a profile in a form: writes its record, or that of its refusal. The input
/// spells it as `krb_input` reads it: as octets, in hexadecimal, as a dump or in base64; it is the
/// message, or a frame, a GSS-API token or one of SPNEGO in which the message lies, as `krb_token`
/// opens it, or a Ticket. A text that spells no octets is `refused hex`, `refused dump` or `refused
/// base64`, and an input of more than 16777216 octets `refused length`. It is read first, by at most
/// 2^40 reads of at most 64 KiB each: all that the reader has, or 16777217 octets, which settle that.
pub fn run_message_in<R: Read, W: Write>(
    alloc: Global,
    label: &Label,
    profile: Profile,
    reader: &mut R,
    writer: &mut W,
) -> Result<RunEnd, RunFault>
    ensures listed { IfOk result (ListsFile (IsMessageListing label.now profile) (R.remaining reader.old) (R.remaining reader.new) (W.contents writer.old) (W.contents writer.new)) }
    ensures fault { IfErr result (FailsFile (IsMessageListing label.now profile) (R.remaining reader.old) (R.remaining reader.new) (W.contents writer.old) (W.contents writer.new)) }
{
    let mut counted = CountedReader::new(reader);
    let message = SpelledMessage { label, profile };
    run_file(alloc, &mut counted, writer, &message)
}
