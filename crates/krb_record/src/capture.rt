//! Records of captures.

ghost use Rattle.std.specs.Prelude.{◌≡◌, ◌++◌, [], OnOk, codes};
ghost use Rattle.std.specs.Option.{option_copied};
ghost use Rattle.krb_record.specs.Captures.{capture_end_line, capture_refused_line, captured_refused_line, count_fields, how_fields, joined_line, lost_line, password_line, told_counts, unanswered_line, unreachable_line, unread_line};
ghost use Rattle.krb_record.specs.declared.form.Form.TheVariants.{NamedLines};
ghost use Rattle.krb_record.specs.Forms.{fields_text, opening};
ghost use Rattle.krb_record.specs.Refusals.{refused_file};

use crate::capture_origin::{CaptureOrigin, put_captured_end, put_captured_opening};
use crate::extent::Extent;
use crate::field::put_opening;
use crate::form::Form;
use crate::last::{Last, put_last};
use crate::put_field;
use crate::refusal::{Reason, known_path, put_fault_fields, put_path};
use crate::text_buffer::TextBuffer;
use crate::told::{Answer, Request, ToldCounts, put_answer, put_told_counts};
use crate::unreachable::How;
use krb_der::Refusal;
use krb_source::{FileWhy, UnreadWhy};
use std::alloc::AllocError;

/// Appends the line of a refused message of a capture: the place of the octet at fault and what is
/// wrong with it, and, to a line only if numbers have their names, the path of the field at fault,
/// and where the message lies in its direction, or how many octets its datagram has.
#[tactic(auto, unfolding(crate::specs::Forms::record_text))]
pub fn put_captured_refusal(
    text: &mut TextBuffer,
    form: Form,
    origin: &CaptureOrigin,
    refusal: Refusal,
    path: Option<&str>,
    extent: Extent,
) -> Result<(), AllocError>
    ensures { OnOk result (text.new ≡ text.old ++ captured_refused_line form origin.now refusal (option_copied path.entry) extent) }
{
    let place = u64::from(refusal.place);
    let reason = Reason::of(refusal.why);
    put_captured_opening(text, form, origin, "refused")?;
    put_fault_fields(text, form, place, &reason, path, extent)?;
    put_captured_end(text, form, origin)
}

/// Appends the line of a direction whose first octets come without a SYN: what follows may begin
/// within a message.
#[tactic(auto, unfolding(crate::specs::Forms::record_text))]
pub fn put_joined(
    text: &mut TextBuffer,
    form: Form,
    origin: &CaptureOrigin,
) -> Result<(), AllocError>
    ensures { OnOk result (text.new ≡ text.old ++ joined_line form origin.now) }
{
    put_captured_opening(text, form, origin, "joined")?;
    put_captured_end(text, form, origin)
}

/// Appends the line of octets that are not in the capture: their place in the direction or in the
/// datagram, how many they are, and the path of the field that has the first one, which a line
/// has only if numbers have their names.
#[tactic(auto, unfolding(crate::specs::Forms::record_text))]
pub fn put_lost(
    text: &mut TextBuffer,
    form: Form,
    origin: &CaptureOrigin,
    place: u64,
    octets: u64,
    path: Option<&str>,
) -> Result<(), AllocError>
    ensures { OnOk result (text.new ≡ text.old ++ lost_line form origin.now place octets (option_copied path.entry)) }
{
    put_captured_opening(text, form, origin, "lost")?;
    put_field!(text, form, "place": &place)?;
    put_field!(text, form, "octets": &octets)?;
    put_path(text, form, path)?;
    put_captured_end(text, form, origin)
}

/// Appends the line of octets between ports of Kerberos that no message has: the place of the first
/// one in the direction or in the datagram, if they have one, how many they are, and why.
#[tactic(auto, unfolding(crate::specs::Forms::record_text))]
pub fn put_unread(
    text: &mut TextBuffer,
    form: Form,
    origin: &CaptureOrigin,
    place: Option<u64>,
    count: u64,
    why: UnreadWhy,
) -> Result<(), AllocError>
    ensures { OnOk result (text.new ≡ text.old ++ unread_line form origin.now place count why) }
{
    put_captured_opening(text, form, origin, "unread")?;
    put_field!(text, form, "place": &place)?;
    put_field!(text, form, "octets": &count)?;
    put_field!(text, form, "why": &Reason::of_unread(why))?;
    put_captured_end(text, form, origin)
}

/// Appends the line of a message that changes a password (RFC 3244, section 2): its version, how
/// many octets its AP-REQ or AP-REP has, and how many follow it.
#[tactic(auto, unfolding(crate::specs::Forms::record_text))]
pub fn put_password(
    text: &mut TextBuffer,
    form: Form,
    origin: &CaptureOrigin,
    version: u16,
    ap: u16,
    rest: u64,
) -> Result<(), AllocError>
    ensures { OnOk result (text.new ≡ text.old ++ password_line form origin.now version ap rest) }
{
    put_captured_opening(text, form, origin, "KPASSWD")?;
    put_field!(text, form, "version": &u64::from(version))?;
    put_field!(text, form, "ap": &u64::from(ap))?;
    put_field!(text, form, "rest": &rest)?;
    put_captured_end(text, form, origin)
}

/// Appends the line of a request that no reply answered: what it is, and how long it waited for one.
#[tactic(auto, unfolding(crate::specs::Forms::record_text))]
pub fn put_unanswered(
    text: &mut TextBuffer,
    form: Form,
    origin: &CaptureOrigin,
    request: Request,
    answer: &Answer,
) -> Result<(), AllocError>
    ensures { OnOk result (text.new ≡ text.old ++ unanswered_line form origin.now request answer.now) }
{
    put_captured_opening(text, form, origin, "unanswered")?;
    put_field!(text, form, "request": &request)?;
    put_answer(text, form, answer)?;
    put_captured_end(text, form, origin)
}

/// Appends the fields of how it is known that somebody could not be reached.
fn put_how(text: &mut TextBuffer, form: Form, how: How) -> Result<(), AllocError>
    ensures { OnOk result (text.new ≡ text.old ++ fields_text form (how_fields how)) }
{
    put_field!(text, form, "how": &how)?;
    put_field!(text, form, "by": &how.by())?;
    put_field!(text, form, "type": &how.kind())?;
    put_field!(text, form, "code": &how.number())
}

/// Appends the line of somebody who could not be reached: how that is known, and the request or the
/// SYN that it is about.
#[tactic(auto, unfolding(crate::specs::Forms::record_text))]
pub fn put_unreachable(
    text: &mut TextBuffer,
    form: Form,
    origin: &CaptureOrigin,
    how: How,
    answer: &Answer,
) -> Result<(), AllocError>
    ensures { OnOk result (text.new ≡ text.old ++ unreachable_line form origin.now how answer.now) }
{
    put_captured_opening(text, form, origin, "unreachable")?;
    put_how(text, form, how)?;
    put_answer(text, form, answer)?;
    put_captured_end(text, form, origin)
}

/// What was counted in a capture.
#[derive(Clone, Copy, PartialEq, Eq, Debug, Default)]
pub struct CaptureCounts {
    /// The packets.
    pub packets: u64,
    /// The messages that were listed.
    pub messages: u64,
    /// The messages that were refused.
    pub refused: u64,
    /// How many times octets were not in the capture.
    pub lost: u64,
    /// The packets that could not be read, and how often octets were in no message.
    pub unread: u64,
}

/// Appends the fields of the counts.
fn put_counts(text: &mut TextBuffer, form: Form, counts: &CaptureCounts) -> Result<(), AllocError>
    ensures { OnOk result (text.new ≡ text.old ++ fields_text form (count_fields counts.now)) }
{
    put_field!(text, form, "packets": &counts.packets)?;
    put_field!(text, form, "messages": &counts.messages)?;
    put_field!(text, form, "refused": &counts.refused)?;
    put_field!(text, form, "lost": &counts.lost)?;
    put_field!(text, form, "unread": &counts.unread)
}

/// What was counted and told in a capture that is read to its end.
#[derive(Clone, Copy)]
struct Totals<'a> {
    counts: &'a CaptureCounts,
    told: &'a ToldCounts,
}

impl<'a> Last for Totals<'a> {
    ghost origin = { λ totals. [] };

    ghost kind = { λ form totals. codes "end" };

    ghost fields = { λ form totals. count_fields totals.counts.now ++ told_counts form totals.told.now };

    ghost told = { λ totals. count_fields totals.counts.now };

    fn put(&self, text: &mut TextBuffer, form: Form) -> Result<(), AllocError> {
        put_opening(text, form, "end")?;
        put_counts(text, form, self.counts)?;
        put_told_counts(text, form, self.told)
    }

    fn put_told(&self, text: &mut TextBuffer) -> Result<(), AllocError> {
        put_opening(text, Form::NamedLines, "end")?;
        put_counts(text, Form::NamedLines, self.counts)
    }
}

/// A capture that is refused, and what was counted and told before that.
#[derive(Clone, Copy)]
struct RefusedCapture<'a> {
    totals: Totals<'a>,
    place: u64,
    why: FileWhy,
    path: Option<&'a str>,
    extent: Extent,
}

impl<'a> RefusedCapture<'a> {
    /// Appends the record up to what is told.
    fn put_untold(&self, text: &mut TextBuffer, form: Form) -> Result<(), AllocError>
        ensures { OnOk result (text.new ≡ text.old ++ (opening form (codes "refused") ++ fields_text form (count_fields self.now.totals.counts.now ++ (refused_file form self.now.place self.now.why (option_copied self.now.path) self.now.extent).fields))) }
    {
        let reason = Reason::of_file(self.why);
        put_opening(text, form, "refused")?;
        put_counts(text, form, self.totals.counts)?;
        put_fault_fields(text, form, self.place, &reason, self.path, self.extent)
    }
}

impl<'a> Last for RefusedCapture<'a> {
    ghost origin = { λ refused. [] };

    ghost kind = { λ form refused. codes "refused" };

    ghost fields = { λ form refused. count_fields refused.totals.counts.now ++ ((refused_file form refused.place refused.why (option_copied refused.path) refused.extent).fields ++ told_counts form refused.totals.told.now) };

    ghost told = { λ refused. count_fields refused.totals.counts.now ++ (refused_file NamedLines refused.place refused.why (option_copied refused.path) refused.extent).fields };

    fn put(&self, text: &mut TextBuffer, form: Form) -> Result<(), AllocError> {
        self.put_untold(text, form)?;
        put_told_counts(text, form, self.totals.told)
    }

    fn put_told(&self, text: &mut TextBuffer) -> Result<(), AllocError> {
        self.put_untold(text, Form::NamedLines)
    }
}

/// Appends the last line of a capture that is read to its end. A line without names has nothing of
/// what was told.
#[tactic(auto, unfolding(crate::specs::Forms::record_text))]
pub fn put_capture_end(
    text: &mut TextBuffer,
    form: Form,
    counts: &CaptureCounts,
    told: &ToldCounts,
) -> Result<(), AllocError>
    ensures { OnOk result (text.new ≡ text.old ++ capture_end_line form counts.now told.now) }
{
    put_last(text, form, &Totals { counts, told })
}

/// Appends the last line of a capture that is refused: what was counted before, the place of the
/// field at fault, what is wrong with it, and, to a line only if numbers have their names, its path,
/// where the part of the file begins that is refused, and what was told.
#[tactic(auto, unfolding(crate::specs::Forms::record_text))]
pub fn put_capture_refusal(
    text: &mut TextBuffer,
    form: Form,
    counts: &CaptureCounts,
    told: &ToldCounts,
    place: u64,
    why: FileWhy,
    path: Option<&str>,
    extent: Extent,
) -> Result<(), AllocError>
    ensures { OnOk result (text.new ≡ text.old ++ capture_refused_line form counts.now told.now place why (option_copied path.entry) extent) }
{
    let refused = RefusedCapture {
        totals: Totals { counts, told },
        place,
        why,
        path: known_path(form, path),
        extent,
    };
    put_last(text, form, &refused)
}
