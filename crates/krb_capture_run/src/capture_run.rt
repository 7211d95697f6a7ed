//! The run over a capture.

ghost use Rattle.std.specs.Prelude.{◌≡◌, ℕ, List, Some, IfErr, IfOk};
ghost use Rattle.krb_capture_run.specs.Captures.{IsCaptureRest, capture_listing, refused_end};
ghost use Rattle.krb_capture.specs.Labels.{of_records};
ghost use Rattle.krb_file.specs.declared.fault.FileFault.TheVariants as faults;
ghost use Rattle.krb_run.specs.Faults.{IsRead, IsWrite};
ghost use Rattle.krb_run.specs.Records.{ListsRecords, WritesSome};
ghost use Rattle.krb_capture_run.specs.inner.CaptureRuns.{AddsCaptureEnd, AddsFileRefusal, CaptureSource, FailsInPacket, IsCaptureLeft};

use krb_capture::{Capture, Rest};
use krb_der::Profile;
use krb_file::{FileFault, FileItem};
use krb_frame::Limit;
use krb_packet::Packets;
use krb_record::{Label, TextBuffer};
use krb_run::{
    RecordLines, RunEnd, RunFault, Watch, Watched, extent_of, file_path, in_pieces, list_records,
};
use std::alloc::Global;
use std::io::{Read, Write};

/// The records of a capture.
#[derive(Drop)]
struct CaptureLines<'label, 'watch, R: Read> {
    packets: Packets<R>,
    capture: Capture<'label>,
    /// What is left of the packet that came last, if its records are not all listed.
    rest: Option<Box<Rest>>,
    label: &'label Label,
    watch: &'watch Watch,
}

/// Appends the records of the end of a file.
pub(crate) fn put_end(
    capture: &mut Capture<'_>,
    text: &mut TextBuffer,
) -> Result<Option<RunEnd>, RunFault>
    ensures put { IfOk result (AddsCaptureEnd capture.old text.old text.new) }
    ensures fault { IfErr result (λ e. e ≡ RunFault.Memory) }
{
    if capture.finish(text)? {
        Ok(Some(RunEnd::Clean))
    } else {
        Ok(Some(RunEnd::Refused))
    }
}

/// Returns how a run ends whose file is refused: at once, if no packet came before.
fn refused_end(at_once: bool) -> RunEnd
    ensures { result ≡ refused_end at_once }
{
    if at_once {
        RunEnd::RefusedAtOnce
    } else {
        RunEnd::Refused
    }
}

/// Appends the records of a fault of the file, which ends the run. Faults of the reader have none.
#[tactic(auto, using(crate::proofs::FileRefusals::same_refusal))]
pub(crate) fn put_fault(
    alloc: Global,
    fault: FileFault,
    capture: &mut Capture<'_>,
    label: &Label,
    watch: &Watch,
    text: &mut TextBuffer,
) -> Result<Option<RunEnd>, RunFault>
    ensures put { IfOk result (AddsFileRefusal fault capture.old label.now text.old text.new) }
    ensures fault { IfErr result (λ e. IsWrite e → ⊥) }
    ensures kept { IfErr result (λ e. IsRead e → text.new ≡ text.old) }
    ensures failed { IfErr result (λ e. IsRead e → fault ≡ faults.Read) }
    ensures same_capture { IfErr result (λ e. IsRead e → capture.new ≡ capture.old) }
{
    match fault {
        FileFault::Refused(refusal) => {
            let path = file_path(alloc, label.form(), FileItem::File, refusal.field)?;
            let path = match &path {
                None => None,
                Some(path) => Some(path.as_str()),
            };
            let extent = extent_of(refusal);
            let at_once = capture.is_empty();
            capture.refuse(refusal.place, refusal.why, path, extent, text)?;
            Ok(Some(refused_end(at_once)))
        }
        FileFault::Read => Err(RunFault::Read(watch.error())),
        FileFault::Memory => Err(RunFault::Memory),
    }
}

impl<R: Read> RecordLines for CaptureLines<'_, '_, R> {
    ghost Source = { CaptureSource };

    ghost IsLeft = { λ lines _ source left. IsCaptureLeft lines.packets lines.capture lines.rest lines.label.now source left };

    ghost Fails = { λ was now. FailsInPacket now.packets was.capture now.capture was.rest };

    fn put_next(
        &mut self,
        alloc: Global,
        _count: u64,
        text: &mut TextBuffer,
    ) -> Result<Option<RunEnd>, RunFault> {
        if let Some(rest) = self.rest.take() {
            self.rest = self.capture.go_on(rest, text)?;
            return Ok(None);
        }
        match self.packets.next_packet(alloc) {
            Ok(Some(packet)) => {
                self.rest = self.capture.take(&packet, text)?;
                self.packets.give_back(packet);
                Ok(None)
            }
            Ok(None) => put_end(&mut self.capture, text),
            Err(fault) => put_fault(
                alloc,
                fault,
                &mut self.capture,
                self.label,
                self.watch,
                text,
            ),
        }
    }
}

/// Lists the Kerberos messages of a capture, a pcap or a pcapng: writes the records of each packet,
/// and at the end those of the end and the totals, or the refusal of the file. Frames of more than
/// `limit` octets are refused, messages are judged by `profile`, and `port` is the one of KDCs.
/// Reads and writes as [`list_records`] does.
pub fn run_capture<R: Read, W: Write>(
    alloc: Global,
    label: &Label,
    profile: Profile,
    reader: &mut R,
    writer: &mut W,
    limit: Limit,
    port: u16,
) -> Result<RunEnd, RunFault>
    ensures listed { (file : List ℕ) → R.remaining reader.old ≡ Some file → ListsRecords (capture_listing (record { label = of_records label.now; profile = profile; limit = limit; port = port }) file) (IsCaptureRest (record { label = of_records label.now; profile = profile; limit = limit; port = port }) file) (W.contents writer.old) (W.contents writer.new) result }
    ensures written { WritesSome (W.contents writer.old) (W.contents writer.new) }
{
    let watch = Watch::new();
    let watch = &watch;
    let reader = in_pieces(alloc, Watched { reader, watch })?;
    let packets = Packets::new(reader);
    let capture = Capture::new(alloc, label, profile, limit, port)?;
    let mut text = TextBuffer::new(alloc);
    let mut lines = CaptureLines {
        packets,
        capture,
        rest: None,
        label,
        watch,
    };
    list_records(alloc, &mut lines, &mut text, watch, writer)
}
