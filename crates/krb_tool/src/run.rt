//! Runs over a reader and a writer.

ghost use Rattle.std.specs.Prelude.{IfErr, IfOk};
ghost use Rattle.krb_record.specs.Labels.{no_label};
ghost use Rattle.krb_tool.specs.GoingOn.{ListsStream, FailsStream};
ghost use Rattle.krb_tool.specs.Listing.{Lists, Fails};

use crate::listing::{Lister, Request};
use krb_der::Profile;
use krb_frame::Limit;
use krb_record::{Form, Label};
use krb_run::{CountedReader, RunEnd, RunFault, list_all};
use std::alloc::Global;
use std::io::{Read, Write};

/// Lists a stream of framed messages (RFC 4120, 7.2.2) by the lenient profile and in lines, as
/// [`run_stream_in`] does.
pub fn run_stream<R: Read, W: Write>(
    alloc: Global,
    reader: &mut R,
    writer: &mut W,
    limit: Limit,
) -> Result<RunEnd, RunFault>
    ensures listed { IfOk result (Lists (no_label Form.Lines) Profile.Lenient limit (R.remaining reader.old) (R.remaining reader.new) (W.contents writer.old) (W.contents writer.new)) }
    ensures fault { IfErr result (Fails (no_label Form.Lines) Profile.Lenient limit (R.remaining reader.old) (R.remaining reader.new) (W.contents writer.old) (W.contents writer.new)) }
{
    run_stream_in(
        alloc,
        &Label::none(Form::Lines),
        Profile::Lenient,
        false,
        reader,
        writer,
        limit,
    )
}

/// Lists a stream of framed messages (RFC 4120, 7.2.2) of a profile in a form: writes a line for
/// each message, and then the line of the end, or of the first refusal, after which nothing is
/// looked at. If `keep_going` is true it goes on after refusals: it writes a line for each frame
/// that is refused, too, and then a line that counts both; the frame after one that is refused
/// begins at its end, and nothing is looked at after a frame whose length has its high bit set,
/// since its length is not known. Frames of more than `limit` octets are refused. The reader is
/// asked at most 2^40 times, for 64 KiB each, and the lines of what came are written before it is
/// asked again. It is not asked again after an error, its end or the refusal that ends the run. If
/// a read fails, the lines of all whole frames that were read are written, and no last line; if
/// memory runs out, the first octets of these.
pub fn run_stream_in<R: Read, W: Write>(
    alloc: Global,
    label: &Label,
    profile: Profile,
    keep_going: bool,
    reader: &mut R,
    writer: &mut W,
    limit: Limit,
) -> Result<RunEnd, RunFault>
    ensures listed { IfOk result (ListsStream keep_going label.now profile limit (R.remaining reader.old) (R.remaining reader.new) (W.contents writer.old) (W.contents writer.new)) }
    ensures fault { IfErr result (FailsStream keep_going label.now profile limit (R.remaining reader.old) (R.remaining reader.new) (W.contents writer.old) (W.contents writer.new)) }
{
    let mut counted = CountedReader::new(reader);
    let request = Request {
        label,
        profile,
        limit,
        keep_going,
    };
    list_all::<Lister<'_>, _, _>(alloc, request, &mut counted, writer)
}
