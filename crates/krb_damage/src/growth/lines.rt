//! Messages that the lines of a text spell, listed.

use super::conversions::{Known, is_written};
use krb_der::{Memory, Profile};
use krb_record::{Form, Label};
use krb_run::RunEnd;
use krb_tool::run_lines_in;
use std::alloc::Global;

/// An AP-REP in hexadecimal, an empty line, and a token and a message that are cut, in base64 and
/// in hexadecimal.
const LINES: &[u8] =
    b"6F1D301BA003020105A10302010FA20F300DA003020112A2060404DEADBEEF\n\nYIGZBg==\n6f1d";

const LISTING: &[u8] =
    b"line=1 AP-REP enc=18:aes256-cts-hmac-sha1-96:-:4 notes=[]\nline=3 via=GSS refused place=2 why=5 Overrun in=GSS at=64 length=4 form=base64\nline=4 refused place=1 why=5 Overrun in=AP-REP at=73 length=2 form=hex\nend messages=1 refused=2\n";

/// Returns whether the lines are listed.
pub(super) fn lists_lines(alloc: Global) -> Result<bool, Memory> {
    let mut reader = LINES;
    let mut writer = Known { rest: LISTING };
    let outcome = run_lines_in(
        alloc,
        &Label::none(Form::NamedLines),
        Profile::Lenient,
        &mut reader,
        &mut writer,
    );
    is_written(outcome, RunEnd::Refused, &writer)
}
