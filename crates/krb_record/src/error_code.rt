//! Codes of errors.

ghost use Rattle.std.specs.Prelude.{◌≡◌, ◌++◌, OnOk};
ghost use Rattle.krb_record.specs.Errors.{code_suffix, code_text};
ghost use Rattle.krb_record.specs.Values.{ErrorCode as IsErrorCode};

use crate::cell::{put_no_cell, put_number_name};
use crate::item::{put_name_member, put_named};
use crate::path::Path;
use crate::shown::{Shown, put_begin};
use crate::text_buffer::TextBuffer;
use krb_registry::Registry;
use std::alloc::AllocError;

/// The code of an error (RFC 4120, 7.5.9): its number, and `:` and its name if it is one of those
/// that KDCs and servers answer most, or with names in any case.
#[derive(Clone, Copy)]
pub struct ErrorCode(pub i64);

/// `:` and the name of an error that has one in any line.
#[tactic(auto, unfolding(crate::specs::Errors::code_suffix, crate::specs::Errors::code_name))]
fn code_suffix<'a>(code: i64) -> &'a str
    ensures { result.now ≡ code_suffix code }
{
    match code {
        6 => ":KDC_ERR_C_PRINCIPAL_UNKNOWN",
        7 => ":KDC_ERR_S_PRINCIPAL_UNKNOWN",
        14 => ":KDC_ERR_ETYPE_NOSUPP",
        24 => ":KDC_ERR_PREAUTH_FAILED",
        25 => ":KDC_ERR_PREAUTH_REQUIRED",
        37 => ":KRB_AP_ERR_SKEW",
        52 => ":KRB_ERR_RESPONSE_TOO_BIG",
        60 => ":KRB_ERR_GENERIC",
        61 => ":KRB_ERR_FIELD_TOOLONG",
        _ => "",
    }
}

/// Appends a code, and `:` and its name if it has one in any line.
#[tactic(auto, unfolding(crate::specs::Errors::code_text))]
fn put_code(line: &mut TextBuffer, code: i64) -> Result<(), AllocError>
    ensures { OnOk result (line.new ≡ line.old ++ code_text code) }
{
    line.push_signed(code)?;
    line.push_str(code_suffix(code))
}

impl Shown for ErrorCode {
    ghost shown = { λ code. IsErrorCode code.0 };

    #[inline(always)]
    #[tactic(auto, unfolding(crate::specs::Forms::value_text))]
    fn put_text(&self, line: &mut TextBuffer, names: bool) -> Result<(), AllocError> {
        if names {
            put_named(line, true, Registry::ErrorCodes, self.0)
        } else {
            put_code(line, self.0)
        }
    }

    #[tactic(auto, unfolding(crate::specs::Forms::members, crate::specs::Forms::json_value, crate::specs::Forms::names_member))]
    fn put_members(&self, object: &mut TextBuffer, begin: &str) -> Result<(), AllocError> {
        put_begin(object, begin)?;
        object.push_signed(self.0)?;
        put_name_member(object, begin, Registry::ErrorCodes, self.0)
    }

    #[tactic(auto, unfolding(crate::specs::Forms::cell))]
    fn put_cell(&self, text: &mut TextBuffer, path: Path) -> Result<(), AllocError> {
        match path {
            Path::Whole => text.push_signed(self.0),
            Path::Name => put_number_name(text, Registry::ErrorCodes, self.0),
            _ => put_no_cell(text),
        }
    }
}
