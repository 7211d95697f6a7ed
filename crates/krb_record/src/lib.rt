//! Records in one of three forms, and the values that they show.
//!
//! A record is a kind and fields, and a field is a name and a value. [`Form::Lines`] makes a line
//! of it, [`Form::NamedLines`] a line in which the numbers of registries have their names, and
//! [`Form::Json`] an object of JSON. What a record has is said once, whatever the form; each
//! function appends to one text ([`TextBuffer`]), and its contract says what was appended. A record
//! may have an origin, which is fields, too: a line has it before the kind, an object after it.
//! A [`Label`] puts the name of a file into each record: first in a line, last in an object.
//!
//! Records are made of [`put_opening`], [`put_field`] of what is [`Shown`], and [`put_end`]; values
//! are numbers of registries ([`Numbered`]), names of principals ([`Principal`]), flags
//! ([`FlagBits`]), times ([`FileTime`]) and others. What is refused has a call for each source,
//! [`put_message_refusal`] among them, which takes an [`Extent`]: where the octets lie that are
//! refused. What is found in a capture beside messages has one for each kind, [`put_lost`] among
//! them, which takes a [`CaptureOrigin`]; what that tells of an exchange ([`Told`]) plain lines have
//! not. Nothing here knows messages, and nothing reads or writes a
//! file.
#![tactic(auto)]

mod capture;
mod capture_origin;
mod cell;
mod error_code;
mod escape;
mod extent;
mod field;
mod file_name;
mod flags;
mod flow;
mod form;
mod input;
mod item;
mod json;
mod label;
mod last;
mod message_origin;
mod number;
mod origin;
mod path;
mod principal;
mod refusal;
mod shown;
mod status;
mod stream;
mod text_buffer;
mod ticket_flags;
mod time;
mod told;
mod unreachable;

pub use capture::{
    CaptureCounts, put_capture_end, put_capture_refusal, put_captured_refusal, put_joined,
    put_lost, put_password, put_unanswered, put_unreachable, put_unread,
};
pub use capture_origin::{CaptureOrigin, put_captured_closing, put_captured_opening};
pub use cell::{put_no_cell, put_string_cell};
pub use error_code::ErrorCode;
pub use escape::put_escaped;
pub use extent::Extent;
pub use field::{put_closing, put_end, put_field, put_opening};
pub use file_name::{FileName, put_file};
pub use flags::FlagBits;
pub use flow::{Flow, Transport};
pub use form::{Base, Form, Wanted};
pub use input::{InputFault, put_input_refusal};
pub use item::{NumberForm, put_number_item};
pub use json::put_string;
pub use label::Label;
pub use message_origin::{MessageOrigin, put_message_opening};
pub use number::{Address, Digest, Encrypted, Numbered};
pub use path::Path;
pub use principal::{Components, Principal, Strings, principal_text, put_principal};
pub use refusal::{
    Reason, put_fault_fields, put_file_refusal, put_message_refusal, put_path,
    put_untold_message_refusal,
};
pub use shown::{ABSENT, HexText, Plain, QuotedText, Shown, Text, put_begin, put_names_begin};
pub use status::Status;
pub use stream::{
    put_counted_stream_end, put_stream_end, put_stream_refusal, put_untold_stream_refusal,
};
pub use text_buffer::TextBuffer;
pub use ticket_flags::TicketFlags;
pub use time::{FileTime, microseconds, put_time, time_text};
pub use told::{Answer, Request, Span, Told, ToldCounts};
pub use unreachable::{How, IcmpError, IcmpVersion};
