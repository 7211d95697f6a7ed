//! Who could not be reached, and how that is known.

ghost use Rattle.std.specs.Prelude.{◌≡◌, ◌++◌, OnOk, IfSome, codes};
ghost use Rattle.std.specs.Net.Text.{ip_text};
ghost use Rattle.std.specs.Option.{option_copied};
ghost use Rattle.std.specs.Str.{IsAscii};
ghost use Rattle.krb_record.specs.Captures.{error_code, error_type};
ghost use Rattle.krb_record.specs.Forms.{called_text, members};
ghost use Rattle.krb_record.specs.Text.{or_dash};
ghost use Rattle.krb_record.specs.Unreachables.{code_name, code_name4, code_name6, error_of, exceeded_code, exceeded_code6, how_name, parameter_code, parameter_code6, type_name, type_name4, type_name6, unreachable_code, unreachable_code6, version_name};
ghost use Rattle.krb_record.specs.Values.{Called as IsCalled, Host as IsHost, Word, if_there};

use crate::cell::{put_no_cell, put_string_cell};
use crate::flow::put_address;
use crate::json::put_string;
use crate::path::Path;
use crate::shown::{Shown, put_begin};
use crate::text_buffer::TextBuffer;
use std::alloc::AllocError;
use std::net::IpAddr;

/// The version of ICMP.
#[derive(Clone, Copy, PartialEq, Eq, Debug)]
pub enum IcmpVersion {
    /// That of IPv4 (RFC 792).
    V4,
    /// That of IPv6 (RFC 4443).
    V6,
}

/// An error of ICMP.
#[derive(Clone, Copy, PartialEq, Eq, Debug)]
pub struct IcmpError {
    /// The version.
    pub version: IcmpVersion,
    /// Who sent it.
    pub by: IpAddr,
    /// Its type.
    pub error_type: u8,
    /// Its code.
    pub code: u8,
}

/// How it is known that somebody could not be reached.
#[derive(Clone, Copy, PartialEq, Eq, Debug)]
pub enum How {
    /// A SYN was reset.
    Reset,
    /// Nothing answered a SYN.
    Silent,
    /// An error of ICMP came.
    Error(IcmpError),
}

impl How {
    /// Returns its word.
    fn name(self) -> &'static str
        ensures { result.now ≡ how_name self }
    {
        match self {
            How::Reset => "reset",
            How::Silent => "silent",
            How::Error(error) => error.version.name(),
        }
    }

    /// Returns who sent an error, if an error says it.
    pub(crate) fn by(self) -> Option<Sender>
        ensures { if_there (λ by. IsHost by.0.by) result ≡ if_there (λ error. IsHost error.by) (error_of self) }
    {
        match self {
            How::Reset | How::Silent => None,
            How::Error(error) => Some(Sender(error)),
        }
    }

    /// Returns the type of an error, if an error says it.
    pub(crate) fn kind(self) -> Option<ErrorType>
        ensures { if_there (λ kind. error_type kind.0) result ≡ if_there error_type (error_of self) }
    {
        match self {
            How::Reset | How::Silent => None,
            How::Error(error) => Some(ErrorType(error)),
        }
    }

    /// Returns the code of an error, if an error says it.
    pub(crate) fn number(self) -> Option<ErrorNumber>
        ensures { if_there (λ code. error_code code.0) result ≡ if_there error_code (error_of self) }
    {
        match self {
            How::Reset | How::Silent => None,
            How::Error(error) => Some(ErrorNumber(error)),
        }
    }
}

impl IcmpVersion {
    /// Returns its word.
    fn name(self) -> &'static str
        ensures { result.now ≡ version_name self }
    {
        match self {
            IcmpVersion::V4 => "icmp",
            IcmpVersion::V6 => "icmpv6",
        }
    }
}

/// Returns the name of a type of ICMP.
fn type_name4(number: u8) -> Option<&'static str>
    ensures { option_copied result ≡ type_name4 number }
{
    match number {
        3 => Some("destination-unreachable"),
        11 => Some("time-exceeded"),
        12 => Some("parameter-problem"),
        _ => None,
    }
}

/// Returns the name of a type of ICMPv6.
fn type_name6(number: u8) -> Option<&'static str>
    ensures { option_copied result ≡ type_name6 number }
{
    match number {
        1 => Some("destination-unreachable"),
        2 => Some("packet-too-big"),
        3 => Some("time-exceeded"),
        4 => Some("parameter-problem"),
        _ => None,
    }
}

/// Returns the name of a code of a destination that is unreachable.
fn unreachable_code(number: u8) -> Option<&'static str>
    ensures { option_copied result ≡ unreachable_code number }
{
    match number {
        0 => Some("net-unreachable"),
        1 => Some("host-unreachable"),
        2 => Some("protocol-unreachable"),
        3 => Some("port-unreachable"),
        4 => Some("fragmentation-needed"),
        5 => Some("source-route-failed"),
        6 => Some("net-unknown"),
        7 => Some("host-unknown"),
        9 => Some("net-prohibited"),
        10 => Some("host-prohibited"),
        11 => Some("net-unreachable-for-tos"),
        12 => Some("host-unreachable-for-tos"),
        13 => Some("communication-prohibited"),
        _ => None,
    }
}

/// Returns the name of a code of a time that is exceeded.
fn exceeded_code(number: u8) -> Option<&'static str>
    ensures { option_copied result ≡ exceeded_code number }
{
    match number {
        0 => Some("ttl-exceeded"),
        1 => Some("reassembly-exceeded"),
        _ => None,
    }
}

/// Returns the name of a code of a problem with a parameter.
fn parameter_code(number: u8) -> Option<&'static str>
    ensures { option_copied result ≡ parameter_code number }
{
    match number {
        0 => Some("pointer"),
        1 => Some("option-missing"),
        2 => Some("bad-length"),
        _ => None,
    }
}

/// Returns the name of a code of a destination that is unreachable, of ICMPv6.
fn unreachable_code6(number: u8) -> Option<&'static str>
    ensures { option_copied result ≡ unreachable_code6 number }
{
    match number {
        0 => Some("no-route"),
        1 => Some("communication-prohibited"),
        2 => Some("beyond-scope"),
        3 => Some("address-unreachable"),
        4 => Some("port-unreachable"),
        5 => Some("source-policy-failed"),
        6 => Some("route-rejected"),
        _ => None,
    }
}

/// Returns the name of a code of a time that is exceeded, of ICMPv6.
fn exceeded_code6(number: u8) -> Option<&'static str>
    ensures { option_copied result ≡ exceeded_code6 number }
{
    match number {
        0 => Some("hop-limit-exceeded"),
        1 => Some("reassembly-exceeded"),
        _ => None,
    }
}

/// Returns the name of a code of a problem with a parameter, of ICMPv6.
fn parameter_code6(number: u8) -> Option<&'static str>
    ensures { option_copied result ≡ parameter_code6 number }
{
    match number {
        0 => Some("erroneous-header"),
        1 => Some("unrecognized-next-header"),
        2 => Some("unrecognized-option"),
        _ => None,
    }
}

/// Returns the name of a code of ICMP.
fn code_name4(error_type: u8, number: u8) -> Option<&'static str>
    ensures { option_copied result ≡ code_name4 error_type number }
{
    match error_type {
        3 => unreachable_code(number),
        11 => exceeded_code(number),
        12 => parameter_code(number),
        _ => None,
    }
}

/// Returns the name of a code of ICMPv6.
fn code_name6(error_type: u8, number: u8) -> Option<&'static str>
    ensures { option_copied result ≡ code_name6 error_type number }
{
    match error_type {
        1 => unreachable_code6(number),
        3 => exceeded_code6(number),
        4 => parameter_code6(number),
        _ => None,
    }
}

impl IcmpError {
    /// Returns the name of its type, if that has one.
    fn type_name(&self) -> Option<&'static str>
        ensures { option_copied result ≡ type_name self.now.version self.now.error_type }
    {
        match self.version {
            IcmpVersion::V4 => type_name4(self.error_type),
            IcmpVersion::V6 => type_name6(self.error_type),
        }
    }

    /// Returns the name of its code, if that has one.
    fn code_name(&self) -> Option<&'static str>
        ensures { option_copied result ≡ code_name self.now.version self.now.error_type self.now.code }
    {
        match self.version {
            IcmpVersion::V4 => code_name4(self.error_type, self.code),
            IcmpVersion::V6 => code_name6(self.error_type, self.code),
        }
    }
}

/// Appends a number, and with names its name, or `-` if it has none.
fn put_called(
    line: &mut TextBuffer,
    names: bool,
    number: u8,
    name: Option<&'static str>,
) -> Result<(), AllocError>
    ensures { OnOk result (line.new ≡ line.old ++ called_text names number (option_copied name.entry)) }
{
    line.push_number(u64::from(number))?;
    if !names {
        return Ok(());
    }
    line.push_sign(":")?;
    match name {
        None => line.push_sign("-"),
        Some(name) => line.push_str(name),
    }
}

/// Appends the members of a number and of its name, or of null.
#[tactic(auto, unfolding(crate::specs::Forms::members, crate::specs::Forms::json_value, crate::specs::Forms::names_member))]
fn put_called_members(
    object: &mut TextBuffer,
    begin: &str,
    number: u8,
    name: Option<&'static str>,
) -> Result<(), AllocError>
    requires { IfSome (option_copied name) IsAscii }
    ensures { OnOk result (object.new ≡ object.old ++ members begin.now (IsCalled number (option_copied name.entry))) }
{
    put_begin(object, begin)?;
    object.push_number(u64::from(number))?;
    object.push_pair(begin, "_name\":")?;
    match name {
        None => object.push_str("null"),
        Some(name) => put_string(object, name.as_bytes()),
    }
}

/// Appends a name, or `-` if there is none.
fn put_name_if(text: &mut TextBuffer, name: Option<&'static str>) -> Result<(), AllocError>
    ensures { OnOk result (text.new ≡ text.old ++ or_dash (λ name. name) (option_copied name.entry)) }
{
    match name {
        None => put_no_cell(text),
        Some(name) => text.push_str(name),
    }
}

/// Its word.
impl Shown for How {
    ghost shown = { λ how. Word (how_name how) };

    #[tactic(auto, unfolding(crate::specs::Forms::value_text))]
    fn put_text(&self, line: &mut TextBuffer, _names: bool) -> Result<(), AllocError> {
        line.push_str(self.name())
    }

    #[tactic(auto, unfolding(crate::specs::Forms::members, crate::specs::Forms::json_value, crate::specs::Forms::names_member))]
    fn put_members(&self, object: &mut TextBuffer, begin: &str) -> Result<(), AllocError> {
        put_begin(object, begin)?;
        put_string(object, self.name().as_bytes())
    }

    #[tactic(auto, unfolding(crate::specs::Forms::cell))]
    fn put_cell(&self, text: &mut TextBuffer, path: Path) -> Result<(), AllocError> {
        match path {
            Path::Whole => put_string_cell(text, self.name().as_bytes()),
            _ => put_no_cell(text),
        }
    }
}

/// Who sent an error.
#[derive(Clone, Copy)]
pub(crate) struct Sender(pub(crate) IcmpError);

impl Shown for Sender {
    ghost shown = { λ sender. IsHost sender.0.by };

    #[tactic(auto, unfolding(crate::specs::Forms::value_text))]
    fn put_text(&self, line: &mut TextBuffer, _names: bool) -> Result<(), AllocError> {
        put_address(line, self.0.by)
    }

    #[tactic(auto, unfolding(crate::specs::Forms::members, crate::specs::Forms::json_value, crate::specs::Forms::names_member))]
    fn put_members(&self, object: &mut TextBuffer, begin: &str) -> Result<(), AllocError> {
        put_begin(object, begin)?;
        put_address_string(object, self.0.by)
    }

    #[tactic(auto, unfolding(crate::specs::Forms::cell))]
    fn put_cell(&self, text: &mut TextBuffer, path: Path) -> Result<(), AllocError> {
        match path {
            Path::Whole => put_address(text, self.0.by),
            _ => put_no_cell(text),
        }
    }
}

/// Appends an address as a string.
fn put_address_string(object: &mut TextBuffer, address: IpAddr) -> Result<(), AllocError>
    ensures { OnOk result (object.new ≡ object.old ++ codes "\"" ++ ip_text address ++ codes "\"") }
{
    object.push_str("\"")?;
    put_address(object, address)?;
    object.push_str("\"")
}

/// The type of an error.
#[derive(Clone, Copy)]
pub(crate) struct ErrorType(pub(crate) IcmpError);

impl Shown for ErrorType {
    ghost shown = { λ kind. error_type kind.0 };

    #[tactic(auto, unfolding(crate::specs::Forms::value_text))]
    fn put_text(&self, line: &mut TextBuffer, names: bool) -> Result<(), AllocError> {
        put_called(line, names, self.0.error_type, self.0.type_name())
    }

    #[tactic(auto, using(crate::proofs::Unreachables::type_ascii))]
    fn put_members(&self, object: &mut TextBuffer, begin: &str) -> Result<(), AllocError> {
        put_called_members(object, begin, self.0.error_type, self.0.type_name())
    }

    #[tactic(auto, unfolding(crate::specs::Forms::cell))]
    fn put_cell(&self, text: &mut TextBuffer, path: Path) -> Result<(), AllocError> {
        match path {
            Path::Whole => text.push_number(u64::from(self.0.error_type)),
            Path::Name => put_name_if(text, self.0.type_name()),
            _ => put_no_cell(text),
        }
    }
}

/// The code of an error.
#[derive(Clone, Copy)]
pub(crate) struct ErrorNumber(pub(crate) IcmpError);

impl Shown for ErrorNumber {
    ghost shown = { λ code. error_code code.0 };

    #[tactic(auto, unfolding(crate::specs::Forms::value_text))]
    fn put_text(&self, line: &mut TextBuffer, names: bool) -> Result<(), AllocError> {
        put_called(line, names, self.0.code, self.0.code_name())
    }

    #[tactic(auto, using(crate::proofs::Unreachables::code_ascii))]
    fn put_members(&self, object: &mut TextBuffer, begin: &str) -> Result<(), AllocError> {
        put_called_members(object, begin, self.0.code, self.0.code_name())
    }

    #[tactic(auto, unfolding(crate::specs::Forms::cell))]
    fn put_cell(&self, text: &mut TextBuffer, path: Path) -> Result<(), AllocError> {
        match path {
            Path::Whole => text.push_number(u64::from(self.0.code)),
            Path::Name => put_name_if(text, self.0.code_name()),
            _ => put_no_cell(text),
        }
    }
}
