//! Registered numbers, alone and with their names, versions and sizes.

ghost use Rattle.std.specs.Prelude.{◌≡◌, ◌++◌, OnOk, codes, decimal};
ghost use Rattle.std.specs.Fmt.{signed_decimal};
ghost use Rattle.krb_registry.specs.declared.registry.Registry.TheVariants.{EncryptionTypes};
ghost use Rattle.krb_record.specs.Forms.{digest_object, address_object, name_string, or_null, encrypted_object};
ghost use Rattle.krb_record.specs.Text.{or_dash};
ghost use Rattle.krb_record.specs.Values.{Address as IsAddress, Digest as IsDigest, Encrypted as IsEncrypted, Named};

use crate::cell::{put_hex_cell, put_no_cell, put_number_name};
use crate::escape::put_hex;
use crate::item::{put_name_member, put_name_string, put_named};
use crate::path::Path;
use crate::shown::{Shown, put_begin};
use crate::text_buffer::TextBuffer;
use krb_registry::Registry;
use std::alloc::AllocError;

/// Appends a number and its name, or null, each after what precedes it in an object.
#[inline(always)]
pub(crate) fn put_number_and_name(
    object: &mut TextBuffer,
    before_number: &str,
    before_name: &str,
    registry: Registry,
    number: i64,
) -> Result<(), AllocError>
    ensures { OnOk result (object.new ≡ object.old ++ before_number.now ++ signed_decimal number ++ before_name.now ++ name_string registry number) }
{
    object.push_str(before_number)?;
    object.push_signed(number)?;
    object.push_str(before_name)?;
    put_name_string(object, registry, number)
}

/// A number of a registry.
#[derive(Clone, Copy)]
pub struct Numbered {
    /// The registry, which may have a name for the number.
    pub registry: Registry,
    /// The number.
    pub number: i64,
}

impl Shown for Numbered {
    ghost shown = { λ n. Named n.registry n.number };

    #[tactic(auto, unfolding(crate::specs::Forms::value_text))]
    fn put_text(&self, line: &mut TextBuffer, names: bool) -> Result<(), AllocError> {
        put_named(line, names, self.registry, self.number)
    }

    #[inline(always)]
    #[tactic(auto, unfolding(crate::specs::Forms::members, crate::specs::Forms::json_value, crate::specs::Forms::names_member))]
    fn put_members(&self, object: &mut TextBuffer, begin: &str) -> Result<(), AllocError> {
        put_begin(object, begin)?;
        object.push_signed(self.number)?;
        put_name_member(object, begin, self.registry, self.number)
    }

    #[tactic(auto, unfolding(crate::specs::Forms::cell))]
    fn put_cell(&self, text: &mut TextBuffer, path: Path) -> Result<(), AllocError> {
        match path {
            Path::Whole => text.push_signed(self.number),
            Path::Name => put_number_name(text, self.registry, self.number),
            _ => put_no_cell(text),
        }
    }
}

/// What is encrypted: its encryption type, the version of its key, and how many octets it has.
#[derive(Clone, Copy)]
pub struct Encrypted {
    /// The number of the encryption type.
    pub etype: i64,
    /// The version of the key, if it is there.
    pub kvno: Option<i64>,
    /// How many octets the cipher has.
    pub size: u64,
}

/// Appends the version of a key, or `-`, with a `:` before it and one after it.
#[inline(always)]
fn put_kvno(line: &mut TextBuffer, kvno: Option<i64>) -> Result<(), AllocError>
    ensures { OnOk result (line.new ≡ line.old ++ codes ":" ++ or_dash signed_decimal kvno ++ codes ":") }
{
    match kvno {
        None => line.push_str(":-:"),
        Some(kvno) => {
            line.push_sign(":")?;
            line.push_signed(kvno)?;
            line.push_sign(":")
        }
    }
}

/// Appends the cell of the version of a key.
fn put_kvno_cell(text: &mut TextBuffer, kvno: Option<i64>) -> Result<(), AllocError>
    ensures { OnOk result (text.new ≡ text.old ++ or_dash signed_decimal kvno) }
{
    match kvno {
        None => put_no_cell(text),
        Some(kvno) => text.push_signed(kvno),
    }
}

/// Appends the member of the version of a key, or of null.
#[inline(always)]
fn put_kvno_member(object: &mut TextBuffer, kvno: Option<i64>) -> Result<(), AllocError>
    ensures { OnOk result (object.new ≡ object.old ++ codes ",\"kvno\":" ++ or_null signed_decimal kvno) }
{
    match kvno {
        None => object.push_str(",\"kvno\":null"),
        Some(kvno) => {
            object.push_str(",\"kvno\":")?;
            object.push_signed(kvno)
        }
    }
}

/// Appends the number of octets, with which an object ends.
#[inline(always)]
fn put_size_end(object: &mut TextBuffer, size: u64) -> Result<(), AllocError>
    ensures { OnOk result (object.new ≡ object.old ++ codes ",\"size\":" ++ decimal size ++ codes "}") }
{
    object.push_str(",\"size\":")?;
    object.push_number(size)?;
    object.push_str("}")
}

/// Appends what an object has of what is encrypted, up to its size.
#[inline(always)]
fn put_encrypted_start(object: &mut TextBuffer, encrypted: &Encrypted) -> Result<(), AllocError>
    ensures { OnOk result (object.new ≡ object.old ++ codes "{\"etype\":" ++ signed_decimal encrypted.now.etype ++ codes ",\"etype_name\":" ++ name_string EncryptionTypes encrypted.now.etype ++ codes ",\"kvno\":" ++ or_null signed_decimal encrypted.now.kvno) }
{
    let registry = Registry::EncryptionTypes;
    put_number_and_name(
        object,
        "{\"etype\":",
        ",\"etype_name\":",
        registry,
        encrypted.etype,
    )?;
    put_kvno_member(object, encrypted.kvno)
}

/// Appends what an object has of what is encrypted.
#[inline(never)]
fn put_encrypted_object(object: &mut TextBuffer, encrypted: &Encrypted) -> Result<(), AllocError>
    ensures { OnOk result (object.new ≡ object.old ++ encrypted_object encrypted.now.etype encrypted.now.kvno encrypted.now.size) }
{
    put_encrypted_start(object, encrypted)?;
    put_size_end(object, encrypted.size)
}

/// The encryption type, the version of the key or `-`, and the number of octets, with `:` between.
impl Shown for Encrypted {
    ghost shown = { λ s. IsEncrypted s.etype s.kvno s.size };

    #[inline(never)]
    #[tactic(auto, unfolding(crate::specs::Forms::value_text))]
    fn put_text(&self, line: &mut TextBuffer, names: bool) -> Result<(), AllocError> {
        put_named(line, names, Registry::EncryptionTypes, self.etype)?;
        put_kvno(line, self.kvno)?;
        line.push_number(self.size)
    }

    #[inline(always)]
    #[tactic(auto, unfolding(crate::specs::Forms::members, crate::specs::Forms::json_value, crate::specs::Forms::names_member))]
    fn put_members(&self, object: &mut TextBuffer, begin: &str) -> Result<(), AllocError> {
        put_begin(object, begin)?;
        put_encrypted_object(object, self)
    }

    #[tactic(auto, unfolding(crate::specs::Forms::cell))]
    fn put_cell(&self, text: &mut TextBuffer, path: Path) -> Result<(), AllocError> {
        match path {
            Path::Whole => self.put_text(text, true),
            Path::Etype => text.push_signed(self.etype),
            Path::EtypeName => put_number_name(text, Registry::EncryptionTypes, self.etype),
            Path::Kvno => put_kvno_cell(text, self.kvno),
            Path::Size => text.push_number(self.size),
            _ => put_no_cell(text),
        }
    }
}

/// An address: its type and its octets.
#[derive(Clone, Copy)]
pub struct Address<'a> {
    /// The number of the type of the address.
    pub addr_type: i64,
    /// Its octets.
    pub octets: &'a [u8],
}

/// Appends what an object has of an address.
fn put_address_object(object: &mut TextBuffer, address: &Address<'_>) -> Result<(), AllocError>
    ensures { OnOk result (object.new ≡ object.old ++ address_object address.now.addr_type address.now.octets.now) }
{
    let registry = Registry::AddressTypes;
    put_number_and_name(
        object,
        "{\"type\":",
        ",\"type_name\":",
        registry,
        address.addr_type,
    )?;
    object.push_str(",\"hex\":\"")?;
    put_hex(object, address.octets)?;
    object.push_str("\"}")
}

/// The type, `:` and the octets in hexadecimal.
impl<'a> Shown for Address<'a> {
    ghost shown = { λ a. IsAddress a.addr_type a.octets.now };

    #[tactic(auto, unfolding(crate::specs::Forms::value_text))]
    fn put_text(&self, line: &mut TextBuffer, names: bool) -> Result<(), AllocError> {
        put_named(line, names, Registry::AddressTypes, self.addr_type)?;
        line.push_sign(":")?;
        put_hex(line, self.octets)
    }

    #[tactic(auto, unfolding(crate::specs::Forms::members, crate::specs::Forms::json_value, crate::specs::Forms::names_member))]
    fn put_members(&self, object: &mut TextBuffer, begin: &str) -> Result<(), AllocError> {
        put_begin(object, begin)?;
        put_address_object(object, self)
    }

    #[tactic(auto, unfolding(crate::specs::Forms::cell))]
    fn put_cell(&self, text: &mut TextBuffer, path: Path) -> Result<(), AllocError> {
        match path {
            Path::Whole => self.put_text(text, true),
            Path::Type => text.push_signed(self.addr_type),
            Path::TypeName => put_number_name(text, Registry::AddressTypes, self.addr_type),
            Path::Hex => put_hex_cell(text, self.octets),
            _ => put_no_cell(text),
        }
    }
}

/// A checksum: its type, and how many octets it has.
#[derive(Clone, Copy)]
pub struct Digest {
    /// The number of the type of the checksum.
    pub cksumtype: i64,
    /// How many octets it has.
    pub size: u64,
}

/// Appends what an object has of a checksum.
fn put_checksum_object(object: &mut TextBuffer, checksum: &Digest) -> Result<(), AllocError>
    ensures { OnOk result (object.new ≡ object.old ++ digest_object checksum.now.cksumtype checksum.now.size) }
{
    let registry = Registry::ChecksumTypes;
    put_number_and_name(
        object,
        "{\"type\":",
        ",\"type_name\":",
        registry,
        checksum.cksumtype,
    )?;
    put_size_end(object, checksum.size)
}

/// The type, `:` and the number of octets.
impl Shown for Digest {
    ghost shown = { λ d. IsDigest d.cksumtype d.size };

    #[tactic(auto, unfolding(crate::specs::Forms::value_text))]
    fn put_text(&self, line: &mut TextBuffer, names: bool) -> Result<(), AllocError> {
        put_named(line, names, Registry::ChecksumTypes, self.cksumtype)?;
        line.push_sign(":")?;
        line.push_number(self.size)
    }

    #[tactic(auto, unfolding(crate::specs::Forms::members, crate::specs::Forms::json_value, crate::specs::Forms::names_member))]
    fn put_members(&self, object: &mut TextBuffer, begin: &str) -> Result<(), AllocError> {
        put_begin(object, begin)?;
        put_checksum_object(object, self)
    }

    #[tactic(auto, unfolding(crate::specs::Forms::cell))]
    fn put_cell(&self, text: &mut TextBuffer, path: Path) -> Result<(), AllocError> {
        match path {
            Path::Whole => self.put_text(text, true),
            Path::Type => text.push_signed(self.cksumtype),
            Path::TypeName => put_number_name(text, Registry::ChecksumTypes, self.cksumtype),
            Path::Size => text.push_number(self.size),
            _ => put_no_cell(text),
        }
    }
}
