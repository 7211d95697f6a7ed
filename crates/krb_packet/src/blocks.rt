//! The blocks of a pcapng, one after another.

ghost use Rattle.std.specs.Prelude.{◌≡◌, ◌++◌, ◌^◌, ◌<◌, ◌≤◌, [], ◌∷◌, IfOk, OnOk};
ghost use Rattle.krb_file.specs.FieldReaders.{Follows, Stays, Keeps};
ghost use Rattle.krb_packet.specs.Blocks.{fault_from, place_of, skipped_body, read_body, body_in, block_in, after_content, block_after, next_block};

use crate::block::{BlockKind, Head, Section, body_octets, length_again, next_kind, read_head};
use crate::body::{Content, body_content};
use crate::format::{Format, Next};
use crate::interface::Interface;
use krb_der::Many;
use krb_file::{FieldName, FieldReader, FileFault, FilePart, FileRefusal, in_part};
use std::alloc::{AllocError, Global};

/// Skips the rest of a body.
fn skip_body<F: FieldReader>(head: Head, reader: &mut F) -> Result<Content, FileFault>
    ensures read { Follows (λ content. content) result (skipped_body head) F.MayFail (F.cursor reader.old) (F.cursor reader.new) }
    ensures keeps { Keeps (F.cursor reader.old) (F.cursor reader.new) }
{
    reader.skip_field(FieldName::Body, u64::from(head.left))?;
    Ok(Content::Other)
}

/// Returns a fault whose place is counted from another one.
fn fault_from(begin: u64, fault: FileFault) -> FileFault
    requires begins { begin < 2 ^ 63 }
    requires near { place_of fault < 2 ^ 63 }
    ensures { result ≡ fault_from begin fault }
{
    match fault {
        FileFault::Refused(refusal) => FileFault::Refused(FileRefusal {
            place: begin + refusal.place,
            ..refusal
        }),
        fault => fault,
    }
}

/// Reads the rest of a body, which begins at `place`.
fn read_body<F: FieldReader>(
    alloc: Global,
    kind: BlockKind,
    section: &Section,
    count: u64,
    place: u64,
    head: Head,
    reader: &mut F,
) -> Result<Content, FileFault>
    requires { count < 2 ^ 63 }
    ensures read { Follows (λ content. content) result (read_body kind section.now count place head) F.MayFail (F.cursor reader.old) (F.cursor reader.new) }
    ensures keeps { Keeps (F.cursor reader.old) (F.cursor reader.new) }
{
    let begin = reader.place();
    let octets = body_octets(alloc, place, head.left, reader)?;
    match body_content(
        alloc,
        kind,
        head.order,
        count,
        section.interfaces.as_slice(),
        octets.as_slice(),
    ) {
        Ok(content) => Ok(content),
        Err(fault) => Err(fault_from(begin, fault)),
    }
}

/// Reads the rest of a body, which begins at `place`, or skips it.
fn body<F: FieldReader>(
    alloc: Global,
    kind: BlockKind,
    section: &Section,
    count: u64,
    place: u64,
    head: Head,
    reader: &mut F,
) -> Result<Content, FileFault>
    requires { count < 2 ^ 63 }
    ensures read { Follows (λ content. content) result (body_in kind section.now count place head) F.MayFail (F.cursor reader.old) (F.cursor reader.new) }
    ensures keeps { Keeps (F.cursor reader.old) (F.cursor reader.new) }
{
    match kind {
        BlockKind::Other => skip_body(head, reader),
        _ => read_body(alloc, kind, section, count, place, head, reader),
    }
}

/// Reads a block of a kind, after its type.
fn block<F: FieldReader>(
    alloc: Global,
    kind: BlockKind,
    section: &Section,
    count: u64,
    reader: &mut F,
) -> Result<Content, FileFault>
    requires { count < 2 ^ 63 }
    ensures read { Follows (λ content. content) result (block_in kind section.now count) F.MayFail (F.cursor reader.old) (F.cursor reader.new) }
    ensures keeps { Keeps (F.cursor reader.old) (F.cursor reader.new) }
{
    let place = reader.place() + 4;
    let head = read_head(kind, section.order, reader)?;
    let content = body(alloc, kind, section, count, place, head, reader)?;
    length_again(head, reader)?;
    Ok(content)
}

/// Returns interfaces and one more.
fn with_interface(
    interfaces: Many<Interface>,
    interface: Interface,
) -> Result<Many<Interface>, AllocError>
    ensures { IfOk result (λ all. all ≡ interfaces ++ interface ∷ []) }
{
    let mut interfaces = interfaces.into_vec();
    interfaces.push(interface)?;
    Ok(Many::new(interfaces))
}

/// Returns no interfaces, in the vector of some.
fn no_interfaces(interfaces: Many<Interface>) -> Many<Interface>
    ensures { result ≡ [] }
{
    let mut interfaces = interfaces.into_vec();
    interfaces.clear();
    Many::new(interfaces)
}

/// Returns the progress in a file after a block of this content.
fn after_content(section: Section, content: Content) -> Result<Next, AllocError>
    requires { section.blocks < 2 ^ 63 }
    ensures { IfOk result (λ next. next ≡ after_content section content) }
{
    let Section {
        order,
        interfaces,
        blocks,
    } = section;
    let blocks = blocks + 1;
    match content {
        Content::Section(order) => Ok(Next::NoPacket(Format::Pcapng(Section {
            order,
            interfaces: no_interfaces(interfaces),
            blocks,
        }))),
        Content::Interface(interface) => Ok(Next::NoPacket(Format::Pcapng(Section {
            order,
            interfaces: with_interface(interfaces, interface)?,
            blocks,
        }))),
        Content::Packet(packet) => {
            let section = Section {
                order,
                interfaces,
                blocks,
            };
            Ok(Next::Packet(packet, Format::Pcapng(section)))
        }
        Content::Other => Ok(Next::NoPacket(Format::Pcapng(Section {
            order,
            interfaces,
            blocks,
        }))),
    }
}

/// The number of octets of the type of a block.
const TYPE_OCTETS: u64 = 4;

/// Reads a block of a kind, after its type, and returns the progress in the file after it.
pub(crate) fn block_after<F: FieldReader>(
    alloc: Global,
    kind: BlockKind,
    section: Section,
    count: u64,
    reader: &mut F,
) -> Result<Next, FileFault>
    requires packets { count < 2 ^ 63 }
    requires blocks { section.blocks < 2 ^ 63 }
    ensures read { Follows (λ next. next) result (block_after kind section count) F.MayFail (F.cursor reader.old) (F.cursor reader.new) }
    ensures keeps { Keeps (F.cursor reader.old) (F.cursor reader.new) }
{
    let begin = reader.place().saturating_sub(TYPE_OCTETS);
    match block(alloc, kind, &section, count, reader) {
        Ok(content) => Ok(after_content(section, content)?),
        Err(fault) => in_part(FilePart::Block(section.blocks), begin, Err(fault)),
    }
}

/// Reads the next block, if the file has not ended.
pub(crate) fn next_block<F: FieldReader>(
    alloc: Global,
    section: Section,
    count: u64,
    reader: &mut F,
) -> Result<Next, FileFault>
    requires packets { count < 2 ^ 63 }
    requires blocks { section.blocks < 2 ^ 63 }
    ensures read { Follows (λ next. next) result (next_block section count) F.MayFail (F.cursor reader.old) (F.cursor reader.new) }
    ensures stays { OnOk result (Stays (F.cursor reader.old) (F.cursor reader.new)) }
    ensures on { (F.cursor reader.old).place ≤ (F.cursor reader.new).place }
{
    let begin = reader.place();
    match next_kind(section.order, reader) {
        Ok(Some(kind)) => block_after(alloc, kind, section, count, reader),
        Ok(None) => Ok(Next::End),
        Err(fault) => in_part(FilePart::Block(section.blocks), begin, Err(fault)),
    }
}
