//! Messages as lines and objects.

ghost use Rattle.std.specs.Prelude.{◌≡◌, ◌++◌, IfOk, OnOk, string_bytes};
ghost use Rattle.krb_text.specs.Messages.{message_line, message_text};

use krb_codec::encode;
use krb_der::{Memory, Profile};
use krb_msg::Message;
use krb_record::{Form, TextBuffer};
use krb_text::put_message_text;
use std::alloc::Global;

/// Appends a message without its line feed, by its DER octets.
fn put_text_of(text: &mut TextBuffer, form: Form, message: &Message) -> Result<(), Memory>
    ensures { OnOk result (text.new ≡ text.old ++ message_text form message.now) }
{
    let Ok(octets) = encode(text.allocator(), message) else {
        return Err(Memory);
    };
    if put_message_text(text, form, Profile::Lenient, octets.as_slice())? {
        Ok(())
    } else {
        unreachable!()
    }
}

/// Appends a message as a line or an object with its line feed. It allocates the DER octets,
/// too, and answers `Memory` if these are more than a message may have, 2147483647.
#[tactic(auto, unfolding(krb_text::specs::Messages::message_line))]
pub fn put_message(text: &mut TextBuffer, form: Form, message: &Message) -> Result<(), Memory>
    ensures { OnOk result (text.new ≡ text.old ++ message_line form message.now) }
{
    put_text_of(text, form, message)?;
    text.push_sign("\n")?;
    Ok(())
}

/// Returns a message as a line or an object, without a line feed: its name, its fields and its
/// notes. It allocates as [`put_message`] does.
pub fn message_line(alloc: Global, form: Form, message: &Message) -> Result<String, Memory>
    ensures { IfOk result (λ text. string_bytes text ≡ message_text form message.now) }
{
    let mut text = TextBuffer::new(alloc);
    put_text_of(&mut text, form, message)?;
    Ok(text.into_string())
}
