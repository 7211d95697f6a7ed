//! What is decoded of a source: the lines that are written, and those that are said.

ghost use Rattle.std.specs.Prelude.{◌≡◌, ◌^◌, ◌<◌, ◌++◌, [], length, OnErr, OnOk};
ghost use Rattle.std.specs.Io.KnownBytes.{Appends};
ghost use Rattle.krb_msg.specs.Grammar.{ticket};
ghost use Rattle.krb_msg.specs.Term.{Fits, Value, der};
ghost use Rattle.krb_msg.specs.Views.{message_der, IsInProfile};
ghost use Rattle.krb_msg.specs.declared.message.Message.{Message};
ghost use Rattle.krb_json.specs.Lines.{line_of};
ghost use Rattle.krb_run.specs.Records.{AppendsPrefix};
ghost use Rattle.krb_decode.specs.Caches.{absent_field};
ghost use Rattle.krb_decode.specs.Decoded.{decoded_message, not_encrypted, printed, said, ticket_line};
ghost use Rattle.krb_decode.specs.inner.Adding.{Adds};

use krb_der::{Memory, Profile};
use krb_json::{put_text, put_ticket_text, unencrypted_path};
use krb_record::TextBuffer;
use krb_run::{RunFault, write_all};
use std::alloc::Global;
use std::io::Write;
use std::mem;

/// What is decoded of a source.
#[derive(Drop)]
pub(crate) struct Parts {
    pub(crate) alloc: Global,
    /// The lines of messages.
    pub(crate) lines: Vec<u8>,
    /// What is said of what is left out, each in a line.
    pub(crate) said: TextBuffer,
}

impl Parts {
    /// Returns nothing.
    pub(crate) fn new(alloc: Global) -> Parts
        ensures lines { result.lines.items ≡ [] }
        ensures said { result.said ≡ [] }
    {
        Parts {
            alloc,
            lines: Vec::new(alloc),
            said: TextBuffer::new(alloc),
        }
    }

    /// Adds the line of the Ticket whose DER octets are.
    pub(crate) fn put_ticket(&mut self, octets: &[u8]) -> Result<(), Memory>
        requires { length octets.now < 2 ^ 31 }
        ensures { OnOk result ((value : Value ticket) → Fits ticket value → der ticket value ≡ octets.now → Adds (printed (ticket_line value)) self.old self.new) }
    {
        let lines = mem::replace(&mut self.lines, Vec::new(self.alloc));
        self.lines = put_ticket_text(self.alloc, lines, octets)?;
        self.lines.push(b'\n')?;
        Ok(())
    }

    /// Adds that what has a path, after an origin, is not encrypted.
    pub(crate) fn put_unencrypted(&mut self, origin: &str, path: &str) -> Result<(), Memory>
        ensures { OnOk result (Adds (said (not_encrypted origin.now path.now)) self.old self.new) }
    {
        self.said.push_str(origin)?;
        self.said.push_str(path)?;
        self.said.push_str(": not encrypted, and so not printed\n")?;
        Ok(())
    }

    /// Adds that what has an origin is absent.
    pub(crate) fn put_absent(&mut self, origin: &str) -> Result<(), Memory>
        ensures { OnOk result (Adds (said (absent_field origin.now)) self.old self.new) }
    {
        self.said.push_str(origin)?;
        self.said.push_str("absent\n")?;
        Ok(())
    }

    /// Writes the lines, and forgets them.
    pub(crate) fn write_lines<W: Write>(&mut self, writer: &mut W) -> Result<(), RunFault>
        ensures all { OnOk result (Appends (W.contents writer.old) (W.contents writer.new) self.old.lines.items) }
        ensures none_kept { OnOk result (self.new.lines.items ≡ []) }
        ensures prefix { OnErr result (AppendsPrefix (W.contents writer.old) (W.contents writer.new) self.old.lines.items) }
        ensures same_said { self.new.said ≡ self.old.said }
    {
        write_all(writer, self.lines.as_slice())?;
        self.lines.clear();
        Ok(())
    }

    /// Adds the line of the message whose DER octets are, or, after an origin, that it has something
    /// that is not encrypted.
    pub(crate) fn put_message(&mut self, origin: &str, octets: &[u8]) -> Result<(), Memory>
        requires { length octets.now < 2 ^ 31 }
        ensures { OnOk result ((m : Message) → IsInProfile Profile.Lenient m → message_der m ≡ octets.now → Adds (decoded_message origin.now m) self.old self.new) }
    {
        match unencrypted_path(self.alloc, octets)? {
            Some(path) => self.put_unencrypted(origin, path.as_str()),
            None => self.put_line(octets),
        }
    }

    /// Adds the line of the message whose DER octets are.
    fn put_line(&mut self, octets: &[u8]) -> Result<(), Memory>
        requires { length octets.now < 2 ^ 31 }
        ensures { OnOk result ((m : Message) → IsInProfile Profile.Lenient m → message_der m ≡ octets.now → Adds (printed (line_of m)) self.old self.new) }
    {
        let lines = mem::replace(&mut self.lines, Vec::new(self.alloc));
        self.lines = put_text(self.alloc, lines, octets)?;
        self.lines.push(b'\n')?;
        Ok(())
    }
}
