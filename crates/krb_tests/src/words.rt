//! Command lines.

use krb_der::Profile;
use krb_record::FileName;
use krb_words::{
    AfterRefusal, Command, CommandLine, Form, Framing, Inputs, NamedPath, Naming, Source, When,
    WordsFault, read_words,
};
use std::alloc::Global;
use std::test::Fail;

/// Returns the words of a command line, which are given with one blank between them.
fn words(alloc: Global, line: &str) -> Result<Vec<Vec<u8>>, Fail> {
    let mut words = Vec::new(alloc);
    for word in line.split(' ') {
        if !word.is_empty() {
            words.push(Vec::from_slice(alloc, word.as_bytes())?)?;
        }
    }
    Ok(words)
}

/// Returns a short name of the listing of a stream.
fn stream_name(profile: Profile, after: AfterRefusal) -> &'static str {
    match (profile, after) {
        (Profile::Lenient, AfterRefusal::Ends) => "stream",
        (Profile::Strict, AfterRefusal::Ends) => "strict stream",
        (Profile::Lenient, AfterRefusal::GoesOn) => "stream on",
        (Profile::Strict, AfterRefusal::GoesOn) => "strict stream on",
    }
}

/// Returns a short name of a conversion of messages.
fn conversion_name(is_decode: bool, profile: Profile, framing: Framing) -> &'static str {
    match (is_decode, profile, framing) {
        (true, Profile::Lenient, Framing::Framed) => "decode",
        (true, Profile::Strict, Framing::Framed) => "strict decode",
        (true, Profile::Lenient, Framing::Unframed) => "decode one",
        (true, Profile::Strict, Framing::Unframed) => "strict decode one",
        (false, Profile::Lenient, Framing::Framed) => "encode",
        (false, Profile::Strict, Framing::Framed) => "strict encode",
        (false, Profile::Lenient, Framing::Unframed) => "encode one",
        (false, Profile::Strict, Framing::Unframed) => "strict encode one",
    }
}

/// Returns a short name of the listing of captures.
fn capture_name(profile: Profile) -> &'static str {
    match profile {
        Profile::Lenient => "capture",
        Profile::Strict => "strict capture",
    }
}

/// Returns the first line of a text.
fn first_line(text: &str) -> &str {
    text.lines().next().unwrap_or("")
}

/// Returns a short name of the listing of messages.
fn message_name(profile: Profile, inputs: Inputs) -> &'static str {
    match (profile, inputs) {
        (Profile::Lenient, Inputs::Whole) => "message",
        (Profile::Strict, Inputs::Whole) => "strict message",
        (Profile::Lenient, Inputs::EachLine) => "messages",
        (Profile::Strict, Inputs::EachLine) => "strict messages",
    }
}

/// Returns the names of a command with a time, without one and with that of the clock, and the time.
fn timed<'a>(name: &'a str, by_clock: &'a str, when: Option<When>) -> (&'a str, Option<u32>) {
    match when {
        None => (name, None),
        Some(When::Clock) => (by_clock, None),
        Some(When::Seconds(seconds)) => (name, Some(seconds)),
    }
}

/// Returns a short name of a command, and its limit or time, if it has one.
fn named(command: &Command) -> (&str, Option<u32>) {
    match command {
        Command::List(when) => timed("list", "list now", *when),
        Command::Stream(limit, profile, after) => (
            stream_name(*profile, *after),
            Some(limit.get()),
        ),
        Command::Message(profile, inputs) => (message_name(*profile, *inputs), None),
        Command::Items(Profile::Lenient) => ("items", None),
        Command::Items(Profile::Strict) => ("strict items", None),
        Command::Keytab => ("keytab", None),
        Command::Ccache(when) => timed("ccache", "ccache now", *when),
        Command::Capture(limit, profile, _) => (capture_name(*profile), Some(limit.get())),
        Command::Decode(limit, _, _, AfterRefusal::GoesOn, _) => ("decode on", Some(limit.get())),
        Command::Decode(limit, profile, framing, ..) => (
            conversion_name(true, *profile, *framing),
            Some(limit.get()),
        ),
        Command::Encode(limit, profile, framing) => (
            conversion_name(false, *profile, *framing),
            Some(limit.get()),
        ),
        Command::Help(text) => (first_line(text.as_str()), None),
        Command::Version(text) => (first_line(text.as_str()), None),
    }
}

/// Returns the port of a command, if it has one.
fn port_of(command: &Command) -> Option<u16> {
    match command {
        Command::Capture(_, _, port) => Some(*port),
        Command::Decode(_, _, Framing::Framed, _, packets) => Some(packets.port),
        _ => None,
    }
}

/// Returns the number of the one packet of which a command decodes messages, if it is one alone.
fn packet_of(command: &Command) -> Option<u32> {
    match command {
        Command::Decode(.., packets) => packets.number,
        _ => None,
    }
}

/// Returns the name of a path, and the path if it is another.
fn path_name(alloc: Global, kind: &str, path: &NamedPath) -> Result<String, Fail> {
    let name = FileName(path.name.as_slice());
    if path.name.as_slice() == path.path.as_slice() {
        return Ok(format!(in alloc; "{kind}{name}")?);
    }
    let path = FileName(path.path.as_slice());
    Ok(format!(in alloc; "{kind}{name} at {path}")?)
}

/// Returns the name of a source.
fn source_name(alloc: Global, source: &Source) -> Result<String, Fail> {
    match source {
        Source::Input => Ok(String::from_str(alloc, "-")?),
        Source::File(path) => path_name(alloc, "", path),
        Source::Directory(path) => path_name(alloc, "each of ", path),
    }
}

/// Returns what is added for the form of records.
fn form_name(form: Form) -> &'static str {
    match form {
        Form::Lines => "",
        Form::NamedLines => " named",
        Form::Json => " json",
        Form::KeptLines => " kept",
        Form::KeptNamedLines => " kept named",
        Form::KeptJson => " kept json",
        Form::Rows(_) => " rows",
    }
}

/// Returns a short name of a command line.
fn shown_command_line(alloc: Global, command_line: &CommandLine) -> Result<String, Fail> {
    let (name, number) = named(&command_line.command);
    let mut shown = match number {
        Some(number) => format!(in alloc; "{name} {number}")?,
        None => String::from_str(alloc, name)?,
    };
    if let Some(port) = port_of(&command_line.command) {
        let text = format!(in alloc; " {port}")?;
        shown.push_str(text.as_str())?;
    }
    if let Some(packet) = packet_of(&command_line.command) {
        let text = format!(in alloc; " packet {packet}")?;
        shown.push_str(text.as_str())?;
    }
    shown.push_str(form_name(command_line.form))?;
    if command_line.naming == Naming::Each {
        shown.push_str(" labelled")?;
    }
    if let Some(header) = &command_line.header {
        shown.push_str(" ")?;
        shown.push_str(header.as_str())?;
    }
    for source in &command_line.sources {
        shown.push_str(", ")?;
        shown.push_str(source_name(alloc, source)?.as_str())?;
    }
    Ok(shown)
}

/// Returns a short name of what words ask for.
fn shown(alloc: Global, line: &str) -> Result<String, Fail> {
    let words = words(alloc, line)?;
    match read_words(alloc, words.as_slice()) {
        Ok(command_line) => {
            let text = shown_command_line(alloc, &command_line);
            drop(command_line);
            text
        }
        Err(WordsFault::Wrong(text)) => Ok(text),
        Err(WordsFault::Memory) => Ok(String::from_str(alloc, "memory")?),
    }
}

/// Rows of words and what they ask for: the command with its numbers, the form, and the sources.
const ORDERS: &str = "\
list a => list, a
--json - => list json, -
a.keytab => list, a.keytab
strem/ list => list, strem/, list
-- -x list => list, -x, list
--file stream => list, stream
-- keytab => list, keytab
--json keytab => list json, keytab
-H --now now a => list now labelled, a
list --with-filename a => list labelled, a
FILE:a WRFILE:b DIR::c DIR:d => list, FILE:a at a, WRFILE:b at b, DIR::c at c, each of DIR:d at d
keytab FILE:a WRFILE:b DIR:c => keytab, FILE:a at a, WRFILE:b at b, DIR:c
ccache --file DIR:a DIR::FILE:b => ccache, each of DIR:a at a, DIR::FILE:b at FILE:b
stream FILE:a DIR:b => stream 16777216, FILE:a, DIR:b
message --lines -H a => messages labelled, a
message --strict --lines => strict messages, -
ccache --now now => ccache now, -
ccache --now 1970-01-01T00:00:00Z => ccache 0, -
ccache --now 2026-11-22T12:00:00Z => ccache 1795348800, -
ccache --now 2024-02-29T23:59:59Z => ccache 1709251199, -
ccache --now 2106-02-07T06:28:16Z => ccache 4294967295, -
ccache --now 9999-12-31T23:59:59Z => ccache 4294967295, -
list \u{e9}\u{1b}[m\\x41 => list, \\xc3\\xa9\\x1b[m\\x5cx41
help => Lists Kerberos V5 messages, keytabs, credential caches and captures
help stream => Lists framed messages
stream => stream 16777216, -
stream --limit 30 --file a => stream 30, a
stream --limit=5 => stream 5, -
stream --limit +5 => stream 5, -
stream --limit 0000000000005 => stream 5, -
stream --limit 2147483647 => stream 2147483647, -
stream --file=-- => stream 16777216, --
message --file a=b => message, a=b
message --strict => strict message, -
stream --strict --limit 5 => strict stream 5, -
stream --file a --strict => strict stream 16777216, a
stream --keep-going => stream on 16777216, -
stream --strict --keep-going a => strict stream on 16777216, a
stream --names => stream 16777216 named, -
stream --only KRB-ERROR,Ticket => stream 16777216 kept, -
capture --only unanswered --names => capture 16777216 88 kept named, -
--json --only end,end a => list kept json, a
keytab --fields principal,kvno,kind => keytab rows, -
ccache -H --header --fields ticket.refused.why_name,file => ccache rows labelled file\tticket.refused.why_name\tfile, -
message --lines --fields line,PA-ETYPE-INFO2.salt --header => messages rows line\tPA-ETYPE-INFO2.salt, -
list --only entry,AS-REQ --fields kvno,nonce a => list rows, a
message --json --strict => strict message json, -
keytab --names --json a => keytab json, a
ccache --json --names --now 5 => ccache 5 json, -
keytab -- --json => keytab, --json
keytab => keytab, -
ccache => ccache, -
ccache --now 0 => ccache 0, -
ccache --file a --now 4294967295 => ccache 4294967295, a
ccache --now 4294967296 => ccache 4294967295, -
ccache --now 253402300799 => ccache 4294967295, -
capture => capture 16777216 88, -
capture --port 750 a b => capture 16777216 750, a, b
capture --limit 30 --port=65535 --json => capture 30 65535 json, -
capture --names --port +0001 => capture 16777216 1 named, -
capture --strict a => strict capture 16777216 88, a
capture --port 90 --strict --limit=30 => strict capture 30 90, -
decode a b => decode 16777216 88, a, b
decode --strict FILE:a => strict decode 16777216 88, FILE:a at a
decode --keep-going --port 750 --packet 7 => decode on 16777216 750 packet 7, -
decode --packet 4294967295 => decode 16777216 88 packet 4294967295, -
decode --strict --limit 30 --unframed => strict decode one 30, -
encode --unframed --file a => encode one 16777216, a
encode --strict - => strict encode 16777216, -
encode --help => Makes framed messages of JSON
capture -h => Lists the messages in a capture
--help => Lists Kerberos V5 messages, keytabs, credential caches and captures
stream -h => Lists framed messages
--version => krbls 1.0.0
-V => krbls 1.0.0
keytab a => keytab, a
keytab b --file a - c => keytab, a, b, -, c
keytab stream help a a => keytab, stream, help, a, a
message --strict 1 => strict message, 1
stream -- => stream 16777216, -
stream -- -x --file => stream 16777216, -x, --file";

/// Rows of words that are called wrong.
const WRONG: &str = "\
stream --limit 0

stream --limit 2147483648
stream --limit 4294967296
stream --limit -5
stream --limit=-5
stream --limit 1 --limit 1
stream --limit
stream --limit 5a
stream --file --
stream -x
stream --version
ccache --now 253402300800
keytab --now 1
keytab --strict
ccache --strict
stream --strict --strict
stream --keep-going --keep-going
message --keep-going
capture --port 0
capture --port 65536
capture --port -1
capture --port 88 --port 88
capture --strict --strict
capture --keep-going
capture --now 5
stream --port 88
keytab a --now 1
list
--limit 5 stream
keytab --json --json
stream --names=1
strem
help strem
--json
-H
decode -H
stream --lines
ccache --now 1969-12-31T23:59:59Z
ccache --now 2026-02-29T00:00:00Z
ccache --now 2026-11-22T24:00:00Z
ccache --now 2026-11-22T12:00:00
ccache --now 2026-11-22t12:00:00Z
ccache --now 10000-01-01T00:00:00Z
ccache --now NOW
stream --only KRB-EROR
stream --only entry
keytab --only entry,
stream --fields salt
keytab --fields nonce
stream --fields code,ticket.etype
ccache --fields ticket.refused
stream --json --fields kind
stream --header
capture --only unanswered,unreachable
stream --only end --only end
decode --only end
ccache --now -1";

#[test]
fn quotes_words_escaped(rt: HostRuntime) -> Result<(), Fail> {
    let text = shown(rt.alloc(), "stream --\u{1b}[31m\n")?;
    assert!(rt; text.as_str().contains("--\\x1b[31m\\x0a"), "{text}");
    assert!(rt; !text.as_str().contains("\u{1b}"), "{text}");
    Ok(())
}

#[test]
fn reads_words(rt: HostRuntime) -> Result<(), Fail> {
    let alloc = rt.alloc();
    for row in ORDERS.lines() {
        let (line, expected) = row.split_once(" => ").ok_or("a row")?;
        assert_eq!(rt; shown(alloc, line)?.as_str(), expected, "{line}");
    }
    for line in WRONG.lines() {
        assert!(rt;
            shown(alloc, line)?.as_str().starts_with("error: "),
            "{line}"
        );
    }
    Ok(())
}
