//! What may help where a source is refused at once.

ghost use Rattle.std.specs.Prelude.{◌≡◌, ◌++◌, take, IfOk, string_bytes};
ghost use Rattle.krb_input.specs.Hints.{begins_message as is_tag_of_message, converted_text, given_command as command_given, guessed as guess, guessed_message as guess_of_message, hint_for, hint_text, holds_caches as may_hold_caches, http_text, is_frame as begins_as_frame, is_primary as names_a_cache, is_version_two as begins_as_version_two, leads_back, leads_to as command_of, packed_text, signed_or_old, unless_used as unless_it_was_used};
ghost use Rattle.std.specs.Option.{option_copied, option_or};
ghost use Rattle.krb_input.specs.Sources.{file_kind};

use crate::octets::{first_no_text, is_tag};
use crate::signature::signed;
use crate::source_kind::SourceKind;
use crate::token_hint::{named_token, refused_by};
use std::alloc::{AllocError, Global};

/// What a source is or may be, by its first octets.
#[derive(Clone, Copy, PartialEq, Eq, Debug)]
pub enum Hint {
    /// What gzip wrote.
    Gzip,
    /// What xz wrote.
    Xz,
    /// What zstd wrote.
    Zstd,
    /// What bzip2 wrote.
    Bzip2,
    /// A keytab.
    Keytab,
    /// A keytab whose first length no entry has, or a credential cache of version 2.
    VersionTwo,
    /// A credential cache.
    Ccache,
    /// A keytab or a credential cache of version 1.
    VersionOne,
    /// A capture: pcap or pcapng.
    Capture,
    /// A capture in a modified pcap.
    ModifiedPcap,
    /// A capture of snoop.
    Snoop,
    /// PEM.
    Pem,
    /// An SQLite database.
    Sqlite,
    /// A token of IAKERB.
    Iakerb,
    /// A token of GSS-API with a checksum of a message (RFC 4121, 4.2.6.1).
    MicToken,
    /// A token of GSS-API with a message that it protects (RFC 4121, 4.2.6.2).
    WrapToken,
    /// A token of SPNEGO that has no token of a mechanism.
    Negotiation,
    /// A header of HTTP, which may have no token of Kerberos.
    Header,
    /// The primary file of a collection of credential caches.
    Primary,
    /// HTTP, of which a header may have a token.
    Http,
    /// A stream of frames.
    Stream,
    /// A message, a Ticket or a token.
    Message,
    /// A text, which may spell a message.
    Text,
}

/// Returns what may help where a command refused a source at once, by the source's first octets. It
/// looks at no more than 16. There is no hint to the command itself.
pub fn hint_of(used: SourceKind, first: &[u8]) -> Option<Hint>
    ensures { result ≡ hint_for used first.now }
{
    let first = front(first);
    let known = named_token(first).or(unless_used(used, looked_up(used, first)));
    known.or(refused_by(used, first))
}

/// Returns the first 16 octets, or all if there are fewer.
fn front(first: &[u8]) -> &[u8]
    ensures { result.now ≡ take 16 first.now }
{
    let end = first.len().min(16);
    &first[..end]
}

/// Returns what octets are by their signature, or else may be.
fn looked_up(used: SourceKind, first: &[u8]) -> Option<Hint>
    ensures { result ≡ option_or (signed_or_old first.now) (guess used first.now) }
{
    signed_or_old(first).or(guessed(used, first))
}

/// Returns what octets are by their signature. A cache of version 2 has that of a keytab, and then the
/// type of a name, which is less than the length of any entry.
#[tactic(auto, unfolding(crate::specs::Hints::signed_or_old))]
fn signed_or_old(first: &[u8]) -> Option<Hint>
    ensures { result ≡ signed_or_old first.now }
{
    if is_version_two(first) {
        Some(Hint::VersionTwo)
    } else {
        signed(first)
    }
}

/// Returns whether octets begin as a credential cache of version 2: with its signature and the type
/// of the name of its default principal.
fn is_version_two(first: &[u8]) -> bool
    ensures { result ≡ begins_as_version_two first.now }
{
    match first {
        [0x05, 0x02, 0x00, 0x00, 0x00, name_type, ..] => *name_type <= 12,
        _ => false,
    }
}

/// Returns a hint, unless it is to the command that was used.
fn unless_used(used: SourceKind, hint: Option<Hint>) -> Option<Hint>
    ensures { result ≡ unless_it_was_used used hint }
{
    match hint {
        Some(hint) if leads_back_to(used, hint) => None,
        _ => hint,
    }
}

/// Returns what octets without a signature may be.
fn guessed(used: SourceKind, first: &[u8]) -> Option<Hint>
    ensures { result ≡ guess used first.now }
{
    if holds_caches(used) && is_primary(first) {
        Some(Hint::Primary)
    } else if is_frame(first) {
        Some(Hint::Stream)
    } else {
        guessed_message(first)
    }
}

/// Returns what octets are that begin as a message or are text.
fn guessed_message(first: &[u8]) -> Option<Hint>
    ensures { result ≡ guess_of_message first.now }
{
    let [tag, ..] = first else {
        return None;
    };
    if first_no_text(first).is_none() {
        Some(Hint::Text)
    } else if begins_message(*tag) {
        Some(Hint::Message)
    } else {
        None
    }
}

/// Returns whether a command reads the files of a collection of credential caches, or may be tried
/// on them.
fn holds_caches(used: SourceKind) -> bool
    ensures { result ≡ may_hold_caches used }
{
    matches!(used, SourceKind::Ccache | SourceKind::Message)
}

/// Returns whether octets may be those of the primary file of a collection of credential caches,
/// which is the name of one of them.
fn is_primary(first: &[u8]) -> bool
    ensures { result ≡ names_a_cache first.now }
{
    first.starts_with(b"tkt") && !first.contains(&b' ') && !first.contains(&b'\t')
}

/// Returns whether octets begin as a frame of a message.
fn is_frame(first: &[u8]) -> bool
    ensures { result ≡ begins_as_frame first.now }
{
    match first {
        [0x00, _, _, _, tag, ..] => begins_message(*tag),
        _ => false,
    }
}

/// Returns whether a message, a Ticket or a token begins with this tag.
fn begins_message(tag: u8) -> bool
    ensures { result ≡ is_tag_of_message tag }
{
    is_tag(tag) || tag == 0xA0 || tag == 0xA1
}

/// Returns whether a hint is to the command that was used.
fn leads_back_to(used: SourceKind, hint: Hint) -> bool
    ensures { result ≡ leads_back used (command_of hint) }
{
    match hint.leads_to() {
        Some(kind) => used == kind,
        None => false,
    }
}

impl Hint {
    /// Returns the kind of a file that has a signature of its own, and is listed.
    pub(crate) fn file(self) -> Option<SourceKind>
        ensures { result ≡ file_kind self }
    {
        match self {
            Hint::Keytab => Some(SourceKind::Keytab),
            Hint::Ccache => Some(SourceKind::Ccache),
            Hint::Capture => Some(SourceKind::Capture),
            _ => None,
        }
    }

    /// Returns the command that the hint ends in, over the same file.
    fn leads_to(self) -> Option<SourceKind>
        ensures { result ≡ command_of self }
    {
        match self {
            Hint::Keytab => Some(SourceKind::Keytab),
            Hint::Ccache => Some(SourceKind::Ccache),
            Hint::Capture => Some(SourceKind::Capture),
            Hint::Stream => Some(SourceKind::Stream),
            Hint::Message | Hint::Text => Some(SourceKind::Message),
            _ => None,
        }
    }

    /// Returns what it says of a file, whose name is written as a user has to write it: what it is,
    /// and the command for it. That for a packed file ends in the command that was given, if one
    /// was.
    pub fn text(self, alloc: Global, given: Option<&str>, file: &str) -> Result<String, AllocError>
        ensures { IfOk result (λ text. string_bytes text ≡ hint_text self (option_copied given.entry) file.now) }
    {
        match self {
            Hint::Gzip => packed(alloc, "this is a gzip file: zcat ", given, file),
            Hint::Xz => packed(alloc, "this is an xz file: xzcat ", given, file),
            Hint::Zstd => packed(alloc, "this is a zstd file: zstdcat ", given, file),
            Hint::Bzip2 => packed(alloc, "this is a bzip2 file: bzcat ", given, file),
            Hint::Keytab => before(alloc, "this is a keytab: krbls keytab ", file),
            Hint::VersionTwo => alone(
                alloc,
                "this is a keytab, or a cache of version 2, which krbls does not read",
            ),
            Hint::Ccache => before(alloc, "this is a credential cache: krbls ccache ", file),
            Hint::VersionOne => alone(
                alloc,
                "this is a keytab or credential cache of version 1, which krbls does not read",
            ),
            Hint::Capture => before(alloc, "this is a capture: krbls capture ", file),
            Hint::ModifiedPcap => converted(alloc, "this is a modified pcap", file),
            Hint::Snoop => converted(alloc, "this is a snoop capture", file),
            Hint::Pem => alone(
                alloc,
                "this is PEM, which holds certificates or keys and no Kerberos",
            ),
            Hint::Sqlite => alone(
                alloc,
                "this is an SQLite database, which krbls does not read",
            ),
            Hint::Iakerb => alone(
                alloc,
                "this is a token of IAKERB, which krbls does not read",
            ),
            Hint::MicToken => alone(
                alloc,
                "this is a MIC token of GSS-API, which has no message of Kerberos in it",
            ),
            Hint::WrapToken => alone(
                alloc,
                "this is a Wrap token of GSS-API, which has no message of Kerberos in it",
            ),
            Hint::Negotiation => alone(
                alloc,
                "this is a token of SPNEGO with no token of Kerberos in it",
            ),
            Hint::Header => alone(
                alloc,
                "this is a header of HTTP, of which krbls reads the token after Negotiate or Kerberos",
            ),
            Hint::Primary => alone(
                alloc,
                "this may be the primary file of a collection: krbls ccache DIR:DIRECTORY",
            ),
            Hint::Http => searched(alloc, file),
            Hint::Stream => before(alloc, "this may be a stream: krbls stream ", file),
            Hint::Message => before(alloc, "this may be a message: krbls message ", file),
            Hint::Text => before(
                alloc,
                "this is text; if it is a message: krbls message ",
                file,
            ),
        }
    }
}

/// Returns words alone.
fn alone(alloc: Global, words: &str) -> Result<String, AllocError>
    ensures { IfOk result (λ text. string_bytes text ≡ words.now) }
{
    let mut text = String::new(alloc);
    text.push_str(words)?;
    Ok(text)
}

/// Returns words before the name of a file.
fn before(alloc: Global, words: &str, file: &str) -> Result<String, AllocError>
    ensures { IfOk result (λ text. string_bytes text ≡ words.now ++ file.now) }
{
    let mut text = String::new(alloc);
    text.push_str(words)?;
    text.push_str(file)?;
    Ok(text)
}

/// Returns what is said of a packed file, whose contents the command that was given reads, if one
/// was.
fn packed(alloc: Global, words: &str, given: Option<&str>, file: &str) -> Result<String, AllocError>
    ensures { IfOk result (λ text. string_bytes text ≡ packed_text words.now (command_given (option_copied given.entry)) file.now) }
{
    let mut text = before(alloc, words, file)?;
    text.push_str(" | krbls ")?;
    if let Some(command) = given {
        text.push_str(command)?;
        text.push_str(" ")?;
    }
    text.push_str("-")?;
    Ok(text)
}

/// Returns what is said of HTTP, of whose headers those with a token are read.
fn searched(alloc: Global, file: &str) -> Result<String, AllocError>
    ensures { IfOk result (λ text. string_bytes text ≡ http_text file.now) }
{
    let mut text = String::new(alloc);
    text.push_str("this is HTTP; if a header has a token: grep -ai negotiate ")?;
    text.push_str(file)?;
    text.push_str(" | krbls message --lines -")?;
    Ok(text)
}

/// Returns what is said of a capture that editcap converts.
fn converted(alloc: Global, words: &str, file: &str) -> Result<String, AllocError>
    ensures { IfOk result (λ text. string_bytes text ≡ converted_text words.now file.now) }
{
    let mut text = String::new(alloc);
    text.push_str(words)?;
    text.push_str(": editcap -F pcap ")?;
    text.push_str(file)?;
    text.push_str(" - | krbls capture -")?;
    Ok(text)
}
