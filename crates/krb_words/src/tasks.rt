//! What a command says to do.

ghost use Rattle.std.specs.Prelude.{◌≡◌};
ghost use Rattle.std.specs.Option.{option_copied, option_map};
ghost use Rattle.krb_words.specs.Tasks.{is_conversion, kind_used, listing_for, name_used, octets_awaited, said_unopened, text_of, when_of, writes_messages};

use crate::cache_types::other_cache;
use crate::names::is_command;
use crate::when::When;
use crate::words::{AfterRefusal, Command, Framing, Inputs, USUAL_PORT};
use krb_der::{Limit, Profile};
use krb_input::SourceKind;

/// What is said of a file of a command's name that cannot be opened.
const COMMAND_FIRST: &str = "a command comes before options: krbls COMMAND [OPTIONS] [FILE]...";

impl Command {
    /// Returns the command that lists a source of a kind, without options but a time.
    pub fn listing(kind: SourceKind, when: Option<When>) -> Command
        ensures { result ≡ listing_for kind when }
    {
        match kind {
            SourceKind::Keytab => Command::Keytab,
            SourceKind::Ccache => Command::Ccache(when),
            SourceKind::Capture => Command::Capture(Limit::DEFAULT, Profile::Lenient, USUAL_PORT),
            SourceKind::Message => Command::Message(Profile::Lenient, Inputs::Whole),
            SourceKind::Stream => {
                Command::Stream(Limit::DEFAULT, Profile::Lenient, AfterRefusal::Ends)
            }
        }
    }

    /// Returns the text that is all that the command prints, if it is a help or the version.
    pub fn text(&self) -> Option<&str>
        ensures { option_map (λ text. text.now) result ≡ text_of self.now }
    {
        match self {
            Command::Help(text) | Command::Version(text) => Some(text.as_str()),
            _ => None,
        }
    }

    /// Returns whether the command turns sources into another form.
    pub fn is_conversion(&self) -> bool
        ensures { result ≡ is_conversion self.now }
    {
        matches!(self, Command::Decode(..) | Command::Encode(..))
    }

    /// Returns whether the command writes messages as they are, and not text.
    pub fn writes_messages(&self) -> bool
        ensures { result ≡ writes_messages self.now }
    {
        matches!(self, Command::Encode(..))
    }

    /// Returns what is said of a name that the command was given and that cannot be opened, if it is
    /// that of a command, which comes before options, or of a credential cache that is no file.
    pub fn said_unopened(&self, name: &[u8]) -> Option<&'static str>
        ensures { option_map (λ text. text.now) result ≡ said_unopened self.now name.now }
    {
        match self {
            Command::List(_) if is_command(name) => Some(COMMAND_FIRST),
            Command::List(_) | Command::Ccache(_) | Command::Decode(_, _, Framing::Framed, ..) => {
                other_cache(name)
            }
            _ => None,
        }
    }

    /// Returns the kind of the sources that the command lists. `None` if it finds that out, or does
    /// not list.
    pub fn kind(&self) -> Option<SourceKind>
        ensures { result ≡ kind_used self.now }
    {
        match self {
            Command::Keytab => Some(SourceKind::Keytab),
            Command::Ccache(_) => Some(SourceKind::Ccache),
            Command::Capture(..) => Some(SourceKind::Capture),
            Command::Message(..) | Command::Items(_) => Some(SourceKind::Message),
            Command::Stream(..) => Some(SourceKind::Stream),
            _ => None,
        }
    }

    /// Returns the name of the command, if hints give it again.
    pub fn name(&self) -> Option<&'static str>
        ensures { option_copied result ≡ name_used self.now }
    {
        match self {
            Command::Items(_) => Some("items"),
            Command::Decode(..) => Some("decode"),
            _ => match self.kind() {
                Some(kind) => Some(kind.name()),
                None => None,
            },
        }
    }

    /// Returns the time that the command compares credentials with, if there is one.
    pub fn when(&self) -> Option<When>
        ensures { result ≡ when_of self.now }
    {
        match self {
            Command::List(when) | Command::Ccache(when) => *when,
            _ => None,
        }
    }

    /// Returns how many octets of a source are awaited before it is listed: those by which the
    /// command of the source or a hint is chosen, whatever the pieces are in which they come. No
    /// frame of a message is as short, so a live stream is still listed as it comes. Nothing is
    /// chosen for `encode`, nor for one message without its length.
    pub fn octets_awaited(&self) -> usize
        ensures { result ≡ octets_awaited self.now }
    {
        match self {
            Command::Decode(_, _, Framing::Unframed, ..) | Command::Encode(..) => 1,
            _ => 16,
        }
    }
}
