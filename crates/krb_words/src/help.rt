//! What help says of the commands.

/// What help says of a command: first what it does, then how it is called, and last, below its
/// options, what it reads and prints.
pub(crate) struct CommandHelp {
    pub(crate) about: &'static str,
    pub(crate) usage: &'static str,
    pub(crate) below: &'static str,
}

pub(crate) const KRBLS_HELP: CommandHelp = CommandHelp {
    about: "Lists Kerberos V5 messages, keytabs, credential caches and captures",
    usage: "krbls [OPTIONS] FILE...
       krbls COMMAND [OPTIONS] [FILE]...
       krbls help [COMMAND]",
    below: "\
Reads files or the standard input, and prints a line for each message, record or
credential. The last line says that all was read, or what was refused, at which
octet and why. If there are several files, a line `file name=FILE` comes before
the lines of each. With --json lines are JSON objects. No octet of what krbls
reads as a key or a cipher is shown.

Without a command each file is listed as its first octets say. If it is of
another kind than the command, the standard error says which command reads it.

`decode` writes whole messages as JSON, and `encode` makes the same messages of
it again; what they refuse is on the standard error. So `decode` prints ciphers,
which can be attacked, but nothing that is not encrypted, and so no key either.

Exit status, the greatest of those of all files:
  0  all was read
  1  something was refused, or of a capture lost or unread
  2  the command line is wrong
  3  a read, a write or an allocation failed

Examples:
  krbls --names kdc.pcap /etc/krb5.keytab /tmp/krb5cc_1000
  krbls message ticket.kirbi",
};

pub(crate) const LIST_HELP: CommandHelp = CommandHelp {
    about: "Lists each file as its first octets say; needs no name",
    usage: "krbls [list] [OPTIONS] FILE...",
    below: "\
Lists each file by the command that its first octets call for, with that
command's defaults:
  05 02                               keytab
  05 03, 05 04                        ccache
  a pcap or a pcapng                  capture
  A0, A1, or the first octet of text  message
  else                                stream

A name may have `FILE:` or `WRFILE:` before it. `DIR::PATH` is the cache PATH,
and `DIR:PATH` each cache of the directory PATH. A file of such a name, or one
of letters alone, is given as `./NAME`.

Examples:
  krbls --names kdc.pcap /etc/krb5.keytab
  krbls --now now DIR:/run/user/1000/krb5cc",
};

pub(crate) const STREAM_HELP: CommandHelp = CommandHelp {
    about: "Lists framed messages",
    usage: "krbls stream [OPTIONS] [FILE]...",
    below: "\
Reads frames, as one direction of a TCP connection to a KDC has them: four
octets of length, the highest first, and a message. Prints a line for each
message, and then `end messages=N` or `refused messages=N place=P why=REASON`;
P is an octet of the refused frame, from 0; its first four are the length. With
--keep-going a refusal is a line of its own, and `end messages=N refused=M` is
the last one.

A message has a note if it has an octet above 7F in a string (1), fewer than 32
flags (2), a negative kvno, nonce or seq-number (3), or an empty list that may
be left out (4).

Example:
  krbls stream --keep-going --names kdc.stream",
};

pub(crate) const MESSAGE_HELP: CommandHelp = CommandHelp {
    about: "Lists a message, a Ticket or a token, as octets or text",
    usage: "krbls message [OPTIONS] [FILE]...",
    below: "\
Reads one message, Ticket, or GSS-API or SPNEGO token, as octets or as text. A
message may have its four octets of length before it. The text is hexadecimal,
also as C, Python and Wireshark write it, a dump with offsets (xxd, hexdump -C,
od -tx1), base64, or an HTTP header with `Negotiate`.

Prints the message's line, after `via=` and what it was in. Or it prints
`refused place=P why=REASON`, or `refused WORD` if it is no text of octets; WORD
is `hex`, `dump`, `base64`, `length` (more than 16777216 octets) or `ntlm`.

With --lines each line of the input is read by itself, its record has `line=N`
before it, and `end messages=N refused=M` is the last line.

A message has a note if it has an octet above 7F in a string (1), fewer than 32
flags (2), a negative kvno, nonce or seq-number (3), or an empty list that may
be left out (4).

Examples:
  krbls message ticket.kirbi
  krbls message --lines payloads.txt",
};

pub(crate) const ITEMS_HELP: CommandHelp = CommandHelp {
    about: "Shows where each field of a message is in its octets",
    usage: "krbls items [OPTIONS] [FILE]...",
    below: "\
Reads one message, Ticket or token, as `krbls message` does. Prints a line for
each item of its octets, in order: the place of its first octet (`at`), in how
many items it is (`depth`), its identifier and length octets (`heads`), where
its contents begin and how many octets they are, and after `item` its path, its
type and its value. The layers of a token are items, too, and what an OCTET
STRING of padata in the clear holds follows it.

The last line is `end items=N`, or the refusal of `krbls message`. Before a
refusal come the items up to there, and `fault`: the item at fault, with the
octets before it. If the first length is at fault, `believed` and the items of
that length follow.

Examples:
  krbls items --names ticket.kirbi
  krbls items reply | grep name=AS-REP.ticket",
};

pub(crate) const KEYTAB_HELP: CommandHelp = CommandHelp {
    about: "Lists a keytab",
    usage: "krbls keytab [OPTIONS] [FILE]...",
    below: "\
Reads a keytab of format 0x0502. Prints a line for each entry and each hole, and
then `end records=N zero=no` (`zero=yes` if a length of 0 ends it), or
`refused place=P why=REASON` after the lines of what comes before the fault.

A name may have `FILE:` or `WRFILE:` before it.

Example:
  krbls keytab --names /etc/krb5.keytab",
};

pub(crate) const CCACHE_HELP: CommandHelp = CommandHelp {
    about: "Lists a credential cache",
    usage: "krbls ccache [OPTIONS] [FILE]...",
    below: "\
Reads a cache of version 3 or 4. Prints a line for the cache and one for each
credential or configuration entry, and then `end credentials=N`, or
`refused place=P why=REASON` after the lines of what comes before the fault.

A name may have `FILE:` or `WRFILE:` before it. `DIR::PATH` is the cache PATH,
and `DIR:PATH` each cache of the directory PATH: the regular files whose names
begin with `tkt`.

Examples:
  krbls ccache --now now /tmp/krb5cc_1000
  krbls ccache --now 2026-11-22T12:00:00Z DIR:/run/user/1000/krb5cc",
};

pub(crate) const CAPTURE_HELP: CommandHelp = CommandHelp {
    about: "Lists the messages in a capture",
    usage: "krbls capture [OPTIONS] [FILE]...",
    below: "\
Reads a pcap or a pcapng, as tcpdump, dumpcap and Wireshark write them, from a
file or a pipe. Lists the messages that UDP and TCP carry from or to the port,
and those of port 464, by which passwords are changed. Prints a line for each,
as `krbls stream` does, with `packet=N t=TIME flow=SOURCE>TARGET` before it: the
packet that completes it, its time, and who sent it to whom. There are such
lines also for what is refused, for octets that were not captured, and for those
that no message has (`unread`). The last line is
`end packets=N messages=N refused=N lost=N unread=N`. If the file itself is
damaged, the last line is `refused .. place=P why=REASON`.

Examples:
  krbls capture --names kdc.pcap
  tcpdump --immediate-mode -U -w - \\
    'port 88 or port 464 or (ip[6:2] & 0x1fff != 0)' | krbls capture",
};

pub(crate) const DECODE_HELP: CommandHelp = CommandHelp {
    about: "Writes messages as JSON",
    usage: "krbls decode [OPTIONS] [FILE]...",
    below: "\
Reads frames as `krbls stream` does, or, if the first octets of a file say so, a
capture as `krbls capture` does, one message, Ticket or token as `krbls message`
does, or a credential cache, for its tickets. Writes a line for each: a JSON
object of one member, with the names of RFC 4120, appendix A. Octets are in
hexadecimal. `krbls encode` makes the same frames of messages again. Names are
those of `krbls FILE`.

A refusal ends a stream, unless --keep-going is given: the standard error says
at which octet of the frame it is, why and in which field. So does anything that
is not encrypted (encryption type 0): it could be a key. A capture goes on. What
is encrypted is printed; treat it as a secret, since weak passwords can be
guessed from it. Of a .kirbi file that is not encrypted the tickets are printed
all the same. With --strict a message that has a note is refused, too: `krbls
help stream` says which have one.

Examples:
  krbls decode kdc.stream > kdc.jsonl
  krbls decode --packet 7 trace.pcap
  krbls decode ticket.kirbi",
};

pub(crate) const ENCODE_HELP: CommandHelp = CommandHelp {
    about: "Makes framed messages of JSON",
    usage: "krbls encode [OPTIONS] [FILE]...",
    below: "\
Reads a JSON object in each line, as `krbls decode` writes them, and writes the
frame of each message; with --unframed one message or Ticket alone. Lines of
blanks are passed over.

A line that is at fault ends a file: the standard error has its number, the path
of a field and what is wrong with that. So does a line that has more octets than
8 times the limit and 65536. With --strict so does a line of a message that has
a note: `krbls help stream` says which have one.

Example:
  krbls encode kdc.jsonl > kdc.stream",
};
