//! What may help where a source is refused, and the command for it: by the sources of people, and
//! one for each first octets.

use crate::examples::octets_of;
use krb_input::SourceKind::{Capture, Ccache, Keytab, Message, Stream};
use krb_input::{SourceKind, hint_of, kind_of};
use std::alloc::Global;
use std::test::Fail;

/// Rows of the command that was used, the first octets of the source, the command as it was given or
/// `-`, the name of the source, and what is said, or `-`. They are lines of one text, since the proof
/// of a test over a table takes the longer the more rows there are.
const HINTS: &str = "\
message#2D2D2D2D2D424547494E204345525449#message#-#this is PEM, which holds certificates or keys and no Kerberos
message##message#-#-
message#30303030303030303A20366631642033#message#-#-
message#30303030303030303A20366631203330#message#-#-
message#746B740A#message#-#this may be the primary file of a collection: krbls ccache DIR:DIRECTORY
message#4E65676F746961746562783077473641#message#-#-
message#4E65676F746961746520#message#-#this is a header of HTTP, of which krbls reads the token after Negotiate or Kerberos
message#4E544C4D5353500001000000978208E2#message#-#-
message#4E65676F746961746520594947414267#message#-#-
message#000000#message#-#-
message#61443042A003020105A1081B06412E54#message#-#-
message#30303030303030303A20366631640A36#message#-#-
stream#000000026F80#-#-#-
message#53514C69746520666F726D6174203300#-#-#this is an SQLite database, which krbls does not read
stream#0501#-#-#this is a keytab or credential cache of version 1, which krbls does not read
message#28B52FFD0400#-#-#this is a zstd file: zstdcat - | krbls -
message#425A683931415926535980#-#-#this is a bzip2 file: bzcat - | krbls -
message#4E544C4D5353500001000000978208E2#-#-#-
stream#050100000020#-#-#this is a keytab or credential cache of version 1, which krbls does not read
stream#FD377A585A000004#-#-#this is an xz file: xzcat - | krbls -
stream#7F454C4602010100#-#-#-
keytab#61443042A003020105A1081B06412E54#keytab#-#this may be a message: krbls message -
keytab#0A0D0D0AC00000004D3C2B1A01000000#keytab#-#this is a capture: krbls capture -
keytab#D4C3B2A1020004000000000000000000#keytab#-#this is a capture: krbls capture -
message#53514C69746520666F726D6174203300#message#-#this is an SQLite database, which krbls does not read
message#FD377A585A000004#message#-#this is an xz file: xzcat - | krbls message -
message#7F454C4602010100#message#-#-
message#05020000005B0002000B434F52505553#message#-#this is a keytab: krbls keytab -
message#0501#message#-#this is a keytab or credential cache of version 1, which krbls does not read
stream#474554202F20485454502F312E310D0A#stream#-#this is HTTP; if a header has a token: grep -ai negotiate - | krbls message --lines -
message#1F8B0800000000000003#items#-#this is a gzip file: zcat - | krbls items -
stream#28B52FFD0400#stream#-#this is a zstd file: zstdcat - | krbls stream -
stream#425A683931415926535980#stream#-#this is a bzip2 file: bzcat - | krbls stream -
stream#30303030303030303A20366631642033#stream#-#this is text; if it is a message: krbls message -
stream#4E544C4D5353500001000000978208E2#stream#-#-
stream#050400000000000B0000000200000009#stream#-#this is a credential cache: krbls ccache -
capture#1F8B0800000000000003#capture#-#this is a gzip file: zcat - | krbls capture -
capture#6F1D301BA003020105A10302010FA20F#capture#-#this may be a message: krbls message -
capture#050400000000000B0000000200000009#capture#-#this is a credential cache: krbls ccache -
capture##capture#-#-
capture#050100000020#capture#-#this is a keytab or credential cache of version 1, which krbls does not read
capture#30303030303030303A20366631642033#capture#-#this is text; if it is a message: krbls message -
ccache#746B740A#ccache#-#this may be the primary file of a collection: krbls ccache DIR:DIRECTORY
ccache#53514C69746520666F726D6174203300#ccache#-#this is an SQLite database, which krbls does not read
ccache#5949474342676B71686B694739784942#ccache#-#this is text; if it is a message: krbls message -
ccache##ccache#-#-
stream#485454502F312E3120323030204F4B0D#stream#-#this is HTTP; if a header has a token: grep -ai negotiate - | krbls message --lines -
keytab#05020000005B0002000B434F52505553#keytab#-#-
capture#0A0D0D0AC00000004D3C2B1A01000000#capture#-#-
ccache#0502#ccache#'b c.keytab'#this is a keytab: krbls keytab 'b c.keytab'
ccache#05020000000100000001#ccache#-#this is a keytab, or a cache of version 2, which krbls does not read
keytab#05020000000C00000001#keytab#-#this is a keytab, or a cache of version 2, which krbls does not read
ccache#05020000000D#ccache#-#this is a keytab: krbls keytab -
capture#1F8B0800000000000003#capture#x.gz#this is a gzip file: zcat x.gz | krbls capture -
message#2D2D2D2D2D424547494E20582D2D2D2D#message#-#this is PEM, which holds certificates or keys and no Kerberos
stream#425A6839#-#a b.bz2#this is a bzip2 file: bzcat a b.bz2 | krbls -
capture#A1B2CD34#capture#x.pcap#this is a modified pcap: editcap -F pcap x.pcap - | krbls capture -
stream#34CDB2A1#-#x.pcap#this is a modified pcap: editcap -F pcap x.pcap - | krbls capture -
capture#736E6F6F70000000#capture#-#this is a snoop capture: editcap -F pcap - - | krbls capture -
stream#4D3CB2A1#stream#x#this is a capture: krbls capture x
stream#A1B23C4D#stream#x#this is a capture: krbls capture x
keytab#0503#keytab#x#this is a credential cache: krbls ccache x
message#000001006A81#message#x#this may be a stream: krbls stream x
keytab#00000100A081#keytab#x#this may be a stream: krbls stream x
keytab#000001005F81#keytab#x#-
stream#A181B700#stream#x#this may be a message: krbls message x
stream#746B7420#stream#x#this is text; if it is a message: krbls message x
ccache#746B7420#ccache#x#this is text; if it is a message: krbls message x
ccache#746B74610962#ccache#x#this is text; if it is a message: krbls message x
stream#746B740A#stream#x#this is text; if it is a message: krbls message x
stream#3031323334353637383961626364656680#stream#x#this is text; if it is a message: krbls message x
stream#30313233343536373839616263646580#stream#x#-
stream#6031323334353637383961626364656680#stream#x#this is text; if it is a message: krbls message x
message#4E544C4D20546C524D#message#x#this is a header of HTTP, of which krbls reads the token after Negotiate or Kerberos
stream#4E544C4D20546C524D#stream#x#this is text; if it is a message: krbls message x
message#600C06062B06010502050501#message#x#this is a token of IAKERB, which krbls does not read
stream#60820C0006062B060105020505#stream#x#this is a token of IAKERB, which krbls does not read
stream#040400FFFFFFFFFF#stream#x#this is a MIC token of GSS-API, which has no message of Kerberos in it
stream#040400FFFFFFFF00#stream#x#-
ccache#050407FF0000#ccache#x#this is a Wrap token of GSS-API, which has no message of Kerberos in it
ccache#050408FF0000#ccache#x#-
message#60818506092A864886F7120102020201#message#x#this is a Wrap token of GSS-API, which has no message of Kerberos in it
message#A1073005A0030A0100#message#x#this is a token of SPNEGO with no token of Kerberos in it
message#A1093007A0030A0101A200#message#x#-
message#A0023000#message#x#this is a token of SPNEGO with no token of Kerberos in it";

/// Rows of what sources hold, and their first octets.
const KINDS: &str = "\
stream#000000026F80
ccache#050400000000000B0000000200000009
message#53514C69746520666F726D6174203300
stream#0501
message#28B52FFD0400
message#425A683931415926535980
capture#D4C3B2A1020004000000000000000000
message#4E544C4D5353500001000000978208E2
stream#050100000020
message#5949474342676B71686B694739784942
stream#FD377A585A000004
stream#7F454C4602010100
message#61443042A003020105A1081B06412E54
message#EFBBBF36
message#A0
message#A1
stream#A2
keytab#0502
stream#0501
stream#05
stream#
message#09
stream#1F
stream#7F
capture#4D3CB2A1
stream#EFBB";

/// Returns the kind of source with a name, if there is one.
fn kind_named(name: &str) -> Option<SourceKind> {
    match name {
        "keytab" => Some(Keytab),
        "ccache" => Some(Ccache),
        "capture" => Some(Capture),
        "message" => Some(Message),
        "stream" => Some(Stream),
        _ => None,
    }
}

/// Returns the command that was given, if one was.
fn given_of(word: &str) -> Option<&str> {
    match word {
        "-" => None,
        command => Some(command),
    }
}

/// Returns what is said where a command refuses a source with these first octets.
fn said(
    alloc: Global,
    used: SourceKind,
    octets: &[u8],
    given: Option<&str>,
    file: &str,
) -> Result<String, Fail> {
    match hint_of(used, octets) {
        Some(hint) => Ok(hint.text(alloc, given, file)?),
        None => Ok(format!(in alloc; "-")?),
    }
}

#[test]
fn says_what_sources_are(rt: HostRuntime) -> Result<(), Fail> {
    let alloc = rt.alloc();
    for row in HINTS.lines() {
        let mut fields = row.split('#');
        let used = kind_named(fields.next().ok_or("used")?).ok_or("a command")?;
        let octets = octets_of(alloc, fields.next().ok_or("digits")?)?;
        let given = given_of(fields.next().ok_or("given")?);
        let file = fields.next().ok_or("a name")?;
        let text = said(alloc, used, octets.as_slice(), given, file)?;
        assert_eq!(rt;
            text.as_str(),
            fields.next().ok_or("what is said")?,
            "{row}"
        );
    }
    Ok(())
}

#[test]
fn chooses_commands_by_first_octets(rt: HostRuntime) -> Result<(), Fail> {
    let alloc = rt.alloc();
    for row in KINDS.lines() {
        let (name, digits) = row.split_once('#').ok_or("a row")?;
        let octets = octets_of(alloc, digits)?;
        assert_eq!(rt; kind_of(octets.as_slice()).name(), name, "{row}");
    }
    Ok(())
}
