//! Inputs: text that other programs write, the vectors of RFC 4648 and places of faults.

use krb_input::{InputFault, Misspelling, Spelled, read_input, read_line};
use std::alloc::Global;
use std::test::Fail;

/// Inputs, and what they spell: a form and octets, or the form that was refused and the place.
const INPUTS: [(&str, &str); 34] = [
    // RFC 4648, section 10.
    ("Negotiate ", "base64 "),
    ("Negotiate Zg==", "base64 66"),
    ("Negotiate Zm8=", "base64 666f"),
    ("Negotiate Zm9v", "base64 666f6f"),
    ("Negotiate Zm9vYg==", "base64 666f6f62"),
    ("Negotiate Zm9vYmE=", "base64 666f6f6261"),
    ("Negotiate Zm9vYmFy", "base64 666f6f626172"),
    // xxd -l 18, od -tx1 and hexdump -C of an AP-REP.
    (
        "00000000: 6f1d 301b a003 0201 05a1 0302 010f a20f  o.0.............\n00000010: 300d                                     0.\n",
        "dump 6f1d301ba003020105a10302010fa20f300d",
    ),
    (
        "0000000 6f 1d 30 1b a0 03 02 01 05 a1 03 02 01 0f a2 0f\n0000020 30 0d\n0000022\n",
        "dump 6f1d301ba003020105a10302010fa20f300d",
    ),
    (
        "00000000  6f 1d 30 1b a0 03 02 01  05 a1 03 02 01 0f a2 0f  |o.0.............|\n00000010  30 0d                                             |0.|\n00000012\n",
        "dump 6f1d301ba003020105a10302010fa20f300d",
    ),
    // Words of od -x, a line that is missing, and a second dump.
    ("0000000 1d6f 1b30\n0000004\n", "refused dump 8"),
    ("0000 6f\n0002 1d\n", "refused dump 8"),
    ("0000 6f\n0000 6f\n", "refused dump 8"),
    ("0000 6f\n0001\n\n0001\n", "refused dump 14"),
    ("0000 6f\n*\n", "refused dump 8"),
    ("0000 6f 1d3 0\n", "refused dump 8"),
    ("0000: 6f1 d\n", "refused dump 6"),
    // Hexadecimal.
    ("6F 1d\r\n", "hex 6f1d"),
    ("6f1", "refused hex 3"),
    ("6f1g", "refused hex 3"),
    ("['0x6f', '0x1']", "hex 6f01"),
    ("6f:1:d0", "refused hex 3"),
    ("char a[] = {0x6f, /* o */ 0x1d};", "hex 6f1d"),
    ("{0x6f", "refused hex 5"),
    ("{0x6f /* o }", "refused hex 6"),
    ("\"\\x6f\" \\\n\"\\x1d\"", "hex 6f1d"),
    ("\\x6f\\x1", "refused hex 4"),
    // Base64.
    ("bx0wGw==", "base64 6f1d301b"),
    ("bx0w\nGw", "base64 6f1d301b"),
    ("bx0wGw=", "refused base64 7"),
    ("bx0wGw==A", "refused base64 8"),
    ("bx0wGx==", "refused base64 5"),
    ("< WWW-Authenticate: negotiate bx0w\r\n", "base64 6f1d30"),
    ("hello, world", "refused hex 0"),
];

/// Returns what a reader made of an input, as a text.
fn shown(alloc: Global, read: Result<Spelled, InputFault>) -> Result<String, Fail> {
    match read {
        Ok(spelled) => {
            let digits = hex::encode(alloc, spelled.octets.as_slice())?;
            Ok(format!(in alloc; "{} {digits}", spelled.form.name())?)
        }
        Err(InputFault::Misspelled(Misspelling { form, place })) => {
            Ok(format!(in alloc; "refused {} {place}", form.name())?)
        }
        Err(InputFault::Memory) => Ok(String::from_str(alloc, "memory")?),
    }
}

#[test]
fn inputs_are_spelled(rt: HostRuntime) -> Result<(), Fail> {
    for (input, wanted) in INPUTS {
        let text = shown(rt.alloc(), read_input(rt.alloc(), input.as_bytes()))?;
        assert_eq!(rt; text.as_str(), wanted);
    }
    Ok(())
}

#[test]
fn octets_are_themselves(rt: HostRuntime) -> Result<(), Fail> {
    let text = shown(rt.alloc(), read_input(rt.alloc(), b"\x6f\x1d\xa0"))?;
    assert_eq!(rt; text.as_str(), "octets 6f1da0");
    let text = shown(rt.alloc(), read_input(rt.alloc(), b"SQLite\x00"))?;
    assert_eq!(rt; text.as_str(), "refused hex 6");
    let text = shown(rt.alloc(), read_input(rt.alloc(), b"\xef\xbb\xbf6f1"))?;
    assert_eq!(rt; text.as_str(), "refused hex 6");
    Ok(())
}

#[test]
fn lines_are_no_dumps(rt: HostRuntime) -> Result<(), Fail> {
    let text = shown(rt.alloc(), read_line(rt.alloc(), b"0000 6f 1d"))?;
    assert_eq!(rt; text.as_str(), "hex 00006f1d");
    let text = shown(rt.alloc(), read_line(rt.alloc(), b"\x6f\xa0"))?;
    assert_eq!(rt; text.as_str(), "refused hex 1");
    Ok(())
}
