//! Labels of records, and readers that were begun.

use crate::fakes::{Asked, Watched};
use krb_record::{Form, Label, TextBuffer};
use krb_run::Begun;
use std::io::{ErrorKind, Read};
use std::test::Fail;

#[test]
fn records_have_the_label(rt: HostRuntime) -> Result<(), Fail> {
    let alloc = rt.alloc();
    for (form, records, labelled) in [
        (
            Form::Lines,
            ["AP-REP enc=18:-:4 notes=[]\n", "end messages=1\n"],
            "file=a\\x20b AP-REP enc=18:-:4 notes=[]\nfile=a\\x20b end messages=1\n",
        ),
        (
            Form::Json,
            ["{\"kind\":\"refused\",\"at\":0}\n", "{\"kind\":\"end\"}\n"],
            "{\"kind\":\"refused\",\"at\":0,\"file\":\"a b\"}\n{\"kind\":\"end\",\"file\":\"a b\"}\n",
        ),
    ] {
        let label = Label::of_file(alloc, form, b"a b")?;
        let mut lines = TextBuffer::new(alloc);
        for record in records {
            label.begin(&mut lines)?;
            lines.push_str(record)?;
            label.end(&mut lines)?;
        }
        assert_eq!(rt; lines.octets(), labelled.as_bytes());
    }
    Ok(())
}

#[test]
fn a_reader_that_was_begun_gives_all(rt: HostRuntime) -> Result<(), Fail> {
    let alloc = rt.alloc();
    let octets = b"0123456789abcdefghijklmnop".as_slice();
    for count in 0..=octets.len() {
        for at_most in 1..=octets.len() {
            let asked = Asked::new();
            let watched = Watched {
                octets: &octets[..count],
                at_most,
                fails: false,
                is_over: false,
                asked: &asked,
            };
            let mut begun = Begun::begin(alloc, watched, 16)?;
            assert_eq!(rt; begun.first(), &octets[..count.min(16)]);
            let mut all = Vec::new(alloc);
            begun.read_to_end(&mut all)?;
            assert_eq!(rt; all.as_slice(), &octets[..count]);
        }
    }
    Ok(())
}

#[test]
fn a_read_that_failed_fails_when_it_is_come_to(rt: HostRuntime) -> Result<(), Fail> {
    let asked = Asked::new();
    let watched = Watched {
        octets: b"abc",
        at_most: 2,
        fails: true,
        is_over: false,
        asked: &asked,
    };
    let mut begun = Begun::begin(rt.alloc(), watched, 16)?;
    assert_eq!(rt; begun.first(), b"abc".as_slice());
    let mut buffer = [0; 8];
    assert_eq!(rt; begun.read(&mut buffer)?, 3);
    match begun.read(&mut buffer) {
        Ok(_) => assert!(rt; false),
        Err(error) => assert!(rt; error.kind() == ErrorKind::Interrupted),
    }
    Ok(())
}
