//! Keytabs and caches that are read one record after another. What is expected was worked out by
//! hand from the file formats.

use crate::examples::{CACHE, CACHE3, KEYTAB, octets_of};
use crate::fakes::{Asked, Watched};
use krb_ccache::{Credential, Credentials};
use krb_file::{FileFault, Limit};
use krb_keytab::{Next, Record, Records, Stop};
use std::alloc::{AllocError, Global};
use std::io::Read;
use std::test::Fail;

/// How often the next record is asked for.
const CALLS: usize = 4;

/// Returns the name of an answer.
fn name_of(answer: &Next) -> &'static str {
    match answer {
        Next::Item(Record::Entry(_)) => "entry",
        Next::Item(Record::Hole(_)) => "hole",
        Next::Done(Stop::Zero) => "zero",
        Next::Done(Stop::File) => "end",
    }
}

/// Returns the name of an answer.
fn name_of_credential(answer: &Option<Credential>) -> &'static str {
    match answer {
        Some(credential) if credential.is_config() => "config",
        Some(_) => "cred",
        None => "end",
    }
}

/// Appends an answer: its name and how many octets were read until then, or its fault.
fn put_answer(
    text: &mut String,
    answer: Result<&'static str, FileFault>,
    asked: &Asked,
) -> Result<(), AllocError> {
    match answer {
        Ok(name) => write!(text, "{name} {}; ", asked.given.get())?,
        Err(fault) => write!(text, "{fault}; ")?,
    }
    Ok(())
}

/// Appends the answers of a reader of a keytab's records.
fn put_records<R: Read + Drop>(
    alloc: Global,
    text: &mut String,
    records: &mut Records<R>,
    asked: &Asked,
) -> Result<(), AllocError> {
    for _ in 0..CALLS {
        let answer = match records.next_record(alloc) {
            Ok(next) => Ok(name_of(&next)),
            Err(fault) => Err(fault),
        };
        put_answer(text, answer, asked)?;
    }
    Ok(())
}

/// Appends the answers of a reader of a cache's credentials.
fn put_credentials<R: Read + Drop>(
    alloc: Global,
    text: &mut String,
    credentials: &mut Credentials<R>,
    asked: &Asked,
) -> Result<(), AllocError> {
    for _ in 0..CALLS {
        let answer = match credentials.next_credential(alloc) {
            Ok(next) => Ok(name_of_credential(&next)),
            Err(fault) => Err(fault),
        };
        put_answer(text, answer, asked)?;
    }
    Ok(())
}

/// Returns the answers to reading a keytab.
fn keytab<R: Read + Drop>(
    alloc: Global,
    reader: R,
    limit: Limit,
    asked: &Asked,
) -> Result<String, Fail> {
    let mut text = String::new(alloc);
    let mut records = Records::new(reader, limit);
    let outcome = put_records(alloc, &mut text, &mut records, asked);
    drop(records);
    outcome?;
    Ok(text)
}

/// Appends the version of a cache, and how many fields its header has.
fn put_start<R: Read + Drop>(
    text: &mut String,
    credentials: &Credentials<R>,
) -> Result<(), AllocError> {
    let fields = credentials.header().fields.as_slice().len();
    let version = credentials.version();
    let name_type = credentials.principal().name_type;
    write!(
        text,
        "version {version}, {fields} fields, type {name_type}; "
    )?;
    Ok(())
}

/// Returns the answers to reading a cache.
fn ccache<R: Read + Drop>(
    alloc: Global,
    reader: R,
    limit: Limit,
    asked: &Asked,
) -> Result<String, Fail> {
    let mut text = String::new(alloc);
    match Credentials::start(alloc, reader, limit) {
        Ok(mut credentials) => {
            let start = put_start(&mut text, &credentials);
            let started = put_answer(&mut text, Ok("start"), asked);
            let outcome = put_credentials(alloc, &mut text, &mut credentials, asked);
            drop(credentials);
            start?;
            started?;
            outcome?;
        }
        Err(fault) => put_answer(&mut text, Err(fault), asked)?,
    }
    Ok(text)
}

/// Octets in hexadecimal, how many of them are given, whether the reader then fails, the greatest
/// length of a field, and the answers.
struct Row(&'static str, usize, bool, u32, &'static str);

/// Keytabs. Nothing after a record is read before the next record is asked for.
const KEYTABS: [Row; 12] = [
    Row(
        KEYTAB,
        51,
        false,
        4,
        "entry 33; hole 45; zero 49; zero 49; ",
    ),
    Row(
        KEYTAB,
        33,
        true,
        4,
        "entry 33; a read failed; a read failed; a read failed; ",
    ),
    Row(
        KEYTAB,
        45,
        true,
        4,
        "entry 33; hole 45; a read failed; a read failed; ",
    ),
    Row(KEYTAB, 49, true, 4, "entry 33; hole 45; zero 49; zero 49; "),
    // the key
    Row(
        KEYTAB,
        51,
        false,
        1,
        "refused at 27: TooLong; refused at 27: TooLong; refused at 27: TooLong; refused at 27: TooLong; ",
    ),
    // the octets after the key
    Row(
        KEYTAB,
        51,
        false,
        2,
        "refused at 29: TooLong; refused at 29: TooLong; refused at 29: TooLong; refused at 29: TooLong; ",
    ),
    Row(
        KEYTAB,
        51,
        false,
        3,
        "refused at 29: TooLong; refused at 29: TooLong; refused at 29: TooLong; refused at 29: TooLong; ",
    ),
    // the realm
    Row(
        "05020000001B0001000341",
        11,
        false,
        1,
        "refused at 10: TooLong; refused at 10: TooLong; refused at 10: TooLong; refused at 10: TooLong; ",
    ),
    Row(
        "05020000001B0001000341",
        11,
        false,
        3,
        "refused at 10: Truncated; refused at 10: Truncated; refused at 10: Truncated; refused at 10: Truncated; ",
    ),
    Row(
        "0502000000050001000341",
        11,
        false,
        1,
        "refused at 10: Overrun; refused at 10: Overrun; refused at 10: Overrun; refused at 10: Overrun; ",
    ),
    Row("0502", 2, false, 1, "end 2; end 2; end 2; end 2; "),
    Row(
        "0501",
        2,
        false,
        1,
        "refused at 1: Version; refused at 1: Version; refused at 1: Version; refused at 1: Version; ",
    ),
];

/// Caches of version 4 and of version 3. Nothing after a credential is read before the next
/// credential is asked for.
const CCACHES: [Row; 17] = [
    // the value of the header's field has 8 octets, the realm of the first server 12, and its first
    // component 21
    Row(CACHE, 239, false, 7, "refused at 8: TooLong; "),
    Row(CACHE, 239, false, 1, "refused at 8: TooLong; "),
    Row(
        CACHE,
        239,
        false,
        8,
        "version 4, 1 fields, type 1; start 34; refused at 64: TooLong; refused at 64: TooLong; refused at 64: TooLong; refused at 64: TooLong; ",
    ),
    Row(
        CACHE,
        239,
        false,
        12,
        "version 4, 1 fields, type 1; start 34; refused at 80: TooLong; refused at 80: TooLong; refused at 80: TooLong; refused at 80: TooLong; ",
    ),
    Row(
        CACHE,
        239,
        false,
        21,
        "version 4, 1 fields, type 1; start 34; config 156; cred 239; end 239; end 239; ",
    ),
    Row(
        CACHE,
        239,
        false,
        2147483647,
        "version 4, 1 fields, type 1; start 34; config 156; cred 239; end 239; end 239; ",
    ),
    Row(
        CACHE,
        34,
        true,
        21,
        "version 4, 1 fields, type 1; start 34; a read failed; a read failed; a read failed; a read failed; ",
    ),
    Row(
        CACHE,
        156,
        true,
        21,
        "version 4, 1 fields, type 1; start 34; config 156; a read failed; a read failed; a read failed; ",
    ),
    Row(
        CACHE,
        239,
        true,
        21,
        "version 4, 1 fields, type 1; start 34; config 156; cred 239; a read failed; a read failed; ",
    ),
    // the key, after both encryption types
    Row(
        CACHE3,
        105,
        false,
        1,
        "version 3, 0 fields, type 1; start 20; refused at 64: TooLong; refused at 64: TooLong; refused at 64: TooLong; refused at 64: TooLong; ",
    ),
    Row(
        CACHE3,
        105,
        false,
        2,
        "version 3, 0 fields, type 1; start 20; cred 105; end 105; end 105; end 105; ",
    ),
    Row(
        CACHE3,
        20,
        true,
        21,
        "version 3, 0 fields, type 1; start 20; a read failed; a read failed; a read failed; a read failed; ",
    ),
    Row(
        CACHE3,
        105,
        true,
        21,
        "version 3, 0 fields, type 1; start 20; cred 105; a read failed; a read failed; a read failed; ",
    ),
    // the header
    Row("05040003000100", 7, false, 1, "refused at 6: Overrun; "),
    Row("0502", 2, false, 1, "refused at 1: Version; "),
    Row("0503", 2, false, 1, "refused at 2: Truncated; "),
    Row("05", 1, true, 1, "a read failed; "),
];

/// Returns whether a row's answers come from a reader of at most that many octets at once.
fn is_answered(alloc: Global, row: &Row, is_keytab: bool, at_most: usize) -> Result<bool, Fail> {
    let Row(digits, count, fails, most, wanted) = row;
    let octets = octets_of(alloc, digits)?;
    let limit = Limit::new(*most).ok_or("a limit")?;
    let asked = Asked::new();
    let reader = Watched {
        octets: octets.as_slice().get(..*count).ok_or("a front")?,
        at_most,
        fails: *fails,
        is_over: false,
        asked: &asked,
    };
    let answers = if is_keytab {
        keytab(alloc, reader, limit, &asked)?
    } else {
        ccache(alloc, reader, limit, &asked)?
    };
    Ok(answers.as_str() == *wanted)
}

#[test]
fn gives_records_one_after_another(rt: HostRuntime) -> Result<(), Fail> {
    for at_most in [1, 2, 7, 64, 1000] {
        for row in &KEYTABS {
            assert!(rt; is_answered(rt.alloc(), row, true, at_most)?, "{}", row.4);
        }
        for row in &CCACHES {
            assert!(rt; is_answered(rt.alloc(), row, false, at_most)?, "{}", row.4);
        }
    }
    Ok(())
}
