//! Records in each form. What is expected was worked out by hand from the rules of
//! `docs/LISTING.md`.

use krb_keytab::{Hole, Record};
use krb_list::record_line;
use krb_record::Form;
use std::test::Fail;

/// The three forms.
const FORMS: [Form; 3] = [Form::Lines, Form::NamedLines, Form::Json];

/// What is printed of a hole.
const HOLES: [&str; 3] = [
    "hole size=2147483648 clean=no",
    "hole size=2147483648 clean=no",
    "{\"kind\":\"hole\",\"size\":2147483648,\"clean\":false}",
];

#[test]
fn shows_the_longest_hole(rt: HostRuntime) -> Result<(), Fail> {
    let hole = Record::Hole(Hole::new(2147483648, false).ok_or("a hole")?);
    for (form, expected) in FORMS.into_iter().zip(HOLES) {
        let line = record_line(rt.alloc(), form, &hole)?;
        assert_eq!(rt; line.as_str(), expected);
    }
    Ok(())
}
