//! Octets that are judged, and viewed where they stand.

use crate::examples::{AS_REQ, TICKET, contents, octets_of};
use krb_der::{Profile, Refusal, Verdict, Why};
use krb_judge::{judge_in, read_method_data, read_ticket};
use krb_msg::{PaData, next_item};
use std::test::Fail;

/// Returns whether octets are read, borrowed, as a Ticket for h of the realm A, or the refusal if
/// they are not a Ticket.
fn read_for_h(octets: &[u8]) -> Result<bool, Refusal> {
    let ticket = read_ticket(octets)?;
    Ok(
        ticket.sname.name.octets == b"\x1B\x01h".as_slice()
            && ticket.realm == b"A".as_slice()
            && ticket.enc_part.etype == 18
            && ticket.enc_part.kvno.is_none()
            && ticket.enc_part.cipher == b"\xBE\xEF".as_slice(),
    )
}

#[test]
fn reads_a_ticket_where_it_stands(rt: HostRuntime) -> Result<(), Fail> {
    let octets = octets_of(rt.alloc(), TICKET)?;
    assert_eq!(rt; read_for_h(octets.as_slice()), Ok(true));
    let (place, why) = (1, Why::Indefinite);
    assert_eq!(rt; read_for_h(b"\x61\x80"), Err(Refusal { place, why }));
    Ok(())
}

/// Returns the type of the first PA-DATA of octets that are read as METHOD-DATA, or the refusal if
/// they are none.
fn first_type(octets: &[u8]) -> Result<Option<i64>, Refusal> {
    let list = read_method_data(octets)?;
    match next_item::<PaData>(list) {
        Some((first, _)) => Ok(Some(first.padata_type)),
        None => Ok(None),
    }
}

#[test]
fn reads_method_data_where_it_stands(rt: HostRuntime) {
    assert_eq!(rt;
        first_type(b"\x30\x0B\x30\x09\xA1\x03\x02\x01\x02\xA2\x02\x04\x00"),
        Ok(Some(2))
    );
    assert_eq!(rt; first_type(b"\x30\x00"), Ok(None));
    let (place, why) = (0, Why::Tag);
    assert_eq!(rt; first_type(b"\x31\x00"), Err(Refusal { place, why }));
}

#[test]
fn judges_by_the_strict_profile(rt: HostRuntime) -> Result<(), Fail> {
    let octets = contents(rt.alloc(), AS_REQ)?;
    let front = octets.as_slice().get(..22).ok_or("22 octets")?;
    let (place, why) = (21, Why::Size);
    let refused = Verdict::Refused(Refusal { place, why });
    assert_eq!(rt; judge_in(Profile::Strict, 60, front), refused);
    assert_eq!(rt; judge_in(Profile::Lenient, 60, front), Verdict::Open);
    Ok(())
}
