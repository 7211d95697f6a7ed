//! Streams that are fed in pieces of all sizes. What is expected was worked out by hand from the
//! rules of `docs/FORMATS.md`; the frames of messages were made by hand from RFC 4120, appendix A.

use crate::examples::{
    AP_REP, AP_REQ, AS_REP, AS_REQ, KRB_CRED, KRB_ERROR, KRB_ERROR_OF_CLIENT, KRB_PRIV, KRB_SAFE,
    TGS_REP, TGS_REQ, TWO_AP_REPS, octets_of,
};
use krb_codec::{EncodeFault, encode, size};
use krb_der::{Refusal, Why};
use krb_frame::{Decoder, Fed, Framed, Limit, Status};
use krb_msg::{Kind, Message};
use krb_values::{frame, message_in};
use std::alloc::Global;
use std::test::Fail;

const WRONG_VERSION: &str =
    "0000001F6F1D301BA003020104A10302010FA20F300DA003020112A2060404DEADBEEF";

/// What a decoder answers at last.
enum Answer {
    More,
    Ready,
    Refused(u32, Why),
}

impl Answer {
    /// Returns the answer, and what `finish` returns if the stream ends after this many octets.
    fn after(&self, used: usize) -> (Status, Option<Refusal>) {
        match self {
            Answer::More if used == 0 => (Status::More, None),
            Answer::More => {
                let place = u32::try_from(used).unwrap_or(u32::MAX);
                let why = Why::Truncated;
                (Status::More, Some(Refusal { place, why }))
            }
            Answer::Ready => (Status::Ready, None),
            Answer::Refused(place, why) => {
                let (place, why) = (*place, *why);
                let refusal = Refusal { place, why };
                (Status::Refused(refusal), Some(refusal))
            }
        }
    }
}

/// Octets in hexadecimal, the limit, how many octets are used, the answer, how many octets are
/// kept, and how many lengths are open.
struct Row(&'static str, u32, usize, Answer, u32, usize);

const USUAL: u32 = 16777216;

const GREATEST: u32 = 2147483647;

const ROWS: [Row; 43] = [
    Row("", USUAL, 0, Answer::More, 0, 0),
    Row("00", USUAL, 1, Answer::More, 0, 0),
    Row("000000", USUAL, 3, Answer::More, 0, 0),
    Row("0000001F", USUAL, 4, Answer::More, 0, 0),
    Row("0000001F6F", USUAL, 5, Answer::More, 1, 0),
    Row(AP_REP, USUAL, 35, Answer::Ready, 31, 0),
    Row(AP_REP, 31, 35, Answer::Ready, 31, 0),
    Row(AP_REP, 30, 4, Answer::Refused(3, Why::TooLong), 0, 0),
    Row(TWO_AP_REPS, USUAL, 35, Answer::Ready, 31, 0),
    Row(AP_REQ, USUAL, 89, Answer::Ready, 85, 0),
    Row(AS_REP, USUAL, 101, Answer::Ready, 97, 0),
    Row(TGS_REP, USUAL, 101, Answer::Ready, 97, 0),
    Row(TGS_REQ, USUAL, 113, Answer::Ready, 109, 0),
    Row(KRB_SAFE, USUAL, 65, Answer::Ready, 61, 0),
    Row(KRB_PRIV, USUAL, 33, Answer::Ready, 29, 0),
    Row(KRB_CRED, USUAL, 82, Answer::Ready, 78, 0),
    Row(KRB_ERROR, USUAL, 85, Answer::Ready, 81, 0),
    Row(AS_REQ, USUAL, 64, Answer::Ready, 60, 0),
    Row("80000005", USUAL, 4, Answer::Refused(3, Why::HighBit), 0, 0),
    Row(
        "80000005",
        GREATEST,
        4,
        Answer::Refused(3, Why::HighBit),
        0,
        0,
    ),
    Row("00000000", USUAL, 4, Answer::Refused(3, Why::Empty), 0, 0),
    Row("7FFFFFFF6F", GREATEST, 5, Answer::More, 1, 0),
    Row(
        WRONG_VERSION,
        USUAL,
        13,
        Answer::Refused(12, Why::Range),
        9,
        4,
    ),
    Row(
        "0000001F6F80",
        USUAL,
        6,
        Answer::Refused(5, Why::Indefinite),
        2,
        0,
    ),
    Row(
        "0000001F6F85",
        USUAL,
        6,
        Answer::Refused(5, Why::LengthWide),
        2,
        0,
    ),
    Row(
        "000000016F",
        USUAL,
        5,
        Answer::Refused(4, Why::Overrun),
        1,
        0,
    ),
    Row(
        "000000026F81",
        USUAL,
        6,
        Answer::Refused(5, Why::Overrun),
        2,
        0,
    ),
    Row(
        "0000001F6F1E",
        USUAL,
        6,
        Answer::Refused(5, Why::Overrun),
        2,
        0,
    ),
    Row(
        "0000001F6F1C",
        USUAL,
        6,
        Answer::Refused(5, Why::Loose),
        2,
        0,
    ),
    Row(
        "000000206F811D",
        USUAL,
        7,
        Answer::Refused(6, Why::LengthNotMinimal),
        3,
        0,
    ),
    Row("0000001F30", USUAL, 5, Answer::Refused(4, Why::Tag), 1, 0),
    Row("0000001F76", USUAL, 5, Answer::More, 1, 0),
    Row(
        "0000001D751B3019A003020105A103020115A20D300BA003020112A2040402BEEF",
        USUAL,
        19,
        Answer::Refused(18, Why::Tag),
        15,
        2,
    ),
    Row(
        "0000000E6F0C300AA003020105A10302010F",
        USUAL,
        18,
        Answer::Refused(17, Why::Missing),
        14,
        4,
    ),
    Row(
        "0000000E6F0C300AA003020105A10302010E",
        USUAL,
        18,
        Answer::Refused(17, Why::Range),
        14,
        4,
    ),
    Row(
        "000000026F00",
        USUAL,
        6,
        Answer::Refused(5, Why::Missing),
        2,
        0,
    ),
    Row(
        "000000206F1E301CA003020105A10302010FA210300EA00402020012",
        USUAL,
        28,
        Answer::Refused(27, Why::IntegerNotMinimal),
        24,
        6,
    ),
    Row(
        "0000001F6F1D301BA0040202",
        USUAL,
        12,
        Answer::Refused(11, Why::Size),
        8,
        3,
    ),
    // no octet after the refused one is used
    Row(
        "0000001F6F1D301BA003020105A10302010FA20F300DA004020200120105A10302010F",
        USUAL,
        28,
        Answer::Refused(27, Why::IntegerNotMinimal),
        24,
        6,
    ),
    Row(
        "0000001F6F1D301BA10105A10302010F",
        USUAL,
        9,
        Answer::Refused(8, Why::Tag),
        5,
        2,
    ),
    Row(
        "0000001F6F1D301BA00302020105A10302010F",
        USUAL,
        12,
        Answer::Refused(11, Why::Overrun),
        8,
        3,
    ),
    Row(
        "0000001F6F1D301BA00402010105A10302010F",
        USUAL,
        12,
        Answer::Refused(11, Why::Loose),
        8,
        3,
    ),
    Row(
        "0000001F6F1D30811B0105A10302010F",
        USUAL,
        9,
        Answer::Refused(8, Why::LengthNotMinimal),
        5,
        1,
    ),
];

/// Feeds octets in pieces of `at_most` until the answer is not `More`, and returns how many were
/// used in all.
fn feed_pieces(decoder: &mut Decoder, octets: &[u8], at_most: usize) -> Fed {
    let mut rest = octets;
    let mut used = 0usize;
    for _ in 0..=octets.len() {
        let (piece, _) = rest.split_at(at_most.min(rest.len()));
        let fed = decoder.feed(piece);
        used = used.saturating_add(fed.used);
        rest = &rest[fed.used..];
        if fed.status != Status::More || rest.is_empty() {
            return Fed {
                used,
                status: fed.status,
            };
        }
    }
    Fed {
        used,
        status: Status::More,
    }
}

/// Returns whether a decoder is between frames: nothing is kept or ready.
fn is_between(decoder: &mut Decoder) -> bool {
    (decoder.kept(), decoder.looked(), decoder.open_lengths()) == (0, 0, 0) && !decoder.next()
}

/// Returns whether a decoder answers what a row says, answers it again for each further piece, of
/// which it uses none, and after a frame goes on to the next.
fn came_to(decoder: &mut Decoder, fed: Fed, row: &Row, octets: &[u8]) -> bool {
    let Row(_, _, used, answer, kept, open) = row;
    let (status, end) = answer.after(*used);
    let is_ready = status == Status::Ready;
    let again = decoder.feed(if status == Status::More {
        b""
    } else {
        b"\0\0\0"
    });
    let found = (
        decoder.kept(),
        decoder.looked() as usize,
        decoder.open_lengths(),
    );
    let used = *used;
    fed == Fed { used, status }
        && again == Fed { used: 0, status }
        && found == (*kept, used, *open)
        && decoder.ready().is_some() == is_ready
        && decoder.finish().err() == end
        && decoder.next() == is_ready
        && (!is_ready || is_between(decoder) && decoder.feed(octets) == fed)
}

/// Returns whether a decoder that is fed in pieces of `at_most` octets answers what a row says.
fn comes_to(alloc: Global, row: &Row, octets: &[u8], at_most: usize) -> bool {
    let Row(_, limit, _, _, _, _) = row;
    let Some(limit) = Limit::new(*limit) else {
        return false;
    };
    let mut decoder = Decoder::new(alloc, limit);
    let fed = feed_pieces(&mut decoder, octets, at_most);
    came_to(&mut decoder, fed, row, octets)
}

#[test]
fn decodes_in_pieces_of_every_size(rt: HostRuntime) -> Result<(), Fail> {
    let alloc = rt.alloc();
    for row in &ROWS {
        let Row(digits, _, _, _, _, _) = row;
        let octets = octets_of(alloc, digits)?;
        for at_most in 1..=octets.len().max(1) {
            assert!(rt;
                comes_to(alloc, row, octets.as_slice(), at_most),
                "{digits} by {at_most}"
            );
        }
    }
    Ok(())
}

/// Returns how many lengths are open after octets, and after one more.
fn open_lengths(alloc: Global, octets: &[u8], next: &[u8]) -> (usize, usize) {
    let mut decoder = Decoder::new(alloc, Limit::DEFAULT);
    let _ = decoder.feed(octets);
    let open = decoder.open_lengths();
    let _ = decoder.feed(next);
    (open, decoder.open_lengths())
}

/// A frame, how many lengths are open after some of its octets, and how many after the next octet.
const OPEN_LENGTHS: [(&str, usize, usize, usize); 6] = [
    (AP_REP, 12, 4, 2),
    (AP_REP, 34, 6, 0),
    // no message has more
    (TGS_REQ, 97, 13, 8),
    (TGS_REQ, 112, 12, 0),
    (KRB_CRED, 51, 11, 6),
    (KRB_CRED, 81, 6, 0),
];

#[test]
fn says_how_many_lengths_are_open(rt: HostRuntime) -> Result<(), Fail> {
    for (digits, count, open, next) in OPEN_LENGTHS {
        let octets = octets_of(rt.alloc(), digits)?;
        let (front, rest) = octets.as_slice().split_at(count.min(octets.len()));
        let rest = &rest[..rest.len().min(1)];
        assert_eq!(rt;
            open_lengths(rt.alloc(), front, rest),
            (open, next),
            "{digits}"
        );
    }
    Ok(())
}

/// Returns whether `encode` and `frame` return the octets of a frame for a message, which is too
/// long for any smaller limit.
fn is_framed(alloc: Global, message: &Message, octets: &[u8], count: u32) -> bool {
    let (Some(limit), Some(less)) = (Limit::new(count), Limit::new(count.saturating_sub(1))) else {
        return false;
    };
    let is_encoded = match encode(alloc, message) {
        Ok(encoded) => Some(encoded.as_slice()) == octets.get(4..),
        Err(_) => false,
    };
    let is_framed = match frame(alloc, message, limit) {
        Ok(framed) => framed.as_slice() == octets,
        Err(_) => false,
    };
    is_encoded
        && is_framed
        && size(message) == Some(count)
        && frame(alloc, message, less).err() == Some(EncodeFault::TooLong)
}

/// Returns whether the message of a frame has the octets of the frame again.
fn comes_again(alloc: Global, framed: &Framed<'_>, octets: &[u8], count: u32) -> bool {
    match message_in(alloc, framed) {
        Ok(message) => {
            let same = is_framed(alloc, &message, octets, count);
            drop(message);
            same
        }
        Err(_) => false,
    }
}

/// Returns whether a decoder decodes a frame with this kind and these octets, and whether its
/// message has them again.
fn is_returned(alloc: Global, octets: &[u8], kind: Kind, count: u32) -> bool {
    let mut decoder = Decoder::new(alloc, Limit::DEFAULT);
    let _ = decoder.feed(octets);
    match decoder.ready() {
        Some(framed) => {
            framed.kind() == kind
                && Some(framed.octets()) == octets.get(4..)
                && comes_again(alloc, &framed, octets, count)
        }
        None => false,
    }
}

#[test]
fn frames_come_again(rt: HostRuntime) -> Result<(), Fail> {
    let alloc = rt.alloc();
    for (digits, kind, count) in [
        (AP_REP, Kind::ApRep, 31),
        (AP_REQ, Kind::ApReq, 85),
        (AS_REP, Kind::AsRep, 97),
        (TGS_REP, Kind::TgsRep, 97),
        (TGS_REQ, Kind::TgsReq, 109),
        (KRB_SAFE, Kind::KrbSafe, 61),
        (KRB_PRIV, Kind::KrbPriv, 29),
        (KRB_CRED, Kind::KrbCred, 78),
        (KRB_ERROR, Kind::KrbError, 81),
        (AS_REQ, Kind::AsReq, 60),
    ] {
        let octets = octets_of(alloc, digits)?;
        assert!(rt;
            is_returned(alloc, octets.as_slice(), kind, count),
            "{digits}"
        );
    }
    Ok(())
}

/// Frames, and the place of the octet that is the realm of each, if it has one. The replies, the
/// TGS-REQ and the last KRB-ERROR have a second realm, of a ticket or of a client.
const REALMS: [(&str, Option<usize>); 11] = [
    (AS_REQ, Some(32)),
    (AS_REP, Some(22)),
    (TGS_REQ, Some(35)),
    (TGS_REP, Some(22)),
    (AP_REQ, Some(42)),
    (KRB_ERROR, Some(51)),
    (KRB_ERROR_OF_CLIENT, Some(56)),
    (AP_REP, None),
    (KRB_SAFE, None),
    (KRB_PRIV, None),
    (KRB_CRED, None),
];

/// Returns whether octets are a frame whose message has this realm.
fn has_realm(alloc: Global, octets: &[u8], realm: Option<&[u8]>) -> bool {
    let mut decoder = Decoder::new(alloc, Limit::DEFAULT);
    let _ = decoder.feed(octets);
    match decoder.ready() {
        Some(framed) => framed.realm() == realm,
        None => false,
    }
}

/// Returns whether the realm of a frame is the octet at this place, whatever the octet is.
fn has_realm_at(alloc: Global, digits: &str, place: Option<usize>) -> Result<bool, Fail> {
    let mut octets = octets_of(alloc, digits)?;
    let Some(place) = place else {
        return Ok(has_realm(alloc, octets.as_slice(), None));
    };
    *octets.get_mut(place).ok_or("a realm")? = b'R';
    Ok(has_realm(alloc, octets.as_slice(), Some(b"R")))
}

#[test]
fn borrows_the_realm(rt: HostRuntime) -> Result<(), Fail> {
    for (digits, place) in REALMS {
        assert!(rt; has_realm_at(rt.alloc(), digits, place)?, "{digits}");
    }
    Ok(())
}
