//! Datagrams of UDP, each of which is a message.

ghost use Rattle.std.specs.Prelude.{◌≡◌, OnOk};
ghost use Rattle.krb_capture.specs.Datagrams.{all_found, datagram_found, surplus_found};
ghost use Rattle.krb_capture.specs.Found.{with_all};

use crate::flow::Service;
use crate::listing::Listing;
use crate::message::{list_cut_message, list_message};
use crate::password::list_password;
use krb_der::{Memory, Refusal, Why};
use krb_flow::{Lost, Unread};
use krb_packet::{Datagram, Payload};
use krb_record::{CaptureOrigin, Extent};
use krb_source::UnreadWhy;

/// Lists the message of a datagram.
#[tactic(auto, unfolding(crate::specs::Datagrams::datagram_found))]
fn list_datagram(
    service: Service,
    payload: &Payload<'_>,
    origin: &CaptureOrigin,
    listing: &mut Listing<'_>,
) -> Result<(), Memory>
    ensures { OnOk result (listing.new ≡ with_all origin.now (datagram_found service payload.now) listing.old) }
{
    let octets = payload.octets();
    let size = payload.size();
    let extent = Extent {
        at: 0,
        length: Some(size),
    };
    if size == 0 {
        let refusal = Refusal {
            place: 0,
            why: Why::Empty,
        };
        return listing.put_refusal(origin, refusal, None, extent);
    }
    let is_whole = octets.len() as u64 == size;
    match service {
        Service::Kerberos(profile) if is_whole => list_message(
            profile, octets, 0, extent, origin, listing,
        ),
        Service::Kerberos(profile) => list_cut_message(
            profile, octets, size, extent, origin, listing,
        ),
        Service::Passwords(profile) if is_whole => list_password(
            profile, octets, 0, extent, origin, listing,
        ),
        Service::Passwords(_) => {
            let place = octets.len() as u64;
            let lost = Lost {
                place,
                octets: size - place,
            };
            listing.put_lost(origin, lost, Some("KPASSWD"))
        }
    }
}

/// Lists the octets that were captured after the length of a datagram, if there are any.
fn list_surplus(
    datagram: &Datagram<'_>,
    origin: &CaptureOrigin,
    listing: &mut Listing<'_>,
) -> Result<(), Memory>
    ensures { OnOk result (listing.new ≡ with_all origin.now (surplus_found datagram.now) listing.old) }
{
    let octets = datagram.surplus.octets().len() as u64;
    if octets == 0 {
        return Ok(());
    }
    let unread = Unread {
        place: Some(datagram.payload.size()),
        octets,
        why: UnreadWhy::Surplus,
    };
    listing.put_unread(origin, unread)
}

/// Lists a datagram, and octets after its length.
pub(crate) fn list_with_surplus(
    service: Service,
    datagram: &Datagram<'_>,
    origin: &CaptureOrigin,
    listing: &mut Listing<'_>,
) -> Result<(), Memory>
    ensures { OnOk result (listing.new ≡ with_all origin.now (all_found service datagram.now) listing.old) }
{
    list_datagram(service, &datagram.payload, origin, listing)?;
    list_surplus(datagram, origin, listing)
}
