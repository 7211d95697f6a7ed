//! Flows, and what they carry.

ghost use Rattle.std.specs.Prelude.{◌≡◌};
ghost use Rattle.krb_capture.specs.Flows.{due_with, flow_between, moment_due, origin_of, service_of};

use krb_der::Profile;
use krb_exchange::Moment;
use krb_packet::Packet;
use krb_record::{CaptureOrigin, Told, Transport};
use krb_source::{Endpoint, Timestamp};

/// The port of changes of passwords (RFC 3244, 2).
const PASSWORD_PORT: u16 = 464;

/// A flow of TCP: what one end of a connection sends to the other.
#[derive(Clone, Copy, PartialEq, Eq, PartialOrd, Ord)]
pub(crate) struct Flow {
    /// The port of the source. The two ports come first, since they distinguish most flows, and
    /// flows are compared often.
    pub(crate) source_port: u16,
    /// The port of the target.
    pub(crate) target_port: u16,
    pub(crate) source: Endpoint,
    pub(crate) target: Endpoint,
}

impl Flow {
    /// Returns the flow between two ends.
    pub(crate) fn between(source: Endpoint, target: Endpoint) -> Flow
        ensures { result ≡ flow_between source target }
    {
        Flow {
            source_port: source.port,
            target_port: target.port,
            source,
            target,
        }
    }
}

/// What a flow carries, and the profile by which its messages are judged.
#[derive(Clone, Copy)]
pub(crate) enum Service {
    /// Messages of Kerberos.
    Kerberos(Profile),
    /// Messages that change passwords, whose parts are messages of Kerberos.
    Passwords(Profile),
}

impl Service {
    /// Returns what a flow carries, by its ports, if that is of Kerberos: `port` is the one of
    /// KDCs, and messages are judged by the profile.
    pub(crate) fn between(
        profile: Profile,
        port: u16,
        source: Endpoint,
        target: Endpoint,
    ) -> Option<Service>
        ensures { result ≡ service_of profile port source target }
    {
        if source.port == port || target.port == port {
            Some(Service::Kerberos(profile))
        } else if source.port == PASSWORD_PORT || target.port == PASSWORD_PORT {
            Some(Service::Passwords(profile))
        } else {
            None
        }
    }
}

/// The packet with which records are due.
#[derive(Clone, Copy)]
pub(crate) struct Due {
    pub(crate) packet: u64,
    pub(crate) time: Option<Timestamp>,
}

impl Due {
    /// Returns what is due with a packet.
    pub(crate) fn with(packet: &Packet) -> Due
        ensures { result ≡ due_with packet.now }
    {
        Due {
            packet: packet.number,
            time: packet.time,
        }
    }

    /// Returns the packet and its time.
    pub(crate) fn moment(self) -> Moment
        ensures { result ≡ moment_due self }
    {
        Moment {
            packet: self.packet,
            time: self.time,
        }
    }

    /// Returns the origin of records of a flow over a transport.
    pub(crate) fn over(
        self,
        transport: Transport,
        source: Endpoint,
        target: Endpoint,
    ) -> CaptureOrigin
        ensures { result ≡ origin_of self transport source target }
    {
        CaptureOrigin {
            packet: self.packet,
            time: self.time,
            flow: krb_record::Flow {
                transport,
                source,
                target,
            },
            told: Told::Nothing,
        }
    }
}
