//! Capture files to packets, and packets to UDP datagrams and TCP segments.
//!
//! The main calls:
//!
//! - [`Packets::next_packet`] reads one packet after another of a pcap or a pcapng, in either order of
//!   octets, from anything that can be read.
//! - [`contents_of`] returns the UDP datagram or the TCP segment that a packet carries, whose
//!   octets are borrowed, or a fragment of one, or that it is something else or cannot be read.
//! - [`Fragments::take`] puts datagrams together from their fragments, in whatever order these come.
//!
//! Checksums are not checked. Nothing here knows a TCP connection or a message: `krb_flow` puts
//! directions of connections together.
#![tactic(auto)]

mod assembly;
mod block;
mod blocks;
mod body;
mod contents;
mod datagrams;
mod envelope;
mod format;
mod fragments;
mod header;
mod icmp;
mod interface;
mod internet;
pub mod law;
mod link;
mod order;
mod packet;
mod packets;
mod passed;
mod payload;
mod pcap;
mod transport;
mod tunnel;
mod walk;

pub use block::Section;
pub use contents::{
    Contents, Datagram, Ends, Fragment, IcmpError, Original, QuotedProtocol, Segment,
};
pub use format::Format;
pub use fragments::{Fragments, Reassembled};
pub use interface::{Clock, Interface};
pub use order::ByteOrder;
pub use packet::{LinkType, Packet, contents_of};
pub use packets::Packets;
pub use payload::Payload;
pub use pcap::{Form, Header, Precision};
