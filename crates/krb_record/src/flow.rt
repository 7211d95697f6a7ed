//! Flows: which protocol carries octets, where they come from and where they go to.

ghost use Rattle.std.specs.Prelude.{◌≡◌, ◌++◌, OnOk, codes, decimal};
ghost use Rattle.std.specs.Net.Text.{ip_text, ipv4_text};
ghost use Rattle.krb_record.specs.Flows.{endpoint_object, endpoint_text, flow_object, flow_text, host_text, transport_name};
ghost use Rattle.krb_record.specs.Values.{Flow as IsFlow};

use crate::cell::put_no_cell;
use crate::path::Path;
use crate::shown::{Shown, put_begin};
use crate::text_buffer::TextBuffer;
use krb_source::Endpoint;
use std::alloc::AllocError;
use std::net::IpAddr;

/// The protocol that carries messages.
#[derive(Clone, Copy, PartialEq, Eq, PartialOrd, Ord, Debug)]
pub enum Transport {
    /// UDP (RFC 768).
    Udp,
    /// TCP (RFC 9293).
    Tcp,
}

impl Transport {
    /// Returns its name in lower case.
    fn name(self) -> &'static str
        ensures { result.now ≡ transport_name self }
    {
        match self {
            Transport::Udp => "udp",
            Transport::Tcp => "tcp",
        }
    }
}

/// A flow: the protocol, and the two ends.
#[derive(Clone, Copy, PartialEq, Eq, PartialOrd, Ord)]
pub struct Flow {
    /// The protocol.
    pub transport: Transport,
    /// Where the octets come from.
    pub source: Endpoint,
    /// Where they go to.
    pub target: Endpoint,
}

/// Appends four octets in decimal, with dots between them.
fn put_dotted(text: &mut TextBuffer, octets: [u8; 4]) -> Result<(), AllocError>
    ensures { OnOk result (text.new ≡ text.old ++ ipv4_text octets) }
{
    let [a, b, c, d] = octets;
    text.push_number(u64::from(a))?;
    text.push_str(".")?;
    text.push_number(u64::from(b))?;
    text.push_str(".")?;
    text.push_number(u64::from(c))?;
    text.push_str(".")?;
    text.push_number(u64::from(d))
}

/// Appends an address: one of IPv4 in decimal, one of IPv6 as RFC 5952 has it.
pub(crate) fn put_address(text: &mut TextBuffer, address: IpAddr) -> Result<(), AllocError>
    ensures { OnOk result (text.new ≡ text.old ++ ip_text address) }
{
    match address {
        IpAddr::V4(address) => put_dotted(text, address.octets()),
        IpAddr::V6(address) => write!(text, "{address}"),
    }
}

/// Appends an address, in brackets if it is one of IPv6.
fn put_host(text: &mut TextBuffer, address: IpAddr) -> Result<(), AllocError>
    ensures { OnOk result (text.new ≡ text.old ++ host_text address) }
{
    match address {
        IpAddr::V4(_) => put_address(text, address),
        IpAddr::V6(_) => {
            text.push_str("[")?;
            put_address(text, address)?;
            text.push_str("]")
        }
    }
}

/// Appends an address, `:` and a port.
fn put_endpoint(text: &mut TextBuffer, endpoint: Endpoint) -> Result<(), AllocError>
    ensures { OnOk result (text.new ≡ text.old ++ endpoint_text endpoint) }
{
    put_host(text, endpoint.address)?;
    text.push_str(":")?;
    text.push_number(u64::from(endpoint.port))
}

/// Appends what an object has after the text of its address: the port.
fn put_port_end(object: &mut TextBuffer, port: u16) -> Result<(), AllocError>
    ensures { OnOk result (object.new ≡ object.old ++ codes "\",\"port\":" ++ decimal port ++ codes "}") }
{
    object.push_str("\",\"port\":")?;
    object.push_number(u64::from(port))?;
    object.push_str("}")
}

/// Appends the object of an address and a port.
fn put_endpoint_object(object: &mut TextBuffer, endpoint: Endpoint) -> Result<(), AllocError>
    ensures { OnOk result (object.new ≡ object.old ++ endpoint_object endpoint) }
{
    object.push_str("{\"address\":\"")?;
    put_address(object, endpoint.address)?;
    put_port_end(object, endpoint.port)
}

/// Appends the flow as a line has it.
fn put_flow_text(line: &mut TextBuffer, flow: &Flow) -> Result<(), AllocError>
    ensures { OnOk result (line.new ≡ line.old ++ flow_text flow.now.transport flow.now.source flow.now.target) }
{
    line.push_str(flow.transport.name())?;
    line.push_str("/")?;
    put_endpoint(line, flow.source)?;
    line.push_str(">")?;
    put_endpoint(line, flow.target)
}

/// Appends the object of the flow.
fn put_flow_object(object: &mut TextBuffer, flow: &Flow) -> Result<(), AllocError>
    ensures { OnOk result (object.new ≡ object.old ++ flow_object flow.now.transport flow.now.source flow.now.target) }
{
    object.push_str("{\"over\":\"")?;
    object.push_str(flow.transport.name())?;
    object.push_str("\",\"source\":")?;
    put_endpoint_object(object, flow.source)?;
    object.push_str(",\"target\":")?;
    put_endpoint_object(object, flow.target)?;
    object.push_str("}")
}

/// The protocol, `/`, where the octets come from, `>`, and where they go to.
impl Shown for Flow {
    ghost shown = { λ flow. IsFlow flow.transport flow.source flow.target };

    #[tactic(auto, unfolding(crate::specs::Forms::value_text))]
    fn put_text(&self, line: &mut TextBuffer, _names: bool) -> Result<(), AllocError> {
        put_flow_text(line, self)
    }

    #[tactic(auto, unfolding(crate::specs::Forms::members, crate::specs::Forms::json_value, crate::specs::Forms::names_member))]
    fn put_members(&self, object: &mut TextBuffer, begin: &str) -> Result<(), AllocError> {
        put_begin(object, begin)?;
        put_flow_object(object, self)
    }

    #[tactic(auto, unfolding(crate::specs::Forms::cell))]
    fn put_cell(&self, text: &mut TextBuffer, path: Path) -> Result<(), AllocError> {
        match path {
            Path::Whole => put_flow_text(text, self),
            Path::Over => text.push_str(self.transport.name()),
            Path::Source => put_endpoint(text, self.source),
            Path::SourceAddress => put_address(text, self.source.address),
            Path::SourcePort => text.push_number(u64::from(self.source.port)),
            Path::Target => put_endpoint(text, self.target),
            Path::TargetAddress => put_address(text, self.target.address),
            Path::TargetPort => text.push_number(u64::from(self.target.port)),
            _ => put_no_cell(text),
        }
    }
}
