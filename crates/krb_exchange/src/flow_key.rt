//! By what flows are found.

ghost use Rattle.std.specs.Prelude.{◌≡◌};
ghost use Rattle.krb_exchange.specs.inner.Numbers.{flow_key};

use krb_record::Flow;

/// A flow, of which the port that it comes from is compared first: in that most flows differ, and the
/// addresses of few are compared.
#[derive(Clone, Copy, PartialEq, Eq, PartialOrd, Ord)]
pub(crate) struct FlowKey {
    port: u16,
    flow: Flow,
}

impl FlowKey {
    /// Returns that of a flow.
    pub(crate) fn of(flow: Flow) -> FlowKey
        ensures { result ≡ flow_key flow }
    {
        FlowKey {
            port: flow.source.port,
            flow,
        }
    }
}
