//! One item, judged alone.

ghost use Rattle.std.specs.Prelude.{◌≡◌, ◌^◌, ◌<◌, ◌≤◌, length};
ghost use Rattle.krb_msg.specs.Judgement.{term_judgement};
ghost use Rattle.krb_msg.specs.Nodes.{term_at};
ghost use Rattle.krb_msg.specs.Table.{IsNode};

use crate::expected::Expected;
use crate::path::Path;
use krb_der::Verdict;

/// Returns what the octets present of an item of a node's term decide, of which alone there are `n`
/// octets, as a [`Machine`](crate::Machine) does of those of a message. It allocates nothing.
pub fn judge_item(node: u16, n: u32, octets: &[u8]) -> Verdict
    requires known { IsNode node }
    requires some { 0 < n }
    requires short { n < 2 ^ 31 }
    requires present { length octets.now ≤ n }
    ensures { result ≡ term_judgement (term_at node) n octets.now }
{
    let mut path = Path::new(Expected::Only { node }, n);
    let (_, decided) = path.scan(octets);
    decided
}
