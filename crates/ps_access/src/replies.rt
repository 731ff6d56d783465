// The children of results (XEP-0060).
ghost use Rattle.std.specs.Prelude.{◌≡◌, ◌≢◌, [], IfOk};
ghost use Rattle.ps_types.specs.Elem.{nodes};
ghost use Rattle.ps_access.specs.Replies.{about_nodes};

use ps_base::Memory;
use ps_names::{element, only, put_pair};
use ps_types::{Attrs, Elem, Kids};
use std::alloc::Global;

/// `pubsub` about a node, or about all where the node has no name: a tree of that name with these children in it.
pub fn about(alloc: Global, ns: &str, name: &str, node: &str, kids: Kids) -> Result<Elem, Memory>
    requires named { name.now ≢ [] }
    ensures child { IfOk result (λ t. t ≡ about_nodes ns.now name.now node.now (nodes kids)) }
{
    let mut attrs = Attrs::new(alloc);
    put_pair(alloc, &mut attrs, "node", node)?;
    let part = element(alloc, name, ns, attrs, kids)?;
    let kids = only(alloc, part)?;
    element(alloc, "pubsub", ns, Attrs::new(alloc), kids)
}
