// Trees that several kinds answer with.
ghost use Rattle.std.specs.Prelude.{◌≡◌, [], IfOk, codes};
ghost use Rattle.ps_types.specs.Namespaces.{pubsub_ns};
ghost use Rattle.ps_types.specs.Tree.{tree, branch, none};

use ps_base::Memory;
use ps_names::{element, only};
use ps_namespaces::PUBSUB;
use ps_types::{Attrs, Elem};
use std::alloc::Global;

/// `pubsub` with the one part (XEP-0060 §4).
pub(crate) fn pubsub(alloc: Global, part: Elem) -> Result<Elem, Memory>
    ensures { IfOk result (λ t. t ≡ tree (codes "pubsub") pubsub_ns [] (branch part none)) }
{
    let kids = only(alloc, part)?;
    element(alloc, "pubsub", PUBSUB, Attrs::new(alloc), kids)
}
