// The check of a request.
ghost use Rattle.std.specs.Prelude.{◌≡◌, true};
ghost use Rattle.ps_access.specs.Plans.{Plans};
ghost use Rattle.ps_access.specs.Tables.{book_of};
ghost use Rattle.ps_disco.specs.Plans.{is_planned};

use crate::info::plan_info;
use crate::listed::plan_nodes;
use ps_access::Tables;
use ps_types::{Ask, Plan, PlanRefusal, Request};
use std::alloc::Global;

/// The plan of a request for discovery: what its result holds. It makes no entry.
///
/// It is refused by the first step of its kind that fails.
pub fn plan(alloc: Global, tables: &Tables, request: &Request) -> Result<Plan, PlanRefusal>
    requires kind { is_planned request.now.ask ≡ true }
    ensures { Plans result (book_of tables.now) request.now }
{
    match &request.ask {
        Ask::InfoGet { node } => plan_info(alloc, tables, request, node),
        Ask::NodesGet { node } => plan_nodes(alloc, tables, request, node),
        _ => unreachable!(),
    }
}
