// The check of a request.
ghost use Rattle.std.specs.Prelude.{◌≡◌, true};
ghost use Rattle.ps_access.specs.Plans.{Plans};
ghost use Rattle.ps_access.specs.Tables.{book_of};
ghost use Rattle.ps_entity.specs.Plans.{is_planned};

use crate::affils::plan_my_affils;
use crate::capabilities::plan_answer;
use crate::items::plan_items;
use crate::options_get::plan_options_get;
use crate::options_set::plan_options_set;
use crate::presence::{plan_absent, plan_present};
use crate::roster::plan_roster_set;
use crate::subs::plan_my_subs;
use crate::subscribe::plan_subscribe;
use crate::unsubscribe::plan_unsubscribe;
use ps_access::Tables;
use ps_types::{Ask, Plan, PlanRefusal, Request};
use std::alloc::Global;

/// The plan of a request: what its result holds, and whether it makes an entry.
///
/// It is refused by the first step of its kind that fails.
pub fn plan(alloc: Global, tables: &Tables, request: &Request) -> Result<Plan, PlanRefusal>
    requires kind { is_planned request.now.ask ≡ true }
    ensures { Plans result (book_of tables.now) request.now }
{
    match &request.ask {
        Ask::MyAffils { node } => plan_my_affils(alloc, tables, request, node),
        Ask::MySubs { node } => plan_my_subs(alloc, tables, request, node),
        Ask::Subscribe { node, who, form } => {
            plan_subscribe(alloc, tables, request, node, who, form)
        }
        Ask::Unsubscribe { node, who, subid } => {
            plan_unsubscribe(tables, request, node, who, subid)
        }
        Ask::OptionsGet { node, who } => plan_options_get(alloc, tables, request, node, who),
        Ask::OptionsSet { node, who, form } => {
            plan_options_set(alloc, tables, request, node, who, form)
        }
        Ask::ItemsGet { node, max, ids } => plan_items(alloc, tables, request, node, max, ids),
        Ask::RosterSet { item } => plan_roster_set(tables, request, item),
        Ask::Present { caps } => Ok(plan_present(tables, request, caps)),
        Ask::Absent => Ok(plan_absent(tables, request)),
        Ask::CapsAnswer { node, info } => plan_answer(alloc, tables, request, node, info),
        _ => unreachable!(),
    }
}
