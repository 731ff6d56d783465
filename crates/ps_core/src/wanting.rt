// What resources want, kept as their rows change.
ghost use Rattle.std.specs.Prelude.{◌≡◌, OnOk};
ghost use Rattle.ps_core.specs.Wants.{FollowsRequest, FollowsRow, is_of_resource as is_of_resource_by};

use ps_base::Memory;
use ps_filter::Wants;
use ps_presence::Presence;
use ps_types::{Ask, Jid, Request};
use std::alloc::Global;

// Whether a request of this kind may change the sender's row.
fn is_of_resource(ask: &Ask) -> bool
    ensures { result ≡ is_of_resource_by ask.now }
{
    match ask {
        Ask::Present { .. } | Ask::Absent | Ask::CapsAnswer { .. } => true,
        _ => false,
    }
}

// The resource wants what its row says as it stands.
fn follow_row(
    wants: &mut Wants,
    alloc: Global,
    presence: &Presence,
    who: &Jid,
) -> Result<(), Memory>
    ensures { OnOk result (FollowsRow who.now presence.now.rows wants.old.rows wants.new.rows) }
{
    match presence.resource(who) {
        Some(row) => wants.update(alloc, who, row.features.as_slice()),
        None => {
            wants.clear(who);
            Ok(())
        }
    }
}

/// The wants are those of the rows that a request left.
pub fn follow_request(
    wants: &mut Wants,
    alloc: Global,
    presence: &Presence,
    request: &Request,
) -> Result<(), Memory>
    ensures { OnOk result (FollowsRequest request.now presence.now.rows wants.old.rows wants.new.rows) }
{
    if !is_of_resource(&request.ask) {
        return Ok(());
    }
    follow_row(wants, alloc, presence, &request.from)
}
