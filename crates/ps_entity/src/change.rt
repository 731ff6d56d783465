// What setting a subscription changes.
ghost use Rattle.std.specs.Prelude.{◌≡◌, not};
ghost use Rattle.ps_types.specs.Subs.{subs_with};
ghost use Rattle.ps_model.specs.SameRows.{same_subs};
ghost use Rattle.ps_access.specs.Tables.{book_of};
ghost use Rattle.ps_entity.specs.Kept.{has_them};

use ps_access::Tables;
use ps_types::{Jid, NodeKey, SubOptions, SubRow, SubState};

fn has_them(row: &SubRow, state: SubState, options: SubOptions) -> bool
    ensures { result ≡ has_them state options row.now }
{
    state == row.state && options == row.options
}

/// Whether the subscriptions are others once this one is set, where none removes.
pub(crate) fn changes(
    tables: &Tables,
    node: &NodeKey,
    who: &Jid,
    state: SubState,
    options: SubOptions,
) -> bool
    ensures { result ≡ not (same_subs (subs_with (record {
      node = node.now;
      who = who.now;
      state = state;
      options =
          options;
    }) (book_of tables.now).subs) (book_of tables.now).subs) }
{
    let row = tables.subs.row_of(node, who);
    match state {
        SubState::Nothing => row.is_some(),
        _ => match row {
            Some(row) => !has_them(row, state, options),
            None => true,
        },
    }
}
