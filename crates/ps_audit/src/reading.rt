// Who may read a node at a State.
ghost use Rattle.std.specs.Prelude.{◌≡◌, List, IfOk};
ghost use Rattle.ps_audit.specs.Listed.{AreReaders};
ghost use Rattle.ps_model.specs.Replay.{lawful, replay};
ghost use Rattle.ps_types.specs.declared.entry.Entry.{Entry};

use crate::listing::{ReaderList, reader_list};
use ps_base::Memory;
use ps_core::Service;
use ps_types::NodeKey;
use std::alloc::Global;

/// Who may read a node after all entries, or None where the node doesn't stand.
pub fn readers(
    alloc: Global,
    service: &Service,
    node: &NodeKey,
) -> Result<Option<ReaderList>, Memory>
    requires replayed { (E : List Entry) × lawful E × (service.now.state ≡ replay E) }
    ensures { IfOk result (λ list. AreReaders service.now.state.book node.now list) }
{
    let tables = service.tables();
    match tables.nodes.get(node) {
        None => Ok(None),
        Some(row) => Ok(Some(reader_list(alloc, tables, &row)?)),
    }
}
