// The calls of a table of lumps.
ghost use Rattle.std.specs.Prelude.{◌≡◌, ◌+◌, ◌<◌, ◌≤◌, nat_eq, ◌&&◌, IfOk, count_by, filter, find, option_copied};
ghost use Rattle.ps_base.specs.Rows.{put_row, without, keep_newest};
ghost use Rattle.ps_rows.specs.Newest.{newest_of};

use crate::lump::{InGroup, Lump};
use ps_base::Memory;
use ps_rows::{Index, Rows};
use std::alloc::Global;

/// Writes a row over the one of its group and key, or puts it last where there is none.
pub fn put(rows: &mut Rows<Lump>, row: Lump)
    requires room { 0 < rows.old.spare }
    ensures rows { rows.new.rows ≡ put_row (λ x. nat_eq row.group x.group && nat_eq row.key x.key) row rows.old.rows }
    ensures room { rows.old.spare ≤ rows.new.spare + 1 }
{
    rows.put(row);
}

/// Takes the row of a group and key away.
pub fn take(rows: &mut Rows<Lump>, row: &Lump)
    ensures rows { rows.new.rows
        ≡ without (λ x. nat_eq row.now.group x.group && nat_eq row.now.key x.key) rows.old.rows }
    ensures room { rows.old.spare ≤ rows.new.spare }
{
    rows.take_away(Index::Key, row);
}

/// How many rows a group has.
pub fn count(rows: &Rows<Lump>, group: u64) -> u64
    ensures { result ≡ count_by (λ x. nat_eq group x.group) rows.now.rows }
{
    let ask = InGroup { group };
    rows.count_node(&ask)
}

/// The rows of a group.
pub fn list(alloc: Global, rows: &Rows<Lump>, group: u64) -> Result<Vec<Lump>, Memory>
    ensures { IfOk result (λ found. found.items ≡ filter (λ x. nat_eq group x.group) rows.now.rows) }
{
    let ask = InGroup { group };
    rows.list(Index::Node, &ask, alloc)
}

/// The newest rows of a group, at most as many as given.
pub fn newest(alloc: Global, rows: &Rows<Lump>, group: u64, most: u64) -> Result<Vec<Lump>, Memory>
    ensures { IfOk result (λ found. found.items ≡ newest_of most (filter (λ x. nat_eq group x.group) rows.now.rows)) }
{
    let ask = InGroup { group };
    rows.newest(Index::Node, &ask, most, alloc)
}

/// Of a group's rows the newest stay, at most as many as given.
pub fn keep(rows: &mut Rows<Lump>, group: u64, most: u64)
    ensures rows { rows.new.rows ≡ keep_newest (λ x. nat_eq group x.group) most rows.old.rows }
    ensures room { rows.old.spare ≤ rows.new.spare }
{
    let ask = InGroup { group };
    rows.keep(&ask, most);
}
