// The table of wants.
ghost use Rattle.std.specs.Prelude.{◌≡◌, ◌≤◌, [], IfOk, OnOk, OnErr, filter, length};
ghost use Rattle.ps_base.specs.Rows.{without};
ghost use Rattle.ps_model.specs.Sorted.{sorted};
ghost use Rattle.ps_types.specs.Resources.{resources_off, resources_without};
ghost use Rattle.ps_filter.specs.Wants.{AreBoth, AreWants, FollowsGone, FollowsSet, IsByFeatures, SetsWants, is_wanted, is_want_for, is_want_of, is_want_on, who_want};

use crate::asks::{WantOf, WantsFor, WantsOf, WantsOn};
use crate::names::asked;
use crate::sorted::sorted;
use crate::want::Want;
use ps_base::Memory;
use ps_rows::{Index, Rows};
use ps_types::{Jid, Text};
use std::alloc::Global;
use std::marker::Model;

/// What each resource wants, found by the resource, by the name of the nodes, and by the resource's host.
#[derive(Drop)]
pub struct Wants {
    rows: Rows<Want>,
}

impl Model for Wants {
    ghost use Rattle.ps_base.specs.Rows.{Table};
    ghost use Rattle.ps_filter.specs.declared.want.Want.{Want};

    ghost Value = { Table Want };

    ghost view = { λ t. t.rows };
}

// Takes away what a resource wants.
fn forget(rows: &mut Rows<Want>, who: &Jid)
    ensures rows { rows.new.rows ≡ without (is_want_of who.now) rows.old.rows }
    ensures room { rows.old.spare ≤ rows.new.spare }
{
    let ask = WantsOf { who };
    rows.take_away(Index::Key, &ask);
}

// Adds rows, from the last one on.
fn add_all(rows: &mut Rows<Want>, mut more: Vec<Want>)
    requires room { length more.items ≤ rows.old.spare }
    ensures { AreBoth rows.old.rows more.items rows.new.rows }
{
    while let Some(row) = more.pop() {
        rows.add(row);
    }
}

fn wants_for(alloc: Global, rows: &Rows<Want>, name: &Text) -> Result<Vec<Want>, Memory>
    ensures { IfOk result (λ found. found.items ≡ filter (is_want_for name.now) rows.now.rows) }
{
    let ask = WantsFor { name };
    rows.list(Index::Node, &ask, alloc)
}

impl Wants {
    /// No resource wants anything.
    pub fn new(alloc: Global) -> Result<Wants, Memory>
        ensures empty { IfOk result (λ t. t.rows ≡ []) }
        ensures follows { IfOk result (λ t. AreWants t.rows []) }
    {
        Ok(Wants {
            rows: Rows::new(alloc),
        })
    }

    /// The same, with digests that go by a seed that no stranger knows. No answer depends on it.
    pub fn seeded(alloc: Global, seed: u64) -> Result<Wants, Memory>
        ensures empty { IfOk result (λ t. t.rows ≡ []) }
        ensures follows { IfOk result (λ t. AreWants t.rows []) }
    {
        Ok(Wants {
            rows: Rows::seeded(alloc, seed),
        })
    }

    /// The same wants, answered alike.
    pub fn copy(&self) -> Result<Wants, Memory>
        ensures rows { IfOk result (λ t. t.rows ≡ self.now.rows) }
    {
        Ok(Wants {
            rows: self.rows.copy()?,
        })
    }

    /// Whether a resource wants the events of nodes of a name (XEP-0163 §4.2). It takes no memory.
    pub fn wants(&self, resource: &Jid, node: &Text) -> bool
        ensures wanted { result ≡ is_wanted resource.now node.now self.now.rows }
        ensures by_features { IsByFeatures resource.now node.now self.now.rows result }
    {
        let ask = WantOf {
            who: resource,
            name: node,
        };
        self.rows.any(Index::Key, &ask)
    }

    /// The resources that want the events of nodes of a name, sorted by the octets of their printed form, each once.
    pub fn resources(&self, alloc: Global, node: &Text) -> Result<Vec<Jid>, Memory>
        ensures sorted { IfOk result (λ whos. whos.items ≡ sorted (who_want node.now self.now.rows)) }
    {
        let found = wants_for(alloc, &self.rows, node)?;
        sorted(alloc, &found)
    }

    /// A resource has these features from now on, and wants what they ask for.
    ///
    /// After `Memory` all is as it was.
    pub fn update(&mut self, alloc: Global, resource: &Jid, features: &[Text]) -> Result<(), Memory>
        ensures ok { OnOk result (SetsWants resource.now features.now self.old.rows self.new.rows) }
        ensures err { OnErr result (self.new.rows ≡ self.old.rows) }
        ensures follows { OnOk result (FollowsSet resource.now features.now self.old.rows self.new.rows) }
    {
        let more = asked(alloc, resource, features)?;
        self.rows.reserve(more.len() as u64)?;
        forget(&mut self.rows, resource);
        add_all(&mut self.rows, more);
        Ok(())
    }

    /// A resource went: it wants nothing any more. It takes no memory.
    pub fn clear(&mut self, resource: &Jid)
        ensures rows { self.new.rows ≡ without (is_want_of resource.now) self.old.rows }
        ensures follows { FollowsGone (resources_without resource.now) self.old.rows self.new.rows }
    {
        forget(&mut self.rows, resource);
    }

    /// All resources of a host went. It takes no memory.
    pub fn clear_host(&mut self, host: &Text)
        ensures rows { self.new.rows ≡ without (is_want_on host.now) self.old.rows }
        ensures follows { FollowsGone (resources_off host.now) self.old.rows self.new.rows }
    {
        let ask = WantsOn { host };
        self.rows.take_away(Index::Bare, &ask);
    }
}
