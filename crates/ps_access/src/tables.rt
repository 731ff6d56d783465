// The tables of the service.
ghost use Rattle.std.specs.Prelude.{◌≡◌, [], IfOk};
ghost use Rattle.ps_model.specs.Book.{empty_book};
ghost use Rattle.ps_access.specs.Joined.{joined_book};
ghost use Rattle.ps_access.specs.Tables.{book_of};

use ps_affil::Affils;
use ps_base::Memory;
use ps_coll::Links;
use ps_item_ids::Counts;
use ps_items::Items;
use ps_nodes::Nodes;
use ps_presence::{Cache, Presence};
use ps_roster::Roster;
use ps_subs::Subs;
use ps_types::Text;
use std::alloc::Global;

/// The service host and the tables of its rows.
pub struct Tables {
    /// Empty until the first boot.
    pub service: Text,
    pub nodes: Nodes,
    pub affils: Affils,
    pub subs: Subs,
    pub items: Items,
    /// Which node is in which collection.
    pub links: Links,
    pub roster: Roster,
    /// The resources that are present.
    pub presence: Presence,
    /// The verified capability strings.
    pub cache: Cache,
    /// The ids that were made.
    pub counts: Counts,
}

// By hand, so that tables are let go by one call wherever a function ends.
impl Drop for Tables {
    fn drop(self) {
        let Tables {
            service: _,
            nodes: _,
            affils: _,
            subs: _,
            items: _,
            links: _,
            roster: _,
            presence: _,
            cache: _,
            counts: _,
        } = self;
    }
}

// Tables are made in three parts, since each of many fields that may fail costs the proof of all before it.
#[derive(Drop)]
struct Places {
    nodes: Nodes,
    links: Links,
    counts: Counts,
}

#[derive(Drop)]
struct Uses {
    affils: Affils,
    subs: Subs,
    items: Items,
}

#[derive(Drop)]
struct People {
    roster: Roster,
    presence: Presence,
    cache: Cache,
}

fn no_places(alloc: Global, seed: u64) -> Result<Places, Memory>
    ensures nodes { IfOk result (λ p. p.nodes.rows ≡ []) }
    ensures links { IfOk result (λ p. p.links.rows ≡ []) }
    ensures counts { IfOk result (λ p. p.counts.rows ≡ []) }
{
    Ok(Places {
        nodes: Nodes::seeded(alloc, seed)?,
        links: Links::seeded(alloc, seed)?,
        counts: Counts::seeded(alloc, seed)?,
    })
}

fn no_uses(alloc: Global, seed: u64) -> Result<Uses, Memory>
    ensures affils { IfOk result (λ u. u.affils.rows ≡ []) }
    ensures subs { IfOk result (λ u. u.subs.rows ≡ []) }
    ensures items { IfOk result (λ u. u.items.rows ≡ []) }
{
    Ok(Uses {
        affils: Affils::seeded(alloc, seed)?,
        subs: Subs::seeded(alloc, seed)?,
        items: Items::seeded(alloc, seed)?,
    })
}

fn no_people(alloc: Global, seed: u64) -> Result<People, Memory>
    ensures roster { IfOk result (λ p. p.roster.rows ≡ []) }
    ensures presence { IfOk result (λ p. p.presence.rows ≡ []) }
    ensures cache { IfOk result (λ p. p.cache.rows ≡ []) }
{
    Ok(People {
        roster: Roster::seeded(alloc, seed)?,
        presence: Presence::seeded(alloc, seed)?,
        cache: Cache::seeded(alloc, seed)?,
    })
}

fn copied_places(tables: &Tables) -> Result<Places, Memory>
    ensures nodes { IfOk result (λ p. p.nodes.rows ≡ tables.now.nodes.rows) }
    ensures links { IfOk result (λ p. p.links.rows ≡ tables.now.links.rows) }
    ensures counts { IfOk result (λ p. p.counts.rows ≡ tables.now.counts.rows) }
{
    Ok(Places {
        nodes: tables.nodes.copy()?,
        links: tables.links.copy()?,
        counts: tables.counts.copy()?,
    })
}

fn copied_uses(tables: &Tables) -> Result<Uses, Memory>
    ensures affils { IfOk result (λ u. u.affils.rows ≡ tables.now.affils.rows) }
    ensures subs { IfOk result (λ u. u.subs.rows ≡ tables.now.subs.rows) }
    ensures items { IfOk result (λ u. u.items.rows ≡ tables.now.items.rows) }
{
    Ok(Uses {
        affils: tables.affils.copy()?,
        subs: tables.subs.copy()?,
        items: tables.items.copy()?,
    })
}

fn copied_people(tables: &Tables) -> Result<People, Memory>
    ensures roster { IfOk result (λ p. p.roster.rows ≡ tables.now.roster.rows) }
    ensures presence { IfOk result (λ p. p.presence.rows ≡ tables.now.presence.rows) }
    ensures cache { IfOk result (λ p. p.cache.rows ≡ tables.now.cache.rows) }
{
    Ok(People {
        roster: tables.roster.copy()?,
        presence: tables.presence.copy()?,
        cache: tables.cache.copy()?,
    })
}

fn joined(service: Text, places: Places, uses: Uses, people: People) -> Tables
    ensures { book_of result ≡ joined_book service places uses people }
{
    let Places {
        nodes,
        links,
        counts,
    } = places;
    let Uses {
        affils,
        subs,
        items,
    } = uses;
    let People {
        roster,
        presence,
        cache,
    } = people;
    Tables {
        service,
        nodes,
        affils,
        subs,
        items,
        links,
        roster,
        presence,
        cache,
        counts,
    }
}

impl Tables {
    /// The empty tables.
    pub fn new(alloc: Global) -> Result<Tables, Memory>
        ensures empty { IfOk result (λ t. book_of t ≡ empty_book) }
    {
        Tables::seeded(alloc, 0)
    }

    /// The empty tables, of which the digests go by a seed that no stranger knows. No answer depends on it.
    pub fn seeded(alloc: Global, seed: u64) -> Result<Tables, Memory>
        ensures empty { IfOk result (λ t. book_of t ≡ empty_book) }
    {
        let places = no_places(alloc, seed)?;
        let uses = no_uses(alloc, seed)?;
        let people = no_people(alloc, seed)?;
        let service = Text::of(alloc, "")?;
        Ok(joined(service, places, uses, people))
    }

    /// Tables with the same rows.
    pub fn copy(&self) -> Result<Tables, Memory>
        ensures same { IfOk result (λ t. book_of t ≡ book_of self.now) }
    {
        let places = copied_places(self)?;
        let uses = copied_uses(self)?;
        let people = copied_people(self)?;
        let service = self.service.clone()?;
        Ok(joined(service, places, uses, people))
    }
}
