// The copy.
ghost use Rattle.std.specs.Prelude.{◌≡◌, ◌≤◌, IfOk, OnOk, OnErr};
ghost use Rattle.std.specs.Vec.{vec_capacity, vec_len};
ghost use Rattle.ps_base.specs.Rows.{keep_newest, without};
ghost use Rattle.ps_mirror.specs.Copy as copy;
ghost use Rattle.ps_mirror.specs.Mirrored as mirrored;

use crate::copied::Copied;
use crate::lines::news_in;
use crate::said::{News, Said};
use ps_base::Memory;
use ps_types::{Jid, NodeKey, Text};
use std::alloc::Global;
use std::marker::Model;

/// What a line was to a mirror.
#[derive(Clone, Copy, PartialEq, Eq, Debug)]
pub enum Taken {
    /// Its number was above the greatest one.
    Changed,
    /// Its number wasn't.
    Repeat,
    /// It was no notice for the mirror.
    Other,
}

/// A copy of a node's items. A contract sees the node, the address, how many items stay at most, and the copy.
#[derive(Drop)]
pub struct Mirror {
    node: NodeKey,
    who: Jid,
    max: u64,
    greatest: u128,
    items: Vec<Copied>,
}

impl Model for Mirror {
    ghost use Rattle.ps_mirror.specs.Mirrored.{Mirrored};
    ghost use Rattle.std.specs.Coded.{codes};
    ghost use Rattle.ps_types.specs.TreeCode.{tree_code};

    ghost Value = { Mirrored };

    ghost coded = { Prim.hlevel (codes, tree_code) };

    ghost view = { λ m. record {
      node = m.node;
      who = m.who;
      max = m.max;
      copy = record { greatest = m.greatest; items = m.items.items };
    } };
}

// The item of the id goes.
fn remove(items: &mut Vec<Copied>, id: &Text)
    ensures items { items.new.items ≡ without (copy.has_id id.now) items.old.items }
    ensures room { vec_capacity items.new ≡ vec_capacity items.old }
    ensures shorter { vec_len items.new ≤ vec_len items.old }
{
    items.retain(|item| !id.is(item.id.as_str()));
}

// The oldest go until at most these many stay.
fn keep(items: &mut Vec<Copied>, max: u64)
    ensures items { items.new.items ≡ keep_newest copy.each_one max items.old.items }
{
    while items.len() as u64 > max {
        items.remove(0);
    }
}

// The item goes last. Only the room for it may want memory, and nothing has changed before.
fn put(items: &mut Vec<Copied>, max: u64, item: Copied) -> Result<(), Memory>
    ensures ok { OnOk result (items.new.items ≡ copy.items_put max item items.old.items) }
    ensures err { OnErr result (items.new.items ≡ items.old.items) }
{
    items.try_reserve(1)?;
    remove(items, &item.id);
    let _ = items.push(item);
    keep(items, max);
    Ok(())
}

fn change(items: &mut Vec<Copied>, max: u64, said: Said) -> Result<(), Memory>
    ensures ok { OnOk result (items.new.items ≡ copy.items_after max said items.old.items) }
    ensures err { OnErr result (items.new.items ≡ items.old.items) }
{
    match said {
        Said::Published(item) => put(items, max, item)?,
        Said::Retracted(id) => remove(items, &id),
        Said::Purged => items.clear(),
    }
    Ok(())
}

impl Mirror {
    /// The empty copy of a node for an address that is told of it, which keeps at most these many items.
    pub fn new(
        alloc: Global,
        service: &Jid,
        node: &Text,
        who: &Jid,
        max: u64,
    ) -> Result<Mirror, Memory>
        requires some { 1 ≤ max }
        requires most { max ≤ 1000 }
        ensures empty { IfOk result (λ m. m ≡ mirrored.empty_mirror service.now node.now who.now max) }
    {
        Ok(Mirror {
            node: NodeKey {
                service: service.clone()?,
                name: node.clone()?,
            },
            who: who.clone()?,
            max,
            greatest: 0,
            items: Vec::new(alloc),
        })
    }

    fn take_news(&mut self, news: Option<News>) -> Result<Taken, Memory>
        ensures mirror { OnOk result (self.new ≡ mirrored.mirror_after news self.old) }
        ensures taken { IfOk result (λ t. t ≡ mirrored.taken_as news self.old) }
        ensures err { OnErr result (self.new ≡ self.old) }
    {
        match news {
            None => Ok(Taken::Other),
            Some(news) => {
                if news.number <= self.greatest {
                    return Ok(Taken::Repeat);
                }
                change(&mut self.items, self.max, news.said)?;
                self.greatest = news.number;
                Ok(Taken::Changed)
            }
        }
    }

    /// Takes a line. Want of memory leaves the mirror as before.
    pub fn take(&mut self, alloc: Global, line: &[u8]) -> Result<Taken, Memory>
        ensures mirror { OnOk result (self.new ≡ mirrored.mirror_with line.now self.old) }
        ensures taken { IfOk result (λ t. t ≡ mirrored.line_taken_as line.now self.old) }
        ensures err { OnErr result (self.new ≡ self.old) }
    {
        let news = news_in(alloc, &self.node, &self.who, line)?;
        self.take_news(news)
    }

    /// The items, in the order of publishing.
    pub fn items(&self) -> &[Copied]
        ensures { result.now ≡ self.now.copy.items }
    {
        self.items.as_slice()
    }
}
