// The verdicts are asked after each entry.
ghost use Rattle.std.specs.Prelude.{◌≡◌, [], List, IfOk};
ghost use Rattle.ps_audit.specs.Told.{TellsOn};
ghost use Rattle.ps_audit_laws.specs.History.{history};
ghost use Rattle.ps_types.specs.declared.entry.Entry.{Entry};

use crate::asking::four_verdicts;
use crate::codes::stay;
use ps_audit_laws::{ExplainLine, Four};
use ps_base::Memory;
use ps_core::Service;
use ps_hall_open::Observer;
use ps_types::{Entry, Jid, NodeKey};
use std::alloc::Global;

/// How the verdicts for an address at a node come about (XEP-0060 §4.1, §4.5), told as entries are seen: a line at the start, and one after each entry that
/// changes what they say.
#[derive(Drop)]
pub struct Explaining<'a> {
    who: &'a Jid,
    node: &'a NodeKey,
    lines: Vec<ExplainLine>,
    last: Option<Four>,
}

impl<'a> Explaining<'a> {
    /// Before the first entry, when no node stands.
    pub fn new(alloc: Global, who: &'a Jid, node: &'a NodeKey) -> Result<Explaining<'a>, Memory>
        ensures none { IfOk result (λ it. TellsOn it it []) }
        ensures about { IfOk result (λ it. (it.who.now ≡ who.now) × (it.node.now ≡ node.now)) }
    {
        let mut lines = Vec::new(alloc);
        lines.push(ExplainLine {
            after: 0,
            four: None,
        })?;
        Ok(Explaining {
            who,
            node,
            lines,
            last: None,
        })
    }

    /// The lines of the entries that were seen.
    pub fn into_lines(self) -> Vec<ExplainLine>
        ensures { (start : Explaining) (E : List Entry) → TellsOn start self.entry E
            → result.items ≡ history E start.who.now start.node.now }
    {
        let Explaining {
            who: _,
            node: _,
            lines,
            last: _,
        } = self;
        lines
    }
}

impl<'a> Observer for Explaining<'a> {
    ghost saw = { TellsOn };

    fn see(&mut self, service: &Service, _entry: Entry) -> Result<(), Memory> {
        let four = four_verdicts(service.tables(), self.node, self.who);
        if !stay(&four, &self.last) {
            let after = service.count();
            self.lines.push(ExplainLine { after, four })?;
            self.last = four;
        }
        Ok(())
    }
}
