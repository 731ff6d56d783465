// What the messages of one event have in common.
ghost use Rattle.std.specs.Prelude.{◌≡◌, IfOk};
ghost use Rattle.std.specs.Arc.{arc_value};
ghost use Rattle.ps_types.specs.Address.{jid_text};
ghost use Rattle.ps_drafts.specs.Parts as parts;

use crate::trees::{kids_of, message};
use crate::words::with_quoted;
use ps_base::Memory;
use ps_types::{Elem, Jid, NoticeKind, Text};
use ps_wire::print_tree;
use std::alloc::Global;
use std::marker::Model;
use std::sync::Arc;

/// The messages that carry an event, but for their address, their id and the collection that they name.
#[derive(Drop)]
pub struct EventForm {
    from: Text,
    kind: NoticeKind,
    event: Arc<Elem>,
    front: Vec<u8>,
    back: Vec<u8>,
}

impl Model for EventForm {
    ghost use Rattle.std.specs.Prelude.{◌≡◌};
    ghost use Rattle.std.specs.Arc.{arc_value};
    ghost use Rattle.ps_drafts.specs.Parts.{Shape, front_of, back_of};

    ghost Value = { Shape };

    ghost use Rattle.std.specs.Coded.{codes};
    ghost use Rattle.ps_types.specs.TreeCode.{tree_code};

    ghost coded = { Prim.hlevel (codes, tree_code) };

    ghost view = { λ f. record { from = f.from; kind = f.kind; event = arc_value f.event } };

    ghost invariant = { λ f. (f.front.items ≡ front_of f.from) × (f.back.items ≡ back_of f.kind (arc_value f.event)) };
}

// The text before the id.
fn front_of(alloc: Global, from: &str) -> Result<Vec<u8>, Memory>
    ensures { IfOk result (λ v. v.items ≡ parts.front_of from.now) }
{
    let mut front = Vec::new(alloc);
    front.extend_from_slice(b"{\"a\":{\"from\":")?;
    let mut front = with_quoted(front, from)?;
    front.extend_from_slice(b",\"id\":")?;
    Ok(front)
}

fn kind_text(kind: NoticeKind) -> &'static [u8]
    ensures { result.now ≡ parts.kind_text kind }
{
    match kind {
        NoticeKind::Normal => b"},\"c\":[",
        NoticeKind::Headline => b",\"type\":\"headline\"},\"c\":[",
    }
}

// The text behind the address, up to what follows the event.
fn back_of(alloc: Global, kind: NoticeKind, event: &Elem) -> Result<Vec<u8>, Memory>
    ensures { IfOk result (λ v. v.items ≡ parts.back_of kind event.now) }
{
    let mut back = Vec::new(alloc);
    back.extend_from_slice(kind_text(kind))?;
    let event = print_tree(alloc, event)?;
    back.extend_from_slice(event.as_slice())?;
    Ok(back)
}

impl EventForm {
    /// The messages of this kind from the address that carry the event.
    pub fn new(
        alloc: Global,
        from: &Jid,
        kind: NoticeKind,
        event: &Arc<Elem>,
    ) -> Result<EventForm, Memory>
        ensures { IfOk result (λ f. f ≡ record { from = jid_text from.now; kind = kind; event = arc_value event.now }) }
    {
        let from = from.text(alloc)?;
        let front = front_of(alloc, from.as_str())?;
        let back = back_of(alloc, kind, event)?;
        let event = Arc::try_clone(event)?;
        Ok(EventForm {
            from,
            kind,
            event,
            front,
            back,
        })
    }

    /// How many bytes the text of each message has at least.
    pub(crate) fn len(&self) -> usize {
        self.front.len().saturating_add(self.back.len())
    }

    /// The text before the id.
    pub(crate) fn front(&self) -> &[u8]
        ensures { result.now ≡ parts.front_of self.now.from }
    {
        self.front.as_slice()
    }

    /// The text behind the address, up to what follows the event.
    pub(crate) fn back(&self) -> &[u8]
        ensures { result.now ≡ parts.back_of self.now.kind self.now.event }
    {
        self.back.as_slice()
    }
    /// The message to the address of that text, which names that collection, where there is one.
    pub(crate) fn tree(
        &self,
        alloc: Global,
        to: &Text,
        through: &Option<Text>,
    ) -> Result<Elem, Memory>
        ensures { IfOk result (λ t. t ≡ parts.message_of self.now to.now through.now) }
    {
        let kids = kids_of(alloc, &self.event, through)?;
        message(alloc, self.from.as_str(), to.as_str(), self.kind, kids)
    }
}
