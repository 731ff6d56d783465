// What a follower answers.
ghost use Rattle.std.specs.Prelude.{◌≡◌, ◌∷◌, [], IfOk, IfSome, None, codes};
ghost use Rattle.ps_types.specs.Address.{jid_text};
ghost use Rattle.ps_types.specs.Attrs.{with_attr};
ghost use Rattle.ps_types.specs.Elem.{nodes};
ghost use Rattle.ps_types.specs.Shape.{attr_pair, holding};
ghost use Rattle.ps_follow_laws.specs.Answer.{not_allowed, refusal};
ghost use Rattle.ps_follow.specs.Answering.{IsRefusal};

use ps_base::Memory;
use ps_names::{element, only, put, put_pair};
use ps_namespaces::{CLIENT, STANZA_ERRORS};
use ps_request::{Head, head_of, is_answered};
use ps_types::{Attrs, Elem, Entry, Kids, Request};
use std::alloc::Global;

/// The answer to a line: how many entries it is given at, and the reply, if there is one.
pub struct FollowAnswer {
    pub place: u64,
    pub reply: Option<Elem>,
}

// By hand, so that it is let go by one call wherever a function ends.
impl Drop for FollowAnswer {
    fn drop(self) {
        let FollowAnswer { place: _, reply: _ } = self;
    }
}

impl FollowAnswer {
    /// The reply.
    pub fn into_reply(self) -> Option<Elem>
        ensures { result ≡ self.reply }
    {
        let Self { place: _, reply } = self;
        reply
    }
}

// The `error` child of a stanza: `not-allowed` of type `cancel` (RFC 6120 §8.3.3.10).
fn error_child(alloc: Global) -> Result<Elem, Memory>
    ensures { IfOk result (λ t. t ≡ not_allowed) }
{
    let plain = element(
        alloc,
        "not-allowed",
        STANZA_ERRORS,
        Attrs::new(alloc),
        Kids::new(alloc),
    )?;
    let mut attrs = Attrs::new(alloc);
    put_pair(alloc, &mut attrs, "type", "cancel")?;
    element(alloc, "error", CLIENT, attrs, only(alloc, plain)?)
}

// The attributes of the reply; an empty id is left out.
fn error_attrs(alloc: Global, head: &Head) -> Result<Attrs, Memory>
    ensures { IfOk result (λ a. a ≡ with_attr (codes "from") (jid_text head.now.target) (attr_pair (
      codes
          "id",
      head.now.id,
    ) (with_attr (codes "to") (jid_text head.now.sender) (attr_pair (codes "type", codes "error") [])))) }
{
    let mut attrs = Attrs::new(alloc);
    put_pair(alloc, &mut attrs, "type", "error")?;
    put(alloc, &mut attrs, "to", head.sender.text(alloc)?.as_str())?;
    put_pair(alloc, &mut attrs, "id", head.id.as_str())?;
    put(alloc, &mut attrs, "from", head.target.text(alloc)?.as_str())?;
    Ok(attrs)
}

// The reply to a stanza whose request would make an entry.
fn refused(alloc: Global, tree: &Elem, request: &Request) -> Result<Option<Elem>, Memory>
    ensures { IfOk result (λ o. o ≡ refusal tree.now request.now) }
{
    if !is_answered(tree) {
        return Ok(None);
    }
    tree.know();
    let sender = request.from.clone()?;
    let target = request.target.clone()?;
    let head = head_of(alloc, tree, sender, target)?;
    let attrs = error_attrs(alloc, &head)?;
    let kids = only(alloc, error_child(alloc)?)?;
    let reply = element(alloc, head.name.as_str(), CLIENT, attrs, kids)?;
    Ok(Some(reply))
}

// The reply to a line that would make this entry, whose tree is taken as this request.
fn refusal_of(
    alloc: Global,
    entry: &Entry,
    request: &Option<Request>,
) -> Result<Option<Elem>, Memory>
    ensures { IfOk result (IsRefusal entry.now request.now) }
{
    match (entry, request) {
        (Entry::Change { tree, .. }, Some(request)) => refused(alloc, tree, request),
        _ => Ok(None),
    }
}

/// What a line is answered in place of what the service has for it: the reply and the entry, and the request that the tree of the entry is taken as.
pub(crate) fn reply_for(
    alloc: Global,
    reply: Option<Elem>,
    entry: &Option<Entry>,
    request: &Option<Request>,
) -> Result<Option<Elem>, Memory>
    ensures none { entry.now ≡ None → IfOk result (λ o. o ≡ reply) }
    ensures some { IfSome entry.now (λ e. IfOk result (IsRefusal e request.now)) }
{
    match entry {
        None => Ok(reply),
        Some(entry) => refusal_of(alloc, entry, request),
    }
}
