// Trees, made of their parts.
ghost use Rattle.std.specs.Prelude.{◌≡◌, ◌≢◌, ◌∷◌, [], codes, IfOk, OnOk};
ghost use Rattle.ps_types.specs.Elem.{nodes};
ghost use Rattle.ps_types.specs.Shape.{attr_pair, attrs_with, holding, worded};
ghost use Rattle.ps_types.specs.Tree.{tree};

use ps_types::{Attrs, Child, Elem, Kids, Memory, Text};
use std::alloc::Global;

/// Sets an attribute; one without a value is left out.
pub(crate) fn put_pair(
    alloc: Global,
    attrs: &mut Attrs,
    name: &str,
    value: &str,
) -> Result<(), Memory>
    ensures { OnOk result (attrs.new ≡ attr_pair (name.now, value.now) attrs.old) }
{
    if value.is_empty() {
        return Ok(());
    }
    attrs.put(Text::of(alloc, name)?, Text::of(alloc, value)?)?;
    Ok(())
}

/// One attribute.
pub(crate) fn one(alloc: Global, name: &str, value: &str) -> Result<Attrs, Memory>
    ensures { IfOk result (λ a. a ≡ attrs_with ((name.now, value.now) ∷ [])) }
{
    let mut attrs = Attrs::new(alloc);
    put_pair(alloc, &mut attrs, name, value)?;
    Ok(attrs)
}

/// Two attributes.
pub(crate) fn two(
    alloc: Global,
    name: &str,
    value: &str,
    next: &str,
    behind: &str,
) -> Result<Attrs, Memory>
    ensures { IfOk result (λ a. a ≡ attrs_with ((name.now, value.now) ∷ (next.now, behind.now) ∷ [])) }
{
    let mut attrs = one(alloc, next, behind)?;
    put_pair(alloc, &mut attrs, name, value)?;
    Ok(attrs)
}

/// A tree of these attributes and children.
pub(crate) fn element(
    alloc: Global,
    name: &str,
    ns: &str,
    attrs: Attrs,
    kids: Kids,
) -> Result<Elem, Memory>
    requires { name.now ≢ [] }
    ensures { IfOk result (λ t. t ≡ tree name.now ns.now attrs (nodes kids)) }
{
    let name = Text::of(alloc, name)?;
    let ns = Text::of(alloc, ns)?;
    Ok(Elem::new(name, ns, attrs, kids))
}

/// A tree as the only child.
pub(crate) fn only(alloc: Global, elem: Elem) -> Result<Kids, Memory>
    ensures { IfOk result (λ k. nodes k ≡ holding (elem ∷ [])) }
{
    let mut kids = Kids::new(alloc);
    kids.push(Child::Tree(elem))?;
    Ok(kids)
}

/// The text as the only child; an empty one is left out.
pub(crate) fn words(alloc: Global, text: &str) -> Result<Kids, Memory>
    ensures { IfOk result (λ k. nodes k ≡ worded text.now) }
{
    let mut kids = Kids::new(alloc);
    if text.is_empty() {
        return Ok(kids);
    }
    kids.push(Child::Words(Text::of(alloc, text)?))?;
    Ok(kids)
}
