// Trees, made in the words in which the model makes them.
ghost use Rattle.std.specs.Prelude.{◌≡◌, ◌≢◌, ◌∷◌, [], IfOk, OnOk};
ghost use Rattle.ps_types.specs.Attrs.{with_attr};
ghost use Rattle.ps_types.specs.Elem.{nodes};
ghost use Rattle.ps_types.specs.Shape.{attr_pair, holding};
ghost use Rattle.ps_types.specs.Tree.{tree};

use ps_base::Memory;
use ps_types::{Attrs, Child, Elem, Kids, Text};
use std::alloc::Global;

/// Sets an attribute.
pub fn put(alloc: Global, attrs: &mut Attrs, name: &str, value: &str) -> Result<(), Memory>
    ensures { OnOk result (attrs.new ≡ with_attr name.now value.now attrs.old) }
{
    attrs.put(Text::of(alloc, name)?, Text::of(alloc, value)?)?;
    Ok(())
}

/// Sets an attribute; one without a value is left out.
pub fn put_pair(alloc: Global, attrs: &mut Attrs, name: &str, value: &str) -> Result<(), Memory>
    ensures { OnOk result (attrs.new ≡ attr_pair (name.now, value.now) attrs.old) }
{
    if value.is_empty() {
        return Ok(());
    }
    put(alloc, attrs, name, value)
}

/// A tree of these attributes and children.
pub fn element(
    alloc: Global,
    name: &str,
    ns: &str,
    attrs: Attrs,
    kids: Kids,
) -> Result<Elem, Memory>
    requires { name.now ≢ [] }
    ensures { IfOk result (λ t. t ≡ tree name.now ns.now attrs (nodes kids)) }
{
    let name = Text::of(alloc, name)?;
    let ns = Text::of(alloc, ns)?;
    Ok(Elem::new(name, ns, attrs, kids))
}

/// A tree as the only child.
pub fn only(alloc: Global, elem: Elem) -> Result<Kids, Memory>
    ensures { IfOk result (λ k. nodes k ≡ holding (elem ∷ [])) }
{
    let mut kids = Kids::new(alloc);
    kids.push(Child::Tree(elem))?;
    Ok(kids)
}
