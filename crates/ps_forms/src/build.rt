// Trees, made of their parts.
ghost use Rattle.std.specs.Prelude.{◌≡◌, ◌≢◌, ◌∷◌, [], IfOk, OnOk};
ghost use Rattle.ps_types.specs.Elem.{nodes};
ghost use Rattle.ps_types.specs.Namespaces.{data_ns};
ghost use Rattle.ps_types.specs.Shape.{attr_pair, worded};
ghost use Rattle.ps_types.specs.Tree.{tree};

use ps_base::Memory;
use ps_namespaces::DATA_FORMS;
use ps_types::{Attrs, Child, Elem, Kids, Text};
use std::alloc::Global;

/// Sets an attribute; one without a value is left out.
pub(crate) fn put_pair(
    alloc: Global,
    attrs: &mut Attrs,
    name: &str,
    value: &str,
) -> Result<(), Memory>
    ensures { OnOk result (attrs.new ≡ attr_pair (name.now, value.now) attrs.old) }
{
    if value.is_empty() {
        return Ok(());
    }
    attrs.put(Text::of(alloc, name)?, Text::of(alloc, value)?)?;
    Ok(())
}

/// A tree of these attributes and children, in the namespace of data forms.
pub(crate) fn element(alloc: Global, name: &str, attrs: Attrs, kids: Kids) -> Result<Elem, Memory>
    requires { name.now ≢ [] }
    ensures { IfOk result (λ t. t ≡ tree name.now data_ns attrs (nodes kids)) }
{
    let name = Text::of(alloc, name)?;
    let ns = Text::of(alloc, DATA_FORMS)?;
    Ok(Elem::new(name, ns, attrs, kids))
}

/// The text as the only child; an empty one is left out.
pub(crate) fn words(alloc: Global, text: &str) -> Result<Kids, Memory>
    ensures { IfOk result (λ k. nodes k ≡ worded text.now) }
{
    let mut kids = Kids::new(alloc);
    if text.is_empty() {
        return Ok(kids);
    }
    kids.push(Child::Words(Text::of(alloc, text)?))?;
    Ok(kids)
}
