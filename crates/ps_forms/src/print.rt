// From a form to its tree.
ghost use Rattle.std.specs.Prelude.{◌≡◌, ◌∷◌, [], map, codes, IfOk};
ghost use Rattle.ps_types.specs.Elem.{nodes};
ghost use Rattle.ps_types.specs.Forms as forms;
ghost use Rattle.ps_types.specs.Shape.{attrs_with, holding};

use crate::build::{element, put_pair, words};
use ps_base::Memory;
use ps_types::{Attrs, Child, Elem, Field, Form, FormKind, Kids, Text};
use std::alloc::Global;

fn kind_text(kind: FormKind) -> &'static str
    ensures { result.now ≡ forms.kind_text kind }
{
    match kind {
        FormKind::Form => "form",
        FormKind::Submit => "submit",
        FormKind::Cancel => "cancel",
        FormKind::Result => "result",
    }
}

fn value_tree(alloc: Global, value: &Text) -> Result<Elem, Memory>
    ensures { IfOk result (λ t. t ≡ forms.value_tree value.now) }
{
    let kids = words(alloc, value.as_str())?;
    element(alloc, "value", Attrs::new(alloc), kids)
}

fn value_kids(alloc: Global, values: &[Text]) -> Result<Kids, Memory>
    ensures { IfOk result (λ k. nodes k ≡ holding (map forms.value_tree values.now)) }
{
    let mut kids = Kids::new(alloc);
    for value in values {
        kids.push(Child::Tree(value_tree(alloc, value)?))?;
    }
    Ok(kids)
}

fn field_attrs(alloc: Global, field: &Field) -> Result<Attrs, Memory>
    ensures { IfOk result (λ a. a ≡ attrs_with ((codes "type", field.now.kind) ∷ (codes "var", field.now.var) ∷ [])) }
{
    let mut attrs = Attrs::new(alloc);
    put_pair(alloc, &mut attrs, "var", field.var.as_str())?;
    put_pair(alloc, &mut attrs, "type", field.kind.as_str())?;
    Ok(attrs)
}

fn field_tree(alloc: Global, field: &Field) -> Result<Elem, Memory>
    ensures { IfOk result (λ t. t ≡ forms.field_tree field.now) }
{
    let attrs = field_attrs(alloc, field)?;
    let kids = value_kids(alloc, field.values.as_slice())?;
    element(alloc, "field", attrs, kids)
}

fn field_kids(alloc: Global, fields: &[Field]) -> Result<Kids, Memory>
    ensures { IfOk result (λ k. nodes k ≡ holding (map forms.field_tree fields.now)) }
{
    let mut kids = Kids::new(alloc);
    for field in fields {
        kids.push(Child::Tree(field_tree(alloc, field)?))?;
    }
    Ok(kids)
}

/// The tree that the form is printed as.
pub fn form_tree(alloc: Global, form: &Form) -> Result<Elem, Memory>
    ensures { IfOk result (λ t. t ≡ forms.form_tree form.now) }
{
    let mut attrs = Attrs::new(alloc);
    put_pair(alloc, &mut attrs, "type", kind_text(form.kind))?;
    let kids = field_kids(alloc, form.fields.as_slice())?;
    element(alloc, "x", attrs, kids)
}
