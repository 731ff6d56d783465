// From a tree to its form.
ghost use Rattle.std.specs.Prelude.{◌≡◌, ◌++◌, [], Some, None, IfOk, IsErrOf, OnOk};
ghost use Rattle.std.specs.List.{cons_option};
ghost use Rattle.ps_types.specs.Forms as forms;
ghost use Rattle.ps_forms.specs.Vars.{HaveVars};

use crate::kids::{attr, has_name, next_child, texts_of};
use ps_base::Memory;
use ps_namespaces::DATA_FORMS;
use ps_types::{Elem, Field, Fields, Form, FormKind, Text};
use std::alloc::Global;
use thiserror::Error;

/// Why a tree was not read as a form.
#[derive(Clone, Copy, Debug, PartialEq, Eq, Error)]
pub enum FormRefusal {
    /// It is no `x` of the namespace of data forms, or its type is none of the four.
    #[error("no form")]
    NotAForm,
    /// Memory ran out.
    #[error("out of memory")]
    Memory,
}

impl From<Memory> for FormRefusal {
    ghost use Rattle.std.specs.Prelude.{◌≡◌};
    ghost use Rattle.ps_forms.specs.declared.read.FormRefusal.TheVariants as refusal;

    ghost from_gives = { λ _ e. e ≡ refusal.Memory };

    fn from(_e: Memory) -> FormRefusal {
        FormRefusal::Memory
    }
}

fn kind_of(text: &str) -> Option<FormKind>
    ensures { result ≡ forms.kind_of text.now }
{
    match text {
        "form" => Some(FormKind::Form),
        "submit" => Some(FormKind::Submit),
        "cancel" => Some(FormKind::Cancel),
        "result" => Some(FormKind::Result),
        _ => None,
    }
}

// The field that a tree is, which is none where it has no var.
fn field_of(alloc: Global, elem: &Elem) -> Result<Option<Field>, Memory>
    ensures { IfOk result (λ field. field ≡ forms.field_of elem.now) }
{
    let var = attr(elem, "var");
    if var.is_empty() {
        return Ok(None);
    }
    let var = Text::of(alloc, var)?;
    let kind = Text::of(alloc, attr(elem, "type"))?;
    let values = texts_of(alloc, elem, "value", DATA_FORMS)?;
    Ok(Some(Field { var, kind, values }))
}

fn add_field(alloc: Global, fields: &mut Fields, elem: &Elem) -> Result<(), Memory>
    ensures ok { OnOk result (fields.new ≡ fields.old ++ cons_option (forms.field_of elem.now) []) }
{
    match field_of(alloc, elem)? {
        Some(field) => {
            fields.push(field)?;
            Ok(())
        }
        None => Ok(()),
    }
}

fn fields_of(alloc: Global, elem: &Elem) -> Result<Fields, Memory>
    ensures { IfOk result (λ fields. fields ≡ forms.fields_of elem.now) }
{
    let mut fields = Fields::new(alloc);
    let mut rest = elem.kids.as_slice();
    while let Some((child, after)) = next_child(rest, "field", DATA_FORMS) {
        add_field(alloc, &mut fields, child)?;
        rest = after;
    }
    Ok(fields)
}

/// The form that the tree is. A field without a var is skipped.
pub fn read_form(alloc: Global, tree: &Elem) -> Result<Form, FormRefusal>
    ensures ok { IfOk result (λ form. forms.form_of tree.now ≡ Some form) }
    ensures vars { IfOk result (λ form. HaveVars form.fields) }
    ensures not_a_form { IsErrOf result FormRefusal.NotAForm → forms.form_of tree.now ≡ None }
{
    if !has_name(tree, "x", DATA_FORMS) {
        return Err(FormRefusal::NotAForm);
    }
    match kind_of(attr(tree, "type")) {
        Some(kind) => {
            let fields = fields_of(alloc, tree)?;
            Ok(Form { kind, fields })
        }
        None => Err(FormRefusal::NotAForm),
    }
}
