// The forms that count in a capability string (XEP-0115 §5.1): those with a hidden `FORM_TYPE` that has a value.
ghost use Rattle.std.specs.Prelude.{◌≡◌, ◌<◌, ◌++◌, [], ◌∷◌, IfOk, IfSome, OnOk, option_map, map, position, length};
ghost use Rattle.std.specs.List.{cons_option};
ghost use Rattle.ps_types.specs.CapString as string;
ghost use Rattle.ps_types.specs.Forms.{is_field};
ghost use Rattle.ps_types.specs.Ordered.{sort_by};
ghost use Rattle.ps_caps.specs.Typed.{seen};

use ps_base::Memory;
use ps_types::{Field, Fields, Form, Info, Text, Texts};
use std::alloc::Global;

/// A form that counts: the first value of its `FORM_TYPE`, that field's other values, and the form's other fields.
#[derive(Drop)]
pub(crate) struct TypedForm {
    pub(crate) kind: Text,
    pub(crate) more: Texts,
    pub(crate) others: Fields,
}

// The place of the first field of that var.
fn place_of(fields: &[Field], var: &str) -> Option<usize>
    ensures { result ≡ position (is_field var.now) fields.now }
{
    fields.iter().position(|field| field.var.is(var))
}

// The form by the values of its `FORM_TYPE`, of which there may be none.
fn typed_by(values: Texts, others: Fields) -> Option<TypedForm>
    ensures { option_map seen result ≡ string.typed_by values others }
{
    let mut more = values.into_vec();
    if more.is_empty() {
        return None;
    }
    let kind = more.remove(0);
    Some(TypedForm {
        kind,
        more: Texts::from_vec(more),
        others,
    })
}

fn typed(form: &Form) -> Result<Option<TypedForm>, Memory>
    ensures { IfOk result (λ o. option_map seen o ≡ string.typed form.now) }
{
    let Some(at) = place_of(form.fields.as_slice(), "FORM_TYPE") else {
        return Ok(None);
    };
    if !form.fields.as_slice()[at].kind.is("hidden") {
        return Ok(None);
    }
    let mut others = form.fields.clone()?.into_vec();
    let field = others.remove(at);
    Ok(typed_by(field.values, Fields::from_vec(others)))
}

fn add_typed(forms: &mut Vec<TypedForm>, form: &Form) -> Result<(), Memory>
    ensures { OnOk result
        (map seen forms.new.items ≡ map seen forms.old.items ++ cons_option (string.typed form.now) []) }
{
    match typed(form)? {
        Some(form) => {
            forms.push(form)?;
            Ok(())
        }
        None => Ok(()),
    }
}

/// The forms that count, in the answer's order.
pub(crate) fn typed_forms(alloc: Global, info: &Info) -> Result<Vec<TypedForm>, Memory>
    ensures { IfOk result (λ forms. map seen forms.items ≡ string.typed_forms info.now) }
{
    let mut forms = Vec::new(alloc);
    for form in info.forms.as_slice() {
        add_typed(&mut forms, form)?;
    }
    Ok(forms)
}
