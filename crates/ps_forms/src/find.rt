// Looking into a form.
ghost use Rattle.std.specs.Prelude.{◌≡◌, option_map, find};
ghost use Rattle.ps_types.specs.Forms as forms;

use ps_types::{Field, Form, Text, Texts};

fn field_at<'a>(fields: &'a [Field], var: &str) -> Option<&'a Field>
    ensures { option_map (λ field. field.now) result ≡ find (forms.is_field var.now) fields.now }
{
    fields.iter().find(|field| field.var.is(var))
}

/// The values of the first field of that var.
pub fn get<'a>(form: &'a Form, var: &str) -> Option<&'a Texts>
    ensures { option_map (λ values. values.now) result ≡ forms.values_of var.now form.now }
{
    match field_at(form.fields.as_slice(), var) {
        Some(field) => Some(&field.values),
        None => None,
    }
}

/// What the form is about (XEP-0068): the first value of its `FORM_TYPE`.
pub fn form_type(form: &Form) -> Option<&Text>
    ensures { option_map (λ text. text.now) result ≡ forms.form_type form.now }
{
    match get(form, "FORM_TYPE") {
        Some(values) => values.as_slice().first(),
        None => None,
    }
}
