// What is sorted in a capability string, by octets. Equal ones stay in their order.
ghost use Rattle.std.specs.Prelude.{◌≡◌, IfOk, OnOk, map};
ghost use Rattle.ps_types.specs.CapString.{identity_le, field_le, form_le};
ghost use Rattle.ps_types.specs.Ordered.{sort_by, sorted_texts};
ghost use Rattle.ps_caps.specs.Typed.{seen};

use crate::forms::TypedForm;
use ps_base::Memory;
use ps_types::{Field, Fields, Identities, Identity, Text, Texts};

pub(crate) fn identities(identities: &Identities) -> Result<Vec<Identity>, Memory>
    ensures { IfOk result (λ sorted. sorted.items ≡ sort_by identity_le identities.now) }
{
    let mut sorted = identities.clone()?.into_vec();
    sorted.sort()?;
    Ok(sorted)
}

pub(crate) fn texts(texts: &Texts) -> Result<Vec<Text>, Memory>
    ensures { IfOk result (λ sorted. sorted.items ≡ sorted_texts texts.now) }
{
    let mut sorted = texts.clone()?.into_vec();
    sorted.sort()?;
    Ok(sorted)
}

/// Fields by their var.
pub(crate) fn fields(fields: &Fields) -> Result<Vec<Field>, Memory>
    ensures { IfOk result (λ sorted. sorted.items ≡ sort_by field_le fields.now) }
{
    let mut sorted = fields.clone()?.into_vec();
    sorted.sort_by(|a, b| a.var.cmp(&b.var))?;
    Ok(sorted)
}

/// Forms by their type.
pub(crate) fn forms(forms: &mut Vec<TypedForm>) -> Result<(), Memory>
    ensures { OnOk result (map seen forms.new.items ≡ sort_by form_le (map seen forms.old.items)) }
{
    forms.sort_by(|a, b| a.kind.cmp(&b.kind))?;
    Ok(())
}
