// The verification string of an answer.
ghost use Rattle.std.specs.Prelude.{◌≡◌, ◌↔◌, ◌++◌, Some, None, true, false, IfOk, OnOk, IsErrOf, IsTrue, map, string_bytes};
ghost use Rattle.std.specs.List.{flat_map};
ghost use Rattle.ps_types.specs.CapString as string;
ghost use Rattle.ps_types.specs.CapVer as caps;
ghost use Rattle.ps_caps.specs.Typed.{seen};

use crate::forms::{TypedForm, typed_forms};
use crate::ill_formed::is_ill_formed;
use crate::pieces::add_all;
use crate::sorted;
use base64::engine::general_purpose::STANDARD;
use ps_base::Memory;
use ps_types::{Identity, Info, Text};
use sha1::Sha1;
use std::alloc::{AllocError, Global};

/// Why an answer has no verification string.
#[derive(Clone, Copy, Debug, PartialEq, Eq)]
pub enum VerRefusal {
    /// An identity or a feature is repeated, two forms have one type, or a type has values that differ (XEP-0115 §5.4).
    IllFormed,
    /// Memory ran out.
    Memory,
}

impl From<Memory> for VerRefusal {
    ghost use Rattle.std.specs.Prelude.{◌≡◌};
    ghost use Rattle.ps_caps.specs.declared.ver.VerRefusal.TheVariants as refusal;

    ghost from_gives = { λ _ e. e ≡ refusal.Memory };

    fn from(_e: Memory) -> VerRefusal {
        VerRefusal::Memory
    }
}

// The base64 of the SHA-1 of a capability string.
fn string_ver(alloc: Global, string: &str) -> Result<Text, Memory>
    ensures { IfOk result (λ ver. ver ≡ caps.string_ver string.now) }
{
    let digest = Sha1::digest(string.as_bytes());
    Ok(Text::from_string(STANDARD.encode(alloc, &digest)?))
}

fn cap_string(
    alloc: Global,
    identities: &[Identity],
    features: &[Text],
    forms: &[TypedForm],
) -> Result<String, Memory>
    ensures { IfOk result
        (λ text. string_bytes text ≡ flat_map string.identity_text identities.now ++ flat_map string.ended features.now
        ++ flat_map (λ form. string.form_text (seen form)) forms.now) }
{
    let mut string = String::new(alloc);
    add_all(&mut string, identities)?;
    add_all(&mut string, features)?;
    add_all(&mut string, forms)?;
    Ok(string)
}

/// The verification string of an answer (XEP-0115 §5.1): the base64 of the SHA-1 of its capability string. The answer is ill-formed
/// exactly where an identity (all four parts) or a feature is repeated, two forms that count have one type, or a form's `FORM_TYPE` has
/// values that differ (XEP-0115 §5.4).
pub fn ver_of(alloc: Global, info: &Info) -> Result<Text, VerRefusal>
    ensures ok { IfOk result (λ ver. caps.ver_of info.now ≡ Some ver) }
    ensures ill_formed { IsErrOf result VerRefusal.IllFormed → caps.ver_of info.now ≡ None }
{
    let identities = sorted::identities(&info.identities)?;
    let features = sorted::texts(&info.features)?;
    let mut forms = typed_forms(alloc, info)?;
    sorted::forms(&mut forms)?;
    if is_ill_formed(&identities, &features, &forms) {
        return Err(VerRefusal::IllFormed);
    }
    let string = cap_string(alloc, &identities, &features, &forms)?;
    Ok(string_ver(alloc, string.as_str())?)
}

/// Whether an answer has that verification string (XEP-0115 §5.4). It is refused exactly as by [`ver_of`].
pub fn check(alloc: Global, info: &Info, ver: &Text) -> Result<bool, VerRefusal>
    ensures ok { IfOk result (λ agrees. IsTrue agrees ↔ (caps.ver_of info.now ≡ Some ver.now)) }
    ensures well_formed { OnOk result (string.is_ill_formed info.now ≡ false) }
    ensures ill_formed { IsErrOf result VerRefusal.IllFormed → string.is_ill_formed info.now ≡ true }
{
    let own = ver_of(alloc, info)?;
    Ok(own == *ver)
}
