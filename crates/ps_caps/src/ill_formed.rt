// What makes an answer ill-formed (XEP-0115 §5.4).
ghost use Rattle.std.specs.Prelude.{◌≡◌, Bool};
ghost use Rattle.std.specs.List.{list_all};
ghost use Rattle.ps_types.specs.CapString as string;
ghost use Rattle.ps_caps.specs.Typed.{seen};
ghost use Rattle.ps_caps.specs.Repeated.{neighbours, shows_ill};

use crate::forms::TypedForm;
use ps_types::{Identity, Text};

// What may stand in an answer only once.
trait Once {
    ghost use Rattle.std.specs.Prelude.{◌≡◌, Bool};

    ghost same: { Self → Self → Bool };

    // Whether the two may not stand in one answer.
    fn is_same(&self, other: &Self) -> bool
        ensures { result ≡ same self.now other.now };
}

impl Once for Text {
    ghost use Rattle.std.specs.Str.{bytes_eq};

    ghost same = { bytes_eq };

    fn is_same(&self, other: &Text) -> bool {
        self == other
    }
}

impl Once for Identity {
    ghost use Rattle.ps_types.specs.CapString.{same_identity};

    ghost same = { same_identity };

    fn is_same(&self, other: &Identity) -> bool {
        self.category == other.category
            && self.kind == other.kind
            && self.lang == other.lang
            && self.name == other.name
    }
}

impl Once for TypedForm {
    ghost use Rattle.ps_types.specs.CapString.{same_type};
    ghost use Rattle.ps_caps.specs.Typed.{seen};

    ghost same = { λ a b. same_type (seen a) (seen b) };

    fn is_same(&self, other: &TypedForm) -> bool {
        self.kind == other.kind
    }
}

// Whether one stands twice, one right after the other.
fn has_neighbours<T: Once>(items: &[T]) -> bool
    ensures { result ≡ neighbours T.same items.now }
{
    let mut rest = items;
    while let Some((first, tail)) = rest.split_first() {
        if let Some(second) = tail.first() {
            if first.is_same(second) {
                return true;
            }
        }
        rest = tail;
    }
    false
}

// Whether the values of its `FORM_TYPE` are all one.
fn has_one_type(form: &TypedForm) -> bool
    ensures { result ≡ string.has_one_type (seen form.now) }
{
    form.more.as_slice().iter().all(|value| form.kind == *value)
}

// Whether the values of each `FORM_TYPE` are all one.
fn have_one_type(forms: &[TypedForm]) -> bool
    ensures { result ≡ list_all (λ form. string.has_one_type (seen form)) forms.now }
{
    forms.iter().all(|form| has_one_type(form))
}

/// Whether an answer is ill-formed, by its sorted identities, features and forms.
pub(crate) fn is_ill_formed(identities: &[Identity], features: &[Text], forms: &[TypedForm]) -> bool
    ensures { result ≡ shows_ill identities.now features.now forms.now }
{
    has_neighbours(identities)
        || has_neighbours(features)
        || has_neighbours(forms)
        || !have_one_type(forms)
}
