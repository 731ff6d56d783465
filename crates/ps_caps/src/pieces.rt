// The pieces of a capability string (XEP-0115 §5.1).
ghost use Rattle.std.specs.Prelude.{◌≡◌, ◌++◌, OnOk, codes, string_bytes};
ghost use Rattle.std.specs.List.{flat_map};
ghost use Rattle.ps_types.specs.CapString as string;

use crate::forms::TypedForm;
use crate::sorted;
use ps_base::Memory;
use ps_types::{Field, Identity, Text};

/// What a capability string has a piece for.
pub(crate) trait Piece {
    ghost use Rattle.std.specs.Prelude.{◌≡◌, ◌++◌, List, ℕ, OnOk, string_bytes};

    ghost piece: { Self → List ℕ };

    /// Adds its piece to the string. A refused call may leave a part of it.
    fn add_to(&self, out: &mut String) -> Result<(), Memory>
        ensures { OnOk result (string_bytes out.new ≡ string_bytes out.old ++ piece self.now) };
}

/// Adds the pieces in order.
pub(crate) fn add_all<T: Piece>(out: &mut String, items: &[T]) -> Result<(), Memory>
    ensures { OnOk result (string_bytes out.new ≡ string_bytes out.old ++ flat_map T.piece items.now) }
{
    for item in items {
        item.add_to(out)?;
    }
    Ok(())
}

// Adds a text and what ends it.
fn add_ended(out: &mut String, text: &Text) -> Result<(), Memory>
    ensures { OnOk result (string_bytes out.new ≡ string_bytes out.old ++ string.ended text.now) }
{
    out.push_str(text.as_str())?;
    out.push_str("<")?;
    Ok(())
}

impl Piece for Text {
    ghost use Rattle.ps_types.specs.CapString.{ended};

    ghost piece = { ended };

    fn add_to(&self, out: &mut String) -> Result<(), Memory> {
        add_ended(out, self)
    }
}

// Adds a text and a slash.
fn add_part(out: &mut String, text: &Text) -> Result<(), Memory>
    ensures { OnOk result (string_bytes out.new ≡ string_bytes out.old ++ (text.now ++ codes "/")) }
{
    out.push_str(text.as_str())?;
    out.push_str("/")?;
    Ok(())
}

impl Piece for Identity {
    ghost use Rattle.ps_types.specs.CapString.{identity_text};

    ghost piece = { identity_text };

    fn add_to(&self, out: &mut String) -> Result<(), Memory> {
        add_part(out, &self.category)?;
        add_part(out, &self.kind)?;
        add_part(out, &self.lang)?;
        add_ended(out, &self.name)
    }
}

impl Piece for Field {
    ghost use Rattle.ps_types.specs.CapString.{field_text};

    ghost piece = { field_text };

    fn add_to(&self, out: &mut String) -> Result<(), Memory> {
        add_ended(out, &self.var)?;
        let values = sorted::texts(&self.values)?;
        add_all(out, &values)
    }
}

impl Piece for TypedForm {
    ghost use Rattle.ps_types.specs.CapString.{form_text};
    ghost use Rattle.ps_caps.specs.Typed.{seen};

    ghost piece = { λ form. form_text (seen form) };

    fn add_to(&self, out: &mut String) -> Result<(), Memory> {
        add_ended(out, &self.kind)?;
        let others = sorted::fields(&self.others)?;
        add_all(out, &others)
    }
}
