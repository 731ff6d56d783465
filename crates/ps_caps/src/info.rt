// From a `query` to the answer that it is.
ghost use Rattle.std.specs.Prelude.{◌≡◌, ◌++◌, [], IfOk, OnOk, codes, map};
ghost use Rattle.std.specs.List.{cons_option, filter_map};
ghost use Rattle.ps_types.specs.CapString as string;
ghost use Rattle.ps_types.specs.Forms.{form_of};
ghost use Rattle.ps_types.specs.Namespaces.{data_ns, info_ns};
ghost use Rattle.ps_types.specs.Shape.{children_of};

use ps_base::Memory;
use ps_forms::{FormRefusal, attr, next_child, read_form};
use ps_namespaces::{DATA_FORMS, DISCO_INFO};
use ps_types::{Elem, Forms, Identities, Identity, Info, Text, Texts};
use std::alloc::Global;

fn identity_of(alloc: Global, elem: &Elem) -> Result<Identity, Memory>
    ensures { IfOk result (λ identity. identity ≡ string.identity_of elem.now) }
{
    let category = Text::of(alloc, attr(elem, "category"))?;
    let kind = Text::of(alloc, attr(elem, "type"))?;
    let lang = Text::of(alloc, attr(elem, "xml:lang"))?;
    let name = Text::of(alloc, attr(elem, "name"))?;
    Ok(Identity {
        category,
        kind,
        lang,
        name,
    })
}

fn identities_of(alloc: Global, query: &Elem) -> Result<Identities, Memory>
    ensures { IfOk result
        (λ identities. identities ≡ map string.identity_of (children_of (codes "identity") info_ns query.now)) }
{
    let mut identities = Identities::new(alloc);
    let mut rest = query.kids.as_slice();
    while let Some((child, after)) = next_child(rest, "identity", DISCO_INFO) {
        identities.push(identity_of(alloc, child)?)?;
        rest = after;
    }
    Ok(identities)
}

fn features_of(alloc: Global, query: &Elem) -> Result<Texts, Memory>
    ensures { IfOk result
        (λ features. features ≡ map string.feature_of (children_of (codes "feature") info_ns query.now)) }
{
    let mut features = Texts::new(alloc);
    let mut rest = query.kids.as_slice();
    while let Some((child, after)) = next_child(rest, "feature", DISCO_INFO) {
        features.push(Text::of(alloc, attr(child, "var"))?)?;
        rest = after;
    }
    Ok(features)
}

fn add_form(alloc: Global, forms: &mut Forms, elem: &Elem) -> Result<(), Memory>
    ensures { OnOk result (forms.new ≡ forms.old ++ cons_option (form_of elem.now) []) }
{
    match read_form(alloc, elem) {
        Ok(form) => {
            forms.push(form)?;
            Ok(())
        }
        Err(FormRefusal::NotAForm) => Ok(()),
        Err(FormRefusal::Memory) => Err(Memory),
    }
}

fn forms_of(alloc: Global, query: &Elem) -> Result<Forms, Memory>
    ensures { IfOk result (λ forms. forms ≡ filter_map form_of (children_of (codes "x") data_ns query.now)) }
{
    let mut forms = Forms::new(alloc);
    let mut rest = query.kids.as_slice();
    while let Some((child, after)) = next_child(rest, "x", DATA_FORMS) {
        add_form(alloc, &mut forms, child)?;
        rest = after;
    }
    Ok(forms)
}

/// What an entity answers of itself by a `query` (XEP-0030 §3.1, with the forms of XEP-0128). An attribute that is missing is empty, and an
/// `x` that is no form is skipped. The only refusal is out of memory.
pub fn read_info(alloc: Global, query: &Elem) -> Result<Info, Memory>
    ensures { IfOk result (λ info. info ≡ string.info_of query.now) }
{
    let identities = identities_of(alloc, query)?;
    let features = features_of(alloc, query)?;
    let forms = forms_of(alloc, query)?;
    Ok(Info {
        identities,
        features,
        forms,
    })
}
