// The options of a subscription, read against a base, and the form that they are printed as.
ghost use Rattle.std.specs.Prelude.{◌≡◌, Ok, Err, IfOk, IfErr};
ghost use Rattle.ps_types.specs.Forms as forms;
ghost use Rattle.ps_types.specs.Options as table;
ghost use Rattle.ps_config.specs.Cause.{IsBad};
ghost use Rattle.ps_config.specs.Cells as cells;

use crate::print::{only, type_field};
use crate::values::{deep_in, items_in};
use ps_base::Memory;
use ps_forms::get;
use ps_namespaces::SUBSCRIBE_OPTIONS;
use ps_types::{Field, Fields, Form, FormKind, SubOptions, Text};
use std::alloc::Global;
use thiserror::Error;

const TYPE: &str = "pubsub#subscription_type";

const DEPTH: &str = "pubsub#subscription_depth";

/// Why a form was not read as options.
#[derive(Clone, Copy, Debug, PartialEq, Eq, Error)]
pub enum OptionsRefusal {
    /// The values of this row aren't readable: the first such row, where 1 is the type and 2 the depth.
    #[error("row {0} has no readable value")]
    BadValue(u64),
}

fn items_given(form: &Form, base: bool) -> Option<bool>
    ensures { result ≡ table.option_value table.type_choices base (forms.values_of table.type_var form.now) }
{
    match get(form, TYPE) {
        Some(values) => items_in(values),
        None => Some(base),
    }
}

fn deep_given(form: &Form, base: bool) -> Option<bool>
    ensures { result ≡ table.option_value table.depth_choices base (forms.values_of table.depth_var form.now) }
{
    match get(form, DEPTH) {
        Some(values) => deep_in(values),
        None => Some(base),
    }
}

/// What the form makes of the base. A field that isn't given stays, and others are ignored. It takes no memory.
pub fn read_options(form: &Form, base: SubOptions) -> Result<SubOptions, OptionsRefusal>
    ensures ok { IfOk result (λ o. table.read_options form.now base ≡ Ok o) }
    ensures bad_value { IfErr result (IsBad (table.read_options form.now base)) }
{
    match (items_given(form, base.items), deep_given(form, base.deep)) {
        (None, _) => Err(OptionsRefusal::BadValue(1)),
        (Some(_), None) => Err(OptionsRefusal::BadValue(2)),
        (Some(items), Some(deep)) => Ok(SubOptions { items, deep }),
    }
}

fn choice_field(alloc: Global, var: &str, value: &str) -> Result<Field, Memory>
    ensures { IfOk result (λ field. field ≡ cells.choice_field var.now value.now) }
{
    let var = Text::of(alloc, var)?;
    let kind = Text::of(alloc, "list-single")?;
    let values = only(alloc, value)?;
    Ok(Field { var, kind, values })
}

fn type_text(items: bool) -> &'static str
    ensures { result.now ≡ table.type_text items }
{
    if items { "items" } else { "nodes" }
}

fn depth_text(deep: bool) -> &'static str
    ensures { result.now ≡ table.depth_text deep }
{
    if deep { "all" } else { "1" }
}

/// The form that the options are printed as.
pub fn options_form(alloc: Global, options: SubOptions) -> Result<Form, Memory>
    ensures { IfOk result (λ form. form ≡ table.options_form options) }
{
    let mut fields = Fields::new(alloc);
    fields.push(type_field(alloc, SUBSCRIBE_OPTIONS)?)?;
    fields.push(choice_field(alloc, TYPE, type_text(options.items))?)?;
    fields.push(choice_field(alloc, DEPTH, depth_text(options.deep))?)?;
    Ok(Form {
        kind: FormKind::Form,
        fields,
    })
}
