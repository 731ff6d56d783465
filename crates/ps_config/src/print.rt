// The form that a configuration is printed as.
ghost use Rattle.std.specs.Prelude.{◌≡◌, ◌++◌, ◌∷◌, [], map, IfOk, OnOk};
ghost use Rattle.ps_types.specs.Config as table;
ghost use Rattle.ps_config.specs.Cells.{cell_type, cell_values};
ghost use Rattle.ps_config.specs.Rows.{row_of, all_rows};

use crate::row::{Cell, Setting, cell_of, rows, var_of};
use ps_base::Memory;
use ps_namespaces::NODE_CONFIG;
use ps_types::{Field, Fields, Form, FormKind, NodeConfig, Text, Texts};
use std::alloc::Global;

/// One value.
pub(crate) fn only(alloc: Global, value: &str) -> Result<Texts, Memory>
    ensures { IfOk result (λ texts. texts ≡ value.now ∷ []) }
{
    let mut texts = Texts::new(alloc);
    texts.push(Text::of(alloc, value)?)?;
    Ok(texts)
}

/// The field that says what a form is about (XEP-0068).
pub(crate) fn type_field(alloc: Global, about: &str) -> Result<Field, Memory>
    ensures { IfOk result (λ field. field ≡ table.type_field about.now) }
{
    let var = Text::of(alloc, "FORM_TYPE")?;
    let kind = Text::of(alloc, "hidden")?;
    let values = only(alloc, about)?;
    Ok(Field { var, kind, values })
}

fn type_of(cell: &Cell<'_>) -> &'static str
    ensures { result.now ≡ cell_type cell.now }
{
    match cell {
        Cell::Line(_) | Cell::Number(_) => "text-single",
        Cell::Flag(_) => "boolean",
        Cell::Word(_) => "list-single",
        Cell::Lines(_) => "list-multi",
    }
}

fn copy_of(texts: &Texts) -> Result<Texts, Memory>
    ensures { IfOk result (λ copy. copy ≡ texts.now) }
{
    Ok(texts.clone()?)
}

fn values_of(alloc: Global, cell: &Cell<'_>) -> Result<Texts, Memory>
    ensures { IfOk result (λ texts. texts ≡ cell_values cell.now) }
{
    match cell {
        Cell::Line(text) => only(alloc, text.as_str()),
        Cell::Flag(true) => only(alloc, "1"),
        Cell::Flag(false) => only(alloc, "0"),
        Cell::Number(number) => only(alloc, number.to_string(alloc)?.as_str()),
        Cell::Word(word) => only(alloc, word),
        Cell::Lines(texts) => copy_of(texts),
    }
}

fn config_field(alloc: Global, config: &NodeConfig, row: Setting) -> Result<Field, Memory>
    ensures { IfOk result (λ field. field ≡ table.config_field config.now (row_of row)) }
{
    let cell = cell_of(config, row);
    let var = Text::of(alloc, var_of(row))?;
    let kind = Text::of(alloc, type_of(&cell))?;
    let values = values_of(alloc, &cell)?;
    Ok(Field { var, kind, values })
}

fn add_rows(alloc: Global, config: &NodeConfig, fields: &mut Fields) -> Result<(), Memory>
    ensures { OnOk result (fields.new ≡ fields.old ++ map (table.config_field config.now) (map row_of all_rows)) }
{
    for row in rows() {
        fields.push(config_field(alloc, config, *row)?)?;
    }
    Ok(())
}

/// The form that the configuration is printed as.
pub fn config_form(alloc: Global, config: &NodeConfig) -> Result<Form, Memory>
    ensures { IfOk result (λ form. form ≡ table.config_form config.now) }
{
    let mut fields = Fields::new(alloc);
    fields.push(type_field(alloc, NODE_CONFIG)?)?;
    add_rows(alloc, config, &mut fields)?;
    Ok(Form {
        kind: FormKind::Form,
        fields,
    })
}
