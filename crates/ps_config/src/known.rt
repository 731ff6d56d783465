// Which fields are rows of the configuration.
ghost use Rattle.std.specs.Prelude.{◌≡◌, bytes_eq};
ghost use Rattle.std.specs.List.{list_any};
ghost use Rattle.ps_types.specs.Config.{config_rows};
ghost use Rattle.ps_config.specs.Rows.{row_of, all_rows};

use crate::row::{Setting, rows, var_of};

fn any_row(rows: &[Setting], var: &str) -> bool
    ensures { result ≡ list_any (λ row. bytes_eq (row_of row).var var.now) rows.now }
{
    rows.iter().any(|row| var_of(*row) == var)
}

/// Whether the configuration has a row of that var, which is spelled with its prefix, as `pubsub#title`.
#[tactic(auto, using(crate::proofs::Rows::any_named))]
pub fn has_row(var: &str) -> bool
    ensures { result ≡ list_any (λ row. bytes_eq row.var var.now) config_rows }
{
    any_row(rows(), var)
}
