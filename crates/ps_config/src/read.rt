// Reading a form as a configuration, against a base.
ghost use Rattle.std.specs.Prelude.{◌≡◌, Some, None, Ok, IfOk, IfErr, OnOk, IsErrOf};
ghost use Rattle.ps_types.specs.Config as table;
ghost use Rattle.ps_types.specs.Forms.{values_of};
ghost use Rattle.ps_config.specs.Cause.{IsCause};
ghost use Rattle.ps_config.specs.Rows.{row_of};

use crate::change::{Unread, change};
use crate::row::{Setting, rows, var_of};
use ps_forms::get;
use ps_types::{Form, NodeConfig};
use std::alloc::{AllocError, Global};
use thiserror::Error;

/// Why a form was not read as a configuration.
#[derive(Clone, Copy, Debug, PartialEq, Eq, Error)]
pub enum ConfigRefusal {
    /// The values of this row aren't readable: the first such row of the form's seventeen, counted from 1.
    #[error("row {0} has no readable value")]
    BadValue(u64),
    /// Memory ran out.
    #[error("out of memory")]
    Memory,
}

impl From<AllocError> for ConfigRefusal {
    ghost use Rattle.std.specs.Prelude.{◌≡◌};
    ghost use Rattle.ps_config.specs.declared.read.ConfigRefusal.TheVariants as refusal;

    ghost from_gives = { λ _ e. e ≡ refusal.Memory };

    fn from(_e: AllocError) -> ConfigRefusal {
        ConfigRefusal::Memory
    }
}

fn copy_of(base: &NodeConfig) -> Result<NodeConfig, AllocError>
    ensures { IfOk result (λ config. config ≡ base.now) }
{
    base.clone()
}

// Reads one row. A field that isn't given stays.
fn read_row(alloc: Global, config: &mut NodeConfig, row: Setting, form: &Form) -> Result<(), Unread>
    ensures ok { OnOk result
        (table.row_change (row_of row) config.old (values_of (row_of row).var form.now) ≡ Some config.new) }
    ensures bad { IsErrOf result Unread.Bad
        → table.row_change (row_of row) config.old (values_of (row_of row).var form.now) ≡ None }
{
    match get(form, var_of(row)) {
        Some(values) => change(alloc, config, row, values),
        None => Ok(()),
    }
}

/// What the form makes of the base. Fields that aren't given stay as in the base, and fields of no row are ignored.
pub fn read_config(
    alloc: Global,
    form: &Form,
    base: &NodeConfig,
) -> Result<NodeConfig, ConfigRefusal>
    ensures ok { IfOk result (λ c. table.read_config form.now base.now ≡ Ok c) }
    ensures cause { IfErr result (IsCause (table.read_config form.now base.now)) }
{
    let mut config = copy_of(base)?;
    for (i, row) in rows().iter().enumerate() {
        match read_row(alloc, &mut config, *row, form) {
            Ok(()) => {}
            Err(Unread::Bad) => return Err(ConfigRefusal::BadValue(i as u64 + 1)),
            Err(Unread::Memory) => return Err(ConfigRefusal::Memory),
        }
    }
    Ok(config)
}
