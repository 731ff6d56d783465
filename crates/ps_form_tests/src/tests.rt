// Each part goes through its rows.
use crate::{capabilities, configs, forms};
use std::test::Fail;

#[test]
fn forms_configurations_and_capabilities_are_read(rt: HostRuntime) -> Result<(), Fail> {
    forms::goes(&rt, rt.alloc())?;
    configs::goes(&rt, rt.alloc())?;
    capabilities::goes(&rt, rt.alloc())
}
