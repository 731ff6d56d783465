// Addresses of the tests.
use ps_types::Jid;
use std::alloc::Global;
use std::test::Fail;

pub fn jid(alloc: Global, text: &str) -> Result<Jid, Fail> {
    Ok(Jid::read(alloc, text.as_bytes())?)
}
