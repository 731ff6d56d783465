// The words of the commands that report on a store.
ghost use Rattle.std.specs.Prelude.{◌≡◌, Some, None, IfOk, IsErrOf};
ghost use Rattle.ps_commands.specs.Words.{explained_by, readers_by};

use crate::addresses::read_node;
use crate::command::{Command, ExplainWords, ReadersWords};
use ps_args::{WordsRefusal, read_address};
use ps_types::Text;
use std::alloc::Global;

/// The words after `explain`.
pub(crate) fn read_explain(
    alloc: Global,
    store: &Text,
    who: &Text,
    service: &Text,
    name: &Text,
) -> Result<Command, WordsRefusal>
    ensures ok { IfOk result (λ c. explained_by store.now who.now service.now name.now ≡ Some c) }
    ensures usage { IsErrOf result WordsRefusal.Usage
        → explained_by store.now who.now service.now name.now ≡ None }
{
    let who = read_address(alloc, who)?;
    let node = read_node(alloc, service, name)?;
    if store.is_empty() {
        return Err(WordsRefusal::Usage);
    }
    let store = store.clone()?;
    Ok(Command::Explain(ExplainWords { store, who, node }))
}

/// The words after `readers`.
pub(crate) fn read_readers(
    alloc: Global,
    store: &Text,
    service: &Text,
    name: &Text,
) -> Result<Command, WordsRefusal>
    ensures ok { IfOk result (λ c. readers_by store.now service.now name.now ≡ Some c) }
    ensures usage { IsErrOf result WordsRefusal.Usage → readers_by store.now service.now name.now ≡ None }
{
    let node = read_node(alloc, service, name)?;
    if store.is_empty() {
        return Err(WordsRefusal::Usage);
    }
    let store = store.clone()?;
    Ok(Command::Readers(ReadersWords { store, node }))
}
