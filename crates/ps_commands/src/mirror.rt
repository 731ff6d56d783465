// The words of the command that mirrors a node.
ghost use Rattle.std.specs.Prelude.{◌≡◌, Some, None, IfOk, IsErrOf};
ghost use Rattle.ps_commands.specs.Words.{items_in, mirrored_by};

use crate::addresses::read_node;
use crate::command::{Command, MirrorWords};
use ps_args::{WordsRefusal, number_between, read_address};
use ps_types::Text;
use std::alloc::Global;

// The number of items that 1 to 4 digits write, from 1 to 1000.
fn read_items(text: &str) -> Option<u64>
    ensures { result ≡ items_in text.now }
{
    if text.len() <= 4 {
        number_between(1, 1000, text)
    } else {
        None
    }
}

/// The words after `mirror`.
pub(crate) fn read_mirror(
    alloc: Global,
    service: &Text,
    name: &Text,
    who: &Text,
    most: &Text,
    source: &Text,
) -> Result<Command, WordsRefusal>
    ensures ok { IfOk result (λ c. mirrored_by service.now name.now who.now most.now source.now ≡ Some c) }
    ensures usage { IsErrOf result WordsRefusal.Usage
        → mirrored_by service.now name.now who.now most.now source.now ≡ None }
{
    let node = read_node(alloc, service, name)?;
    let who = read_address(alloc, who)?;
    let Some(most) = read_items(most.as_str()) else {
        return Err(WordsRefusal::Usage);
    };
    if source.is_empty() {
        return Err(WordsRefusal::Usage);
    }
    let source = source.clone()?;
    Ok(Command::Mirror(MirrorWords {
        node,
        who,
        most,
        source,
    }))
}
