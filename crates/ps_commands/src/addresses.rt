// The addresses that words are.
ghost use Rattle.std.specs.Prelude.{◌≡◌, Some, None, IfOk, IsErrOf};
ghost use Rattle.ps_commands.specs.Words.{bare_in as bare_in_address, node_in, service_of};

use ps_args::{WordsRefusal, read_address};
use ps_types::{Jid, NodeKey, Text};
use std::alloc::Global;

fn bare_in(address: Jid) -> Result<Jid, WordsRefusal>
    ensures ok { IfOk result (λ j. bare_in_address address ≡ Some j) }
    ensures usage { IsErrOf result WordsRefusal.Usage → bare_in_address address ≡ None }
    ensures memory { IsErrOf result WordsRefusal.Memory → ⊥ }
{
    if address.resource.is_empty() {
        Ok(address)
    } else {
        Err(WordsRefusal::Usage)
    }
}

// The service host or the account of a node: an address without a resource.
fn read_service(alloc: Global, word: &Text) -> Result<Jid, WordsRefusal>
    ensures ok { IfOk result (λ j. service_of word.now ≡ Some j) }
    ensures usage { IsErrOf result WordsRefusal.Usage → service_of word.now ≡ None }
{
    let address = read_address(alloc, word)?;
    bare_in(address)
}

/// The node of that service and name.
pub(crate) fn read_node(alloc: Global, service: &Text, name: &Text) -> Result<NodeKey, WordsRefusal>
    ensures ok { IfOk result (λ n. node_in service.now name.now ≡ Some n) }
    ensures usage { IsErrOf result WordsRefusal.Usage → node_in service.now name.now ≡ None }
{
    let service = read_service(alloc, service)?;
    if name.is_empty() {
        return Err(WordsRefusal::Usage);
    }
    let name = name.clone()?;
    Ok(NodeKey { service, name })
}
