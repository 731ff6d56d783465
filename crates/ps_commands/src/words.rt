// The words of a command.
ghost use Rattle.std.specs.Prelude.{◌≡◌, Some, None, IfOk, IsErrOf};
ghost use Rattle.ps_commands.specs.Words.{command_of, of_first as first_by, other_of};
ghost use Rattle.ps_commands.specs.Well.{IsWell};

use crate::command::Command;
use crate::follower::{read_feed, read_follow};
use crate::mirror::read_mirror;
use crate::reports::{read_explain, read_readers};
use ps_args::{Command as First, WordsRefusal, read_words};
use ps_types::Text;
use std::alloc::Global;

fn of_first(command: First) -> Command
    ensures { result ≡ first_by command }
{
    match command {
        First::Serve {
            service,
            store,
            streams,
        } => Command::Serve {
            service,
            store,
            streams,
        },
        First::Rehearse { seed, count } => Command::Rehearse { seed, count },
        First::Compact { store, new } => Command::Compact { store, new },
    }
}

// The words of a command that neither serves nor rehearses nor compacts.
fn read_other(alloc: Global, words: &[Text]) -> Result<Command, WordsRefusal>
    ensures ok { IfOk result (λ c. other_of words.now ≡ Some c) }
    ensures usage { IsErrOf result WordsRefusal.Usage → other_of words.now ≡ None }
{
    match words {
        [explain, path, who, service, node] if explain.is("explain") => {
            read_explain(alloc, path, who, service, node)
        }
        [readers, path, service, node] if readers.is("readers") => {
            read_readers(alloc, path, service, node)
        }
        [feed, path, from, sink] if feed.is("feed") => read_feed(path, from, sink),
        [follow, host, feed, source, sink] if follow.is("follow") => {
            read_follow(alloc, host, feed, source, sink)
        }
        [mirror, service, node, who, most, source] if mirror.is("mirror") => {
            read_mirror(alloc, service, node, who, most, source)
        }
        _ => Err(WordsRefusal::Usage),
    }
}

/// The command that the words after the program's name are. `Usage` says that they are none.
pub fn read_command(alloc: Global, words: &[Text]) -> Result<Command, WordsRefusal>
    ensures ok { IfOk result (λ c. command_of words.now ≡ Some c) }
    ensures well { IfOk result IsWell }
    ensures usage { IsErrOf result WordsRefusal.Usage → command_of words.now ≡ None }
{
    match read_words(alloc, words) {
        Ok(command) => Ok(of_first(command)),
        Err(WordsRefusal::Usage) => read_other(alloc, words),
        Err(WordsRefusal::Memory) => Err(WordsRefusal::Memory),
    }
}
