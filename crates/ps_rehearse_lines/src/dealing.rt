// The stanzas of a rehearsal, as lines of two streams.
ghost use Rattle.std.specs.Prelude.{◌≡◌, ◌∷◌, ◌++◌, ◌+◌, ◌≤◌, [], IfOk, OnOk};
ghost use Rattle.ps_types.specs.Form.{max_levels};
ghost use Rattle.ps_types.specs.Print.{print};
ghost use Rattle.ps_types.specs.Tree.{levels};
ghost use Rattle.ps_rehearse_lines.specs.Dealing.{AreDealt, IsShort};

use ps_base::{Bytes, Memory};
use ps_gen::stanza;
use ps_types::Elem;
use ps_wire::print_tree;
use std::alloc::Global;

/// What the streams of the first and of the second host read.
#[derive(Drop)]
pub struct Dealt {
    pub first: Vec<u8>,
    pub second: Vec<u8>,
}

// The most bytes of a line. No stanza comes near it.
const LONGEST: usize = 4096;

// The line of a stanza.
fn line_of(alloc: Global, tree: &Elem) -> Result<Bytes, Memory>
    requires { levels tree.now ≤ max_levels }
    ensures line { IfOk result (λ line. line ≡ print tree.now) }
    ensures short { IfOk result (λ line. IsShort tree.now) }
{
    tree.know();
    let line = print_tree(alloc, tree)?;
    if line.len() > LONGEST {
        return Err(Memory);
    }
    Ok(line)
}

fn add_line(lines: &mut Vec<u8>, line: &[u8]) -> Result<(), Memory>
    ensures { OnOk result (lines.new.items ≡ lines.old.items ++ (line.now ++ 10 ∷ [])) }
{
    lines.extend_from_slice(line)?;
    lines.push(b'\n')?;
    Ok(())
}

// One stanza more.
fn deal_one(alloc: Global, seed: u64, k: u64, dealt: &mut Dealt) -> Result<(), Memory>
    requires { AreDealt seed k dealt.old }
    ensures { OnOk result (AreDealt seed (k + 1) dealt.new) }
{
    let generated = stanza(alloc, seed, k)?;
    let line = line_of(alloc, &generated.tree)?;
    if generated.host == 0 {
        add_line(&mut dealt.first, line.as_slice())
    } else {
        add_line(&mut dealt.second, line.as_slice())
    }
}

/// The lines of the stanzas of the first so many places in the row of the seed, each on the stream of its host.
pub fn deal(alloc: Global, seed: u64, count: u64) -> Result<Dealt, Memory>
    ensures { IfOk result (AreDealt seed count) }
{
    let mut dealt = Dealt {
        first: Vec::new(alloc),
        second: Vec::new(alloc),
    };
    for k in 0..count {
        deal_one(alloc, seed, k, &mut dealt)?;
    }
    Ok(dealt)
}
