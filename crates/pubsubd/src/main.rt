//! The program: its words, the real files, and the status's code.
//!
//! `ps_serve::run` does all that matters, over any world; this gives it the words, the files and the standard output of the system. [`run_words`] says so of any
//! world (`specs/Ended.antt`, `RanWords`): these words are run, and the program ends with the code of the status. [`words_after`] says which words these are. What
//! the system gives as the program's arguments, and that the process ends with the code that `main` answers, no contract can say.
#![tactic(auto)]

ghost use Rattle.std.specs.Prelude.{◌≡◌, IfErr, IfOk, drop, map, string_bytes};
ghost use Rattle.std.specs.Process.{exit_status};
ghost use Rattle.ps_status.specs.Statuses.{code_of};
ghost use Rattle.pubsubd.specs.Ended.{HadNoWords, RanWords};

use ps_base::Memory;
use ps_io::{RealWorld, World};
use ps_serve::{Status, run};
use ps_status::tell;
use ps_types::Text;
use std::alloc::Global;
use std::env;
use std::io::ErrorKind;
use std::process::ExitCode;
use std::random::RandomSource;
use std::rt::Env;
use std::sync::Wait;
use std::thread::Threads;

fn texts_of(alloc: Global, words: &[String]) -> Result<Vec<Text>, Memory>
    ensures { IfOk result (λ texts. texts.items ≡ map string_bytes words.now) }
{
    let mut texts = Vec::new(alloc);
    for word in words {
        texts.push(Text::of(alloc, word.as_str())?)?;
    }
    Ok(texts)
}

// The words after the program's name, which is the first.
fn words_after(alloc: Global, args: &[String]) -> Result<Vec<Text>, Memory>
    ensures { IfOk result (λ words. words.items ≡ map string_bytes (drop 1 args.now)) }
{
    match args.split_first() {
        Some((_name, words)) => texts_of(alloc, words),
        None => Ok(Vec::new(alloc)),
    }
}

// The words after the program's name. Where one of them is no text there are none, and none are no command.
fn words_of<R: Env + AllocGlobal>(rt: &R) -> Result<Vec<Text>, Memory> {
    let alloc = rt.alloc();
    match env::args(rt) {
        Ok(args) => {
            let mut all = Vec::new(alloc);
            for word in args {
                all.push(word)?;
            }
            words_after(alloc, &all)
        }
        Err(error) => {
            if error.kind() == ErrorKind::OutOfMemory {
                Err(Memory)
            } else {
                Ok(Vec::new(alloc))
            }
        }
    }
}

fn exit_with(status: Status) -> ExitCode
    ensures { exit_status result ≡ code_of status }
{
    ExitCode::from(status.code())
}

// Runs these words, or reports that there was no memory for them. The program is to end with the answer.
fn run_words<R: RandomSource + Wait + Threads + Sync, W: World>(
    rt: &R,
    alloc: Global,
    words: Result<Vec<Text>, Memory>,
    world: &mut W,
) -> ExitCode
    ensures ran { IfOk words (λ v. RanWords W.Store.tells W.World v.items world.old world.new (exit_status result)) }
    ensures none { IfErr words (λ e. HadNoWords W.World world.old world.new (exit_status result)) }
{
    match words {
        Ok(words) => exit_with(run(rt, alloc, &words, world)),
        Err(Memory) => {
            tell(Status::Memory, world);
            exit_with(Status::Memory)
        }
    }
}

fn main(rt: HostRuntime) -> ExitCode {
    let alloc = rt.alloc();
    let words = words_of(&rt);
    let mut world = RealWorld::new(alloc, rt);
    run_words(&rt, alloc, words, &mut world)
}
