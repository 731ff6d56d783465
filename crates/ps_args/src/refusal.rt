// Why words are no command.
use std::alloc::AllocError;

/// Why words are no command.
#[derive(Clone, Copy, Debug, PartialEq, Eq)]
pub enum WordsRefusal {
    /// The grammar has no such words.
    Usage,
    /// They were not read, since memory ran out.
    Memory,
}

impl From<AllocError> for WordsRefusal {
    ghost use Rattle.std.specs.Prelude.{◌≡◌};
    ghost use Rattle.ps_args.specs.declared.refusal.WordsRefusal.TheVariants.{Memory};

    ghost from_gives = { λ _ e. e ≡ Memory };

    fn from(_e: AllocError) -> WordsRefusal {
        WordsRefusal::Memory
    }
}
