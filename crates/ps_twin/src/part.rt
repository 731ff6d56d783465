// What lies in a slot. It isn't an enum, since a value that isn't dropped couldn't be let go in the arm that never comes.
ghost use Rattle.std.specs.Prelude.{◌≡◌, Some};
ghost use Rattle.ps_twin.specs.Parts.{IsState, IsJournal, no_part, state_part, journal_part};

/// The state, the journal or nothing.
pub struct Part<V, J> {
    state: Option<V>,
    journal: Option<J>,
}

impl<V, J> Part<V, J> {
    pub(crate) fn nothing() -> Part<V, J>
        ensures { result ≡ no_part }
    {
        Part {
            state: None,
            journal: None,
        }
    }

    pub(crate) fn of_state(state: V) -> Part<V, J>
        ensures { result ≡ state_part state }
    {
        Part {
            state: Some(state),
            journal: None,
        }
    }

    pub(crate) fn of_journal(journal: J) -> Part<V, J>
        ensures { result ≡ journal_part journal }
    {
        Part {
            state: None,
            journal: Some(journal),
        }
    }

    pub(crate) fn into_state(self) -> V
        requires { IsState self }
        ensures { self ≡ state_part result }
    {
        let Part { state, journal } = self;
        let None = journal else { unreachable!() };
        state.unwrap()
    }

    pub(crate) fn into_journal(self) -> J
        requires { IsJournal self }
        ensures { self ≡ journal_part result }
    {
        let Part { state, journal } = self;
        let None = state else { unreachable!() };
        journal.unwrap()
    }

    pub(crate) fn into_nothing(self)
        requires { self ≡ no_part }
    {
        let Part { state, journal } = self;
        let None = state else { unreachable!() };
        let None = journal else { unreachable!() };
    }
}
