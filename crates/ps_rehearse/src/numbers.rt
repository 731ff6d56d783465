// The numbers of a rehearsal.

/// How many stanzas were dealt, how many of them changed the service, how many replies of type result and of type error there were, and how many notices.
#[derive(Clone, Copy, Debug, PartialEq, Eq)]
pub struct Numbers {
    pub stanzas: u64,
    pub commits: u64,
    pub results: u64,
    pub errors: u64,
    pub notices: u64,
}
