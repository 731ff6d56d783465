// What an audit tells.
use ps_types::Verdict;

/// The four verdicts for an address at a node (XEP-0060 §4.1, §4.5).
#[derive(Clone, Copy, PartialEq, Eq, Debug)]
pub struct Four {
    /// Whether it may read.
    pub read: Verdict,
    /// Whether it may subscribe.
    pub subscribe: Verdict,
    /// Whether it may publish.
    pub publish: Verdict,
    /// Whether it owns the node.
    pub own: Verdict,
}

/// A line of a history.
#[derive(Clone, Copy, PartialEq, Eq, Debug)]
pub struct ExplainLine {
    /// After so many entries of the store.
    pub after: u64,
    /// The verdicts, or None where the node doesn't stand.
    pub four: Option<Four>,
}
