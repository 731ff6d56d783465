// The law of compaction. The function is its contract.
ghost use Rattle.ps_compact_laws.specs.Laws.{EachCompactedServesOn};

/// The entries that a lawful list is compacted to serve on as the list would: the same lists are lawful behind them, with the same replies and entries, and the same notices but for
/// those that were handed. Each entry of the list has a spelling, and its counts are below 2^62.
pub fn each_compacted_serves_on()
    ensures { EachCompactedServesOn }
{}
