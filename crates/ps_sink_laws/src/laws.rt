// The laws of a sink's lines. The function is its contract.
ghost use Rattle.ps_sink_laws.specs.Laws.{EachSinkIsToldApart, EachWordIsOneLine};

/// Of words that a list of entries gives the replies, read back from the bytes, are those that were said, and the notices to each bare address those that were said to it, in order. Each is
/// one line.
pub fn each_sink_is_told_apart()
    ensures apart { EachSinkIsToldApart }
    ensures lines { EachWordIsOneLine }
{}
