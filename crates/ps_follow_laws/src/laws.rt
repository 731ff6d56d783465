// The laws of a follower. Each function is its contract.
ghost use Rattle.ps_follow_laws.specs.Laws.{EachFeedCatchesUp, EachFeedHasOne, EachFeedIsGood, EachFeedIsOne, EachFollowerIsFront, EachPieceGoesOn, EachReadIsAnswered, EachStopStays, NoPieceTakesAway, NoStreamTakesAway};

/// Bytes lead from a list of entries to one list, one offset and one stop at most.
pub fn each_feed_is_one()
    ensures { EachFeedIsOne }
{}

/// And to one at least.
pub fn each_feed_has_one()
    ensures { EachFeedHasOne }
{}

/// In pieces a feed is what it is at once, a stop stays, and no piece takes an entry away.
pub fn each_piece_goes_on()
    ensures goes_on { EachPieceGoesOn }
    ensures stays { EachStopStays }
    ensures keeps { NoPieceTakesAway }
{}

/// No stream takes an entry away, and what is lawful stays so.
pub fn no_stream_takes_away()
    ensures { NoStreamTakesAway }
{}

/// Where all records are of one lawful list, the entries are its first ones, and the feed goes on or leaves a gap.
pub fn each_follower_is_front()
    ensures front { EachFollowerIsFront }
    ensures good { EachFeedIsGood }
{}

/// One that has the entries before a place catches up by the feed from there.
pub fn each_feed_catches_up()
    ensures { EachFeedCatchesUp }
{}

/// What would make no entry is answered as the service would.
pub fn each_read_is_answered()
    ensures { EachReadIsAnswered }
{}
