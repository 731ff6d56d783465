// The law of a follower's run beside the service that it follows. The function is its contract.
ghost use Rattle.ps_follow_run.specs.Laws.{EachAnswerIsOfTheFeed};

/// Where the feed is of one lawful list, each line is answered at a front of it, which holds that of each line before.
pub fn each_answer_is_of_the_feed()
    ensures { EachAnswerIsOfTheFeed }
{}
