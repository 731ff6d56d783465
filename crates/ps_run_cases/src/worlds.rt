// Two services that differ in the items of a node that an address may not read. Each function is its contract.
ghost use Rattle.std.specs.Prelude.{◌≡◌, [], ◌++◌};
ghost use Rattle.ps_run_cases.specs.WorldCases as cases;
ghost use Rattle.ps_run_cases.specs.Worlds.{AreTwoWorlds, lefts, rights};

/// An item that is there in one of them: who may not read is answered the same in both, whatever he asks.
pub fn items_stay_unseen()
    ensures { AreTwoWorlds cases.secret cases.to_alf cases.items_differ [] [] }
{}

/// An item that evicts another, or none.
pub fn evictions_stay_unseen()
    ensures { AreTwoWorlds cases.secret cases.to_alf cases.evictions_differ [] [] }
{}

/// A request that is kept in one of them alone: the ids that are made for the address, and the numbers and lines of its notices, are the same in both, and so
/// is what a crash lets be sent again.
pub fn commits_stay_unseen()
    ensures alike { AreTwoWorlds cases.secret cases.to_alf cases.commits_differ cases.left_told cases.right_told }
    ensures left_again { cases.sent_by_steps (lefts cases.commits_differ) ≡ cases.left_told ++ cases.left_told }
    ensures right_again { cases.sent_by_steps (rights cases.commits_differ) ≡ cases.right_told ++ cases.right_told }
{}
