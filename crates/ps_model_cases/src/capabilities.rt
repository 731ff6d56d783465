// Capability strings, and what an answer to the question of a resource's capabilities counts for. Each function is its contract.
ghost use Rattle.std.specs.Prelude.{◌≡◌, true, Some};
ghost use Rattle.ps_types.specs.CapString.{cap_string, is_ill_formed};
ghost use Rattle.ps_types.specs.CapVer.{ver_of};
ghost use Rattle.ps_model_cases.specs.CapsCases as cases;
ghost use Rattle.ps_model_cases.specs.Case.{Holds};

/// The string and the hash of XEP-0115's example (§5.2).
pub fn example_hash()
    ensures string { cap_string cases.exodus_info ≡ cases.exodus_string }
    ensures ver { ver_of cases.exodus_info ≡ Some cases.ver }
{}

/// An answer whose hash is another counts for its resource alone. After one that has the hash no resource with that hash is asked.
pub fn exact_answer_counts()
    ensures { Holds cases.verified cases.verified_told }
{}

/// An answer that names a feature twice is ill-formed and changes nothing.
pub fn repeated_feature()
    ensures ill_formed { is_ill_formed cases.repeated_info ≡ true }
    ensures nothing { Holds cases.repeated cases.repeated_told }
{}
