// The conditions: their numbers, and the names by which a stanza error tells them.
ghost use Rattle.std.specs.Prelude.{◌≡◌, ◌⊎◌, ◌<◌, ◌↔◌, IsNone, IfSome, codes};
ghost use Rattle.ps_model.specs.Conditions.{wording_of};
ghost use Rattle.ps_names.specs.Heads.{Agrees};
ghost use Rattle.ps_names.specs.Numbering.{number_of};

use ps_types::Condition;

/// The names of a condition: its own, the more special one of XEP-0060 (empty where it has none), and its type.
#[derive(Clone, Copy, Drop)]
pub struct Wording {
    pub name: &'static str,
    pub extra: &'static str,
    pub kind: &'static str,
}

fn words(name: &'static str, extra: &'static str, kind: &'static str) -> Wording
    ensures name { result.name.now ≡ name.now }
    ensures extra { result.extra.now ≡ extra.now }
    ensures kind { result.kind.now ≡ kind.now }
{
    Wording { name, extra, kind }
}

/// The names of the condition.
pub fn words_of(condition: Condition) -> Wording
    ensures { Agrees result (wording_of condition) }
{
    match condition {
        Condition::C1 => words("bad-request", "", "modify"),
        Condition::C2 => words("bad-request", "invalid-jid", "modify"),
        Condition::C3 => words("bad-request", "nodeid-required", "modify"),
        Condition::C4 => words("bad-request", "item-required", "modify"),
        Condition::C5 => words("bad-request", "payload-required", "modify"),
        Condition::C6 => words("bad-request", "invalid-payload", "modify"),
        Condition::C7 => words("bad-request", "item-forbidden", "modify"),
        Condition::C8 => words("conflict", "", "cancel"),
        Condition::C9 => words("conflict", "precondition-not-met", "cancel"),
        Condition::C10 => words("feature-not-implemented", "unsupported", "cancel"),
        Condition::C11 => words("forbidden", "", "auth"),
        Condition::C12 => words("item-not-found", "", "cancel"),
        Condition::C13 => words("jid-malformed", "", "modify"),
        Condition::C14 => words("not-acceptable", "", "modify"),
        Condition::C15 => words("not-acceptable", "invalid-subid", "modify"),
        Condition::C16 => words("not-acceptable", "payload-too-big", "modify"),
        Condition::C17 => words("not-allowed", "closed-node", "cancel"),
        Condition::C18 => words("not-authorized", "presence-subscription-required", "auth"),
        Condition::C19 => words("not-authorized", "not-in-roster-group", "auth"),
        Condition::C20 => words("not-authorized", "not-subscribed", "auth"),
        Condition::C21 => words("not-authorized", "pending-subscription", "auth"),
        Condition::C22 => words("unexpected-request", "not-subscribed", "cancel"),
        Condition::C23 => words("policy-violation", "too-many-subscriptions", "wait"),
        Condition::C24 => words("resource-constraint", "", "wait"),
        Condition::C25 => words("service-unavailable", "", "cancel"),
        Condition::C26 => words("feature-not-implemented", "", "cancel"),
        Condition::C27 => words("not-acceptable", "nodeid-required", "modify"),
        Condition::C28 => words("bad-request", "invalid-options", "modify"),
    }
}

/// The condition of that number, none exactly outside 1 to 28.
pub fn condition(number: u8) -> Option<Condition>
    ensures some { IfSome result (λ c. number_of c ≡ number) }
    ensures none { IsNone result ↔ ((number < 1) ⊎ (28 < number)) }
{
    match number {
        1 => Some(Condition::C1),
        2 => Some(Condition::C2),
        3 => Some(Condition::C3),
        4 => Some(Condition::C4),
        5 => Some(Condition::C5),
        6 => Some(Condition::C6),
        7 => Some(Condition::C7),
        8 => Some(Condition::C8),
        9 => Some(Condition::C9),
        10 => Some(Condition::C10),
        11 => Some(Condition::C11),
        12 => Some(Condition::C12),
        13 => Some(Condition::C13),
        14 => Some(Condition::C14),
        15 => Some(Condition::C15),
        16 => Some(Condition::C16),
        17 => Some(Condition::C17),
        18 => Some(Condition::C18),
        19 => Some(Condition::C19),
        20 => Some(Condition::C20),
        21 => Some(Condition::C21),
        22 => Some(Condition::C22),
        23 => Some(Condition::C23),
        24 => Some(Condition::C24),
        25 => Some(Condition::C25),
        26 => Some(Condition::C26),
        27 => Some(Condition::C27),
        28 => Some(Condition::C28),
        _ => None,
    }
}
