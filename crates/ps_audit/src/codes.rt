// Verdicts as numbers, by which they are compared.
ghost use Rattle.std.specs.Prelude.{◌≡◌, ◌≤◌, Decides};
ghost use Rattle.ps_names.specs.Numbering.{number_of};
ghost use Rattle.ps_audit.specs.Codes.{rule_code, verdict_code};

use ps_audit_laws::Four;
use ps_types::{Condition, Rule, Verdict};

fn rule_number(rule: Rule) -> u8
    ensures { result ≡ rule_code rule }
{
    match rule {
        Rule::ByAffiliation => 0,
        Rule::ByOpen => 1,
        Rule::ByPresence => 2,
        Rule::ByGroup => 3,
        Rule::BySubscription => 4,
        Rule::ByPublishModel => 5,
    }
}

/// The number of a condition, from 1 to 28.
pub fn condition_number(why: Condition) -> u8
    ensures number { result ≡ number_of why }
    ensures few { result ≤ 28 }
{
    match why {
        Condition::C1 => 1,
        Condition::C2 => 2,
        Condition::C3 => 3,
        Condition::C4 => 4,
        Condition::C5 => 5,
        Condition::C6 => 6,
        Condition::C7 => 7,
        Condition::C8 => 8,
        Condition::C9 => 9,
        Condition::C10 => 10,
        Condition::C11 => 11,
        Condition::C12 => 12,
        Condition::C13 => 13,
        Condition::C14 => 14,
        Condition::C15 => 15,
        Condition::C16 => 16,
        Condition::C17 => 17,
        Condition::C18 => 18,
        Condition::C19 => 19,
        Condition::C20 => 20,
        Condition::C21 => 21,
        Condition::C22 => 22,
        Condition::C23 => 23,
        Condition::C24 => 24,
        Condition::C25 => 25,
        Condition::C26 => 26,
        Condition::C27 => 27,
        Condition::C28 => 28,
    }
}

fn verdict_number(verdict: Verdict) -> u8
    ensures { result ≡ verdict_code verdict }
{
    match verdict {
        Verdict::Granted(rule) => rule_number(rule),
        Verdict::Pending => 6,
        Verdict::Denied(why) => 6 + condition_number(why),
    }
}

fn is_same(a: Verdict, b: Verdict) -> bool
    ensures { Decides result (a ≡ b) }
{
    verdict_number(a) == verdict_number(b)
}

fn are_same(a: &Four, b: &Four) -> bool
    ensures { Decides result (a.now ≡ b.now) }
{
    is_same(a.read, b.read)
        && is_same(a.subscribe, b.subscribe)
        && is_same(a.publish, b.publish)
        && is_same(a.own, b.own)
}

/// Whether the verdicts are the same.
pub(crate) fn stay(a: &Option<Four>, b: &Option<Four>) -> bool
    ensures { Decides result (a.now ≡ b.now) }
{
    match (a, b) {
        (None, None) => true,
        (Some(a), Some(b)) => are_same(a, b),
        _ => false,
    }
}
