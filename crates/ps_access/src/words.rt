// The words by which affiliations and subscriptions are named (XEP-0060 §4.1, §4.2).
ghost use Rattle.std.specs.Prelude.{◌≡◌};
ghost use Rattle.ps_model.specs.Words as model;

use ps_types::{Affil, SubState};

/// The word of an affiliation.
pub fn affil_text(affil: Affil) -> &'static str
    ensures text { result.now ≡ model.affil_text affil }
{
    match affil {
        Affil::Owner => "owner",
        Affil::Publisher => "publisher",
        Affil::PublishOnly => "publish-only",
        Affil::Member => "member",
        Affil::Outcast => "outcast",
        Affil::Nothing => "none",
    }
}

/// The affiliation of a word.
pub fn affil_of(text: &str) -> Option<Affil>
    ensures affil { result ≡ model.affil_of text.now }
{
    match text {
        "owner" => Some(Affil::Owner),
        "publisher" => Some(Affil::Publisher),
        "publish-only" => Some(Affil::PublishOnly),
        "member" => Some(Affil::Member),
        "outcast" => Some(Affil::Outcast),
        "none" => Some(Affil::Nothing),
        _ => None,
    }
}

/// The word of how far a subscription has come.
pub fn sub_text(state: SubState) -> &'static str
    ensures text { result.now ≡ model.sub_text state }
{
    match state {
        SubState::Nothing => "none",
        SubState::Pending => "pending",
        SubState::Subscribed => "subscribed",
    }
}

/// How far a subscription has come, by its word.
pub fn sub_of(text: &str) -> Option<SubState>
    ensures state { result ≡ model.sub_of text.now }
{
    match text {
        "none" => Some(SubState::Nothing),
        "pending" => Some(SubState::Pending),
        "subscribed" => Some(SubState::Subscribed),
        _ => None,
    }
}
