// What a roster item tells (RFC 6121 §2.1.2).
ghost use Rattle.std.specs.Prelude.{◌≡◌, option_map};
ghost use Rattle.ps_model.specs.Words as words;
ghost use Rattle.ps_request_parts.specs.Told.{told_in};

use ps_types::RosterState;

/// What a roster item tells: a contact of this state, or none any more.
#[derive(Clone, Copy, Drop)]
pub enum Told {
    Set(RosterState),
    Remove,
}

/// What the subscription of a roster item tells. A missing one is none, and another word tells nothing.
pub fn told_by(subscription: &str) -> Option<Told>
    ensures told { option_map told_in result ≡ words.roster_of subscription.now }
{
    match subscription {
        "" | "none" => Some(Told::Set(RosterState::Nothing)),
        "to" => Some(Told::Set(RosterState::To)),
        "from" => Some(Told::Set(RosterState::From)),
        "both" => Some(Told::Set(RosterState::Both)),
        "remove" => Some(Told::Remove),
        _ => None,
    }
}
