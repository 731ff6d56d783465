// Who is in the roster of an account (RFC 6121 §2).
ghost use Rattle.std.specs.Prelude.{◌≡◌};
ghost use Rattle.std.specs.List.{list_any};
ghost use Rattle.ps_types.specs.Rosters.{gets_presence, is_presence_contact, is_group_contact, is_among};

use ps_roster::Roster;
use ps_types::{Jid, RosterState, Text};

fn gets(state: RosterState) -> bool
    ensures { result ≡ gets_presence state }
{
    matches!(state, RosterState::From | RosterState::Both)
}

/// Whether the address gets the account's presence.
pub fn gets_presence_of(roster: &Roster, account: &Jid, who: &Jid) -> bool
    ensures { result ≡ is_presence_contact account.now who.now roster.now.rows }
{
    match roster.contact(account, who) {
        Some(row) => gets(row.state),
        None => false,
    }
}

fn names(texts: &[Text], text: &Text) -> bool
    ensures { result ≡ is_among texts.now text.now }
{
    texts.iter().any(|other| *text == *other)
}

fn name_any(allowed: &[Text], groups: &[Text]) -> bool
    ensures { result ≡ list_any (is_among allowed.now) groups.now }
{
    groups.iter().any(|group| names(allowed, group))
}

/// Whether the account's roster has the address in one of these groups.
pub fn is_in_groups(roster: &Roster, allowed: &[Text], account: &Jid, who: &Jid) -> bool
    ensures { result ≡ is_group_contact allowed.now account.now who.now roster.now.rows }
{
    match roster.contact(account, who) {
        Some(row) => name_any(allowed, row.groups.as_slice()),
        None => false,
    }
}
