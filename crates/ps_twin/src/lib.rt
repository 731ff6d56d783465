//! A lock on two values, the state and the journal, that knows what each caller has seen.
//!
//! Both are an [`Annals`]: they stand for lists of items, the journal for the beginning of what the state stands for. Each caller has a
//! [`TwinSeat`] of the [`Twin`]. Between [`Twin::enter`] and [`Twin::leave`] it has the state, between [`Twin::enter_journal`] and
//! [`Twin::leave_journal`] the journal, and with the journal in hand it may enter and leave the state as often as it likes. So one caller
//! writes the journal while others go on with the state.
//!
//! Of the state all is promised that `ps_turn` promises of its one value: the history only grows, each seat adds only items of its own making, and
//! the state that `enter` gives stands for a list which begins with all that the seat had seen, with nothing of its own making after that.
//! Besides:
//!
//! - With the journal in hand, the state's list begins with the journal's, and the two have the same *mark*; only the seat that has the journal
//!   changes the mark.
//! - The state never counts on more items as *firm* than the journal: a journal is given back before a state that counts on it.
//! - [`Twin::close`] gives both back, and says all of this at once.
//!
//! Words of `specs/Seats.antt`: `seen_of`, what a seat has seen; `number_of`, its number; `list_of`, `firm_of`, `mark_of`, of what is in its hand;
//! `known_of`, so many items are firm; `IsSeatOf`, `IsFree`, `IsOut`, `HasState`, `HasJournal`. `specs/Twins.antt` has the rule that every atomic
//! step keeps; it rests on the line of tickets and the rule of `ps_turn`.
//!
//! Nothing is promised of waiting. A seat that is dropped while it has a value stops that value's line for good.
#![tactic(auto)]

mod part;
mod plays;
mod twin;
mod view;

pub use twin::{Twin, TwinRefusal, TwinSeat};
