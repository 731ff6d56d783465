// The rule of the table, and what each step tells. These types are for the proofs alone.
use crate::part::Part;
use crate::view::TwinView;
use atomic_table::{Join, Play, Split, TableRule};
use ps_turn::{Annals, Names};
use std::marker::PhantomData;

/// What a table of twins keeps whoever writes to it.
pub struct Law;

impl<V: Annals, J: Annals<Item = V::Item>> TableRule<Part<V, J>, TwinView<V::Item>, u32> for Law {
    ghost use Rattle.ps_twin.specs.Twins.{Twinned, tfounder};

    ghost holds = { λ seats s. Twinned V.stands V.firm V.mark J.stands J.firm J.mark V.maker seats s };

    ghost first = { λ seats. tfounder };
}

/// Draws a ticket for the journal.
pub struct JournalDraw;

impl<V: Annals, J: Annals<Item = V::Item>> Play<Part<V, J>, TwinView<V::Item>> for JournalDraw {
    ghost use Rattle.ps_twin.specs.Twins.{JDraws};

    ghost then = { λ s m n w. JDraws V.stands V.firm V.mark J.stands J.firm J.mark V.maker m n w };
}

/// Reads the word that says who holds the journal.
pub struct JournalLook;

impl<V: Annals, J: Annals<Item = V::Item>> Play<Part<V, J>, TwinView<V::Item>> for JournalLook {
    ghost use Rattle.ps_twin.specs.Twins.{JLooks};

    ghost then = { λ s m n w. JLooks V.stands V.firm V.mark J.stands J.firm J.mark V.maker m n w };
}

/// Adds a holder's flush to the steps of the journal.
pub struct JournalRaise;

impl<V: Annals, J: Annals<Item = V::Item>> Play<Part<V, J>, TwinView<V::Item>> for JournalRaise {
    ghost use Rattle.ps_twin.specs.Twins.{JRaises};

    ghost then = { λ s m n w. JRaises V.stands V.firm V.mark J.stands J.firm J.mark V.maker s.first m w };
}

/// Lets the next ticket for the journal be served.
pub struct JournalPass;

impl<V: Annals, J: Annals<Item = V::Item>> Play<Part<V, J>, TwinView<V::Item>> for JournalPass {
    ghost use Rattle.ps_twin.specs.Twins.{JPasses};

    ghost then = { λ s m n w. JPasses V.stands V.firm V.mark J.stands J.firm J.mark V.maker m w };
}

/// Draws a ticket for the state.
pub struct Draw;

impl<V: Annals, J: Annals<Item = V::Item>> Play<Part<V, J>, TwinView<V::Item>> for Draw {
    ghost use Rattle.ps_twin.specs.Twins.{Draws};

    ghost then = { λ s m n w. Draws V.stands V.firm V.mark J.stands J.firm J.mark V.maker m n w };
}

/// Reads the word that says who holds the state.
pub struct Look;

impl<V: Annals, J: Annals<Item = V::Item>> Play<Part<V, J>, TwinView<V::Item>> for Look {
    ghost use Rattle.ps_twin.specs.Twins.{Looks};

    ghost then = { λ s m n w. Looks V.stands V.firm V.mark J.stands J.firm J.mark V.maker m n w };
}

/// Lets the next ticket for the state be served.
pub struct Pass;

impl<V: Annals, J: Annals<Item = V::Item>> Play<Part<V, J>, TwinView<V::Item>> for Pass {
    ghost use Rattle.ps_twin.specs.Twins.{Passes};

    ghost then = { λ s m n w. Passes V.stands V.firm V.mark J.stands J.firm J.mark V.maker m w };
}

/// Adds a holder's own steps to those of the state.
pub struct Raise<G> {
    of: PhantomData<G>,
}

impl<V: Annals, J: Annals<Item = V::Item>, G: Names<V::Item>> Play<Part<V, J>, TwinView<V::Item>>
    for Raise<G> {
    ghost use Rattle.ps_twin.specs.Twins.{Raises};

    ghost then = { λ s m n w. Raises V.stands V.firm V.mark J.stands J.firm J.mark V.maker G.added m w };
}

/// Learns how many steps were made.
pub struct Count;

impl<V: Annals, J: Annals<Item = V::Item>> Play<Part<V, J>, TwinView<V::Item>> for Count {
    ghost use Rattle.ps_twin.specs.Twins.{Counts};

    ghost then = { λ s m n w. Counts V.stands V.firm V.mark J.stands J.firm J.mark V.maker m n w };
}

/// A seat makes another, and one takes another in.
pub struct Seating;

impl<I> Split<TwinView<I>> for Seating {
    ghost use Rattle.ps_twin.specs.Twins.{tmaking, tmade_by};

    ghost left = { tmaking };

    ghost right = { tmade_by };
}

impl<I> Join<TwinView<I>> for Seating {
    ghost use Rattle.ps_twin.specs.Twins.{tkeeping, tgone};

    ghost both = { tkeeping };

    ghost spent = { tgone };
}
