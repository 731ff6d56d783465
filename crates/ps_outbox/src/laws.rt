// A law about the queues. The function is its contract.
ghost use Rattle.ps_outbox.specs.Boxes.{PushGoesLast, DropTakesFirst, OthersStay};

/// A push adds to the end of its own queue, a drop takes from the front of its own, and no other queue changes.
pub fn first_in_first_out()
    ensures push { PushGoesLast }
    ensures drop { DropTakesFirst }
    ensures others { OthersStay }
{}
