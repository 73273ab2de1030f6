//! What is so of the waits of runs.

ghost use Rattle.cmwq_board.specs.Runs.{LeftRefusesNothing};

/// A wait that a run has left is not why a wait of another run is refused: the answer is that where the waits are those
/// of the other runs alone.
pub fn waits_that_were_left_refuse_nothing()
    ensures { LeftRefusesNothing }
{}
