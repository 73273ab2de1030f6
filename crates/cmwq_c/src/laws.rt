//! What the numbers of calls and replies can be relied on for.
ghost use Rattle.std.specs.Prelude.{[], ◌∷◌};
ghost use Rattle.cmwq_c.specs.Numbers.{CallNumbersReadAgain, RepliesStandApart};
ghost use Rattle.cmwq_c.specs.Offsets.{FieldsLieAt};
ghost use Rattle.cmwq_c.specs.Wakes.{CallersAreTold, ClockIsTold, WorkersAreTold};
ghost use Rattle.cmwq_c.specs.contracts.handle.Handle.{the_row as Handle};
ghost use Rattle.cmwq_c.specs.contracts.held.Held.{the_row as Held};
ghost use Rattle.cmwq_c.specs.contracts.numbers.ShapeNumbers.{the_row as ShapeNumbers};
ghost use Rattle.cmwq_c.specs.contracts.numbers.QueueNumbers.{the_row as QueueNumbers};
ghost use Rattle.cmwq_c.specs.contracts.numbers.WhoNumbers.{the_row as WhoNumbers};
ghost use Rattle.cmwq_c.specs.contracts.numbers.CallNumbers.{the_row as CallNumbers};
ghost use Rattle.cmwq_c.specs.contracts.numbers.ReplyNumbers.{the_row as ReplyNumbers};
ghost use Rattle.cmwq_c.specs.contracts.numbers.EntryNumbers.{the_row as EntryNumbers};
ghost use Rattle.cmwq_c.specs.contracts.numbers.WakesNumbers.{the_row as WakesNumbers};
ghost use Rattle.cmwq_c.specs.contracts.numbers.ItemNumbers.{the_row as ItemNumbers};
ghost use Rattle.cmwq_c.specs.contracts.handle.BoardHandle.{the_row as BoardHandle};
ghost use Rattle.cmwq_c.specs.contracts.held.HeldBoard.{the_row as HeldBoard};
ghost use Rattle.cmwq_c.specs.contracts.handle.LinesHandle.{the_row as LinesHandle};
ghost use Rattle.cmwq_c.specs.contracts.held.HeldLines.{the_row as HeldLines};

/// The numbers of each call are read again as it.
#[tactic(auto, using(crate::proofs::Tables::calls_read_again))]
pub fn calls_read_again()
    ensures { CallNumbersReadAgain }
{}

/// No two replies have the same numbers.
#[tactic(auto, using(crate::proofs::Tables::replies_stand_apart))]
pub fn replies_stand_apart()
    ensures { RepliesStandApart }
{}

/// Whoever is named is told, and nobody else.
#[tactic(auto, using(crate::proofs::Telling::callers_are_told, crate::proofs::Telling::workers_are_told, crate::proofs::Telling::clock_is_told))]
pub fn wakes_are_told()
    ensures callers { CallersAreTold }
    ensures workers { WorkersAreTold }
    ensures clock { ClockIsTold }
{}

/// Where the fields of each struct that C sees lie, in the order in which they are written. `tools/c` reads this table,
/// and the header is held against it.
pub fn fields_lie_as_told()
    ensures book { FieldsLieAt Handle (0 ∷ 8 ∷ []) }
    ensures pointer { FieldsLieAt Held (0 ∷ []) }
    ensures shape { FieldsLieAt ShapeNumbers (0 ∷ 8 ∷ 12 ∷ 14 ∷ 15 ∷ 16 ∷ []) }
    ensures queue { FieldsLieAt QueueNumbers (0 ∷ 2 ∷ 3 ∷ 4 ∷ []) }
    ensures who { FieldsLieAt WhoNumbers (0 ∷ 1 ∷ 2 ∷ []) }
    ensures call { FieldsLieAt CallNumbers (0 ∷ 8 ∷ 12 ∷ 14 ∷ 15 ∷ 16 ∷ 17 ∷ []) }
    ensures reply { FieldsLieAt ReplyNumbers (0 ∷ 8 ∷ 16 ∷ 18 ∷ []) }
    ensures entry { FieldsLieAt EntryNumbers (0 ∷ 8 ∷ 32 ∷ []) }
    ensures wakes { FieldsLieAt WakesNumbers (0 ∷ 24 ∷ 32 ∷ 33 ∷ 34 ∷ []) }
    ensures item { FieldsLieAt ItemNumbers (0 ∷ 8 ∷ 16 ∷ 17 ∷ 18 ∷ 19 ∷ 20 ∷ []) }
    ensures board { FieldsLieAt BoardHandle (0 ∷ 8 ∷ []) }
    ensures pointer_of_board { FieldsLieAt HeldBoard (0 ∷ []) }
    ensures lines { FieldsLieAt LinesHandle (0 ∷ 8 ∷ []) }
    ensures pointer_of_lines { FieldsLieAt HeldLines (0 ∷ []) }
{}
