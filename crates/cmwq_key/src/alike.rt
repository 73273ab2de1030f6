//! What a search takes over from a stand that it has visited to one that is alike. Each law is a function with an empty
//! body, and no running code needs it.

ghost use Rattle.cmwq_key.specs.Alike.{AlikeAreStands, DoneAlike, EachIsAlikeToItself, EndsAlike};
ghost use Rattle.cmwq_key.specs.Alike.{EndsLeaveNoneStuck, FirstIsStand, GetsStuckAlike, LoopsNeverEnd};
ghost use Rattle.cmwq_key.specs.Alike.{MayAlike, MoreMoves, MovesGoOnAlike, ReadRunsNameNone, RefusedAlike};
ghost use Rattle.cmwq_key.specs.Alike.{SchedulesAddEntries, SchedulesKeepScripts};
ghost use Rattle.cmwq_key.specs.Alike.{SchedulesLeadToStands, StuckAlike};

/// In stands that are alike the same parties may move, both are done or neither is, and the same waits are refused.
/// After the same move they are alike again.
pub fn alike_stands_move_alike()
    ensures may { MayAlike }
    ensures done { DoneAlike }
    ensures refusals { RefusedAlike }
    ensures moves { MovesGoOnAlike }
{}

/// Of stands that are alike, every schedule ends within so many moves from both or from neither. No shorter schedule
/// gets stuck from both or from neither, and the same schedules get stuck.
pub fn alike_stands_end_alike()
    ensures ends { EndsAlike }
    ensures stuck { StuckAlike }
    ensures schedules { GetsStuckAlike }
{}

/// No script that is read names a ticket by its number. Such a script leads to stands with a legal history whose waits
/// are for tickets of it. No move changes the script, and moves only add entries to the history.
pub fn scripts_lead_to_stands()
    ensures read { ReadRunsNameNone }
    ensures first { FirstIsStand }
    ensures schedules { SchedulesLeadToStands }
    ensures scripts { SchedulesKeepScripts }
    ensures entries { SchedulesAddEntries }
{}

/// Each such stand is alike to itself, and all that are alike are such.
pub fn stands_are_alike_to_themselves()
    ensures itself { EachIsAlikeToItself }
    ensures both { AlikeAreStands }
{}

/// If every schedule ends within so many moves, it does within more, and none gets stuck.
pub fn more_moves_end()
    ensures more { MoreMoves }
    ensures none_stuck { EndsLeaveNoneStuck }
{}

/// Where moves lead round among stands that are alike, no number of moves is enough.
pub fn loops_never_end()
    ensures { LoopsNeverEnd }
{}
