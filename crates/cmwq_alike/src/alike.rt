//! Histories that are alike give the same answers, up to numbers, and stay alike.

ghost use Rattle.cmwq_alike.specs.Alike.{AlikeGoOn, AnswersAreAlike, CallsGoOnAlike, EachIsAlikeToItself};
ghost use Rattle.cmwq_alike.specs.Alike.{OwedAreAlike, RoomIsAlike, WaitsEndAlike, WaitsGoOnAlike};
ghost use Rattle.cmwq_alike.specs.Examples.{OthersAreAlike};

/// Histories that are alike stay so after the same entry, and so after the same call. Each is alike to itself.
pub fn alike_go_on()
    ensures entries { AlikeGoOn }
    ensures calls { CallsGoOnAlike }
    ensures itself { EachIsAlikeToItself }
{}

/// In histories that are alike the same call has the same answer, up to numbers.
pub fn answers_are_alike()
    ensures { AnswersAreAlike }
{}

/// Histories that are alike owe the same. If they are equally long, both have room for a call or neither has.
pub fn room_is_alike()
    ensures owed { OwedAreAlike }
    ensures room { RoomIsAlike }
{}

/// Tickets that are alike stay so after the same entry, whoever made it, and both may be ended or neither may.
pub fn waits_go_on_alike()
    ensures entries { WaitsGoOnAlike }
    ensures ends { WaitsEndAlike }
{}

/// Two small histories are alike, and what is open has another number in each.
pub fn others_are_alike()
    ensures { OthersAreAlike }
{}
