//! What levels are, in every history.

ghost use Rattle.cmwq_output_laws.specs.LevelLaws.{LevelsAreAlone, LevelsAreTrue, PlacesHaveLevels, UsedPlacesAreShown};

/// In any history a level says what is open and active of its queue on its CPU, and how wide the queue is, after each
/// entry that it covers.
pub fn levels_are_true()
    ensures { LevelsAreTrue }
{}

/// Each place whose levels are asked for has one that covers an entry, whichever it is.
pub fn places_have_levels()
    ensures { PlacesHaveLevels }
{}

/// Of a place one level alone covers an entry, whichever it is.
pub fn levels_are_alone()
    ensures { LevelsAreAlone }
{}

/// In a legal history the place of each queueing is one of those that are shown.
pub fn used_places_are_shown()
    ensures { UsedPlacesAreShown }
{}
