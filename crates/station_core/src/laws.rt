//! What follows of schedules, for those who cite them.
ghost use Rattle.bmp_specs.specs.MessageEffects.{strict};
ghost use Rattle.station_core.specs.Laws.{AskersRemember, HistoriesGrow, RepliesAreOnFronts};

/// Each history of a schedule begins with those before it; a reply is that to what was asked, on as many of the last
/// history's entries as its revision says; and an asker never has seen less than before, nor more than there is.
pub fn schedules_grow()
    ensures histories { HistoriesGrow strict }
    ensures replies { RepliesAreOnFronts strict }
    ensures askers { AskersRemember strict }
{}
