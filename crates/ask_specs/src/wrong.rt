//! Wrong cases, at values: what no line asks, and what would be lost if less were told or kept. The functions do nothing.
ghost use Rattle.std.specs.Prelude.{codes};
ghost use Rattle.ask_specs.specs.Wrong.{AsksNothing, NamesNone, FlagsTell, DivisionTells, DownTells, UpTells, PremisesCanBeMet};

/// Words in another order are no query: `steps` stands before `full`, and `other` behind the other selectors.
pub fn another_order_asks_nothing()
    ensures { AsksNothing (codes "full steps table") × AsksNothing (codes "table other 35 through 64500") }
{}

/// A number of rows has no path attributes to tell.
pub fn full_stands_before_no_count()
    ensures { AsksNothing (codes "full count") }
{}

/// `full marks` takes no selector of path attributes and no `steps`, and `cut` no `full`.
pub fn full_marks_take_no_more()
    ensures { AsksNothing (codes "full marks through 1") × AsksNothing (codes "steps full marks") × AsksNothing (codes "full cut") }
{}

/// `full routers` takes no selector and no `steps`.
pub fn full_routers_take_no_more()
    ensures { AsksNothing (codes "full routers through 1") × AsksNothing (codes "full routers router 1") × AsksNothing (codes "steps full routers") }
{}

/// A community of an AS of four octets has no number of more than two.
pub fn a_number_too_large_names_none()
    ensures { NamesNone (codes "rt:65536:65536") }
{}

/// Two routes may differ in their attributes' flags alone, and the full line tells which is which.
pub fn flags_tell()
    ensures { FlagsTell }
{}

/// Two paths may have one text, and the full line tells which is which.
pub fn division_tells()
    ensures { DivisionTells }
{}

/// A copy that takes no heed of a peer that goes down isn't exact.
pub fn down_tells()
    ensures { DownTells }
{}

/// Where a peer that isn't up announced, the steps would leave a row that the lane hasn't.
pub fn up_tells()
    ensures { UpTells }
{}

/// The premises of the laws can be met: a row is as the readings give rows, and a lane announces of peers that are up.
pub fn premises_can_be_met()
    ensures { PremisesCanBeMet }
{}
