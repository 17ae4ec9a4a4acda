//! What follows of the definitions alone. The functions do nothing: each tells its law to proofs above.
ghost use Rattle.bmp_specs.specs.LenientBody.{lenient};
ghost use Rattle.bmp_specs.specs.MessageEffects.{strict};
ghost use Rattle.ask_specs.specs.Asking.{AsksOne, AsksOneQuery, IsConservative};
ghost use Rattle.ask_specs.specs.AskReply.{KeepsReplies};
ghost use Rattle.ask_specs.specs.FullLine.{BeginsWithLine, TellsAll};
ghost use Rattle.ask_specs.specs.Facts.{ForgetsFacts};
ghost use Rattle.ask_specs.specs.FullMarks.{BeginsWithMark, CountsAddUp, CountsOnce};
ghost use Rattle.ask_specs.specs.FullRouters.{BeginsWithRouter, StaysAfterClose};
ghost use Rattle.ask_specs.specs.Lives.{LivesAnnounceOfUp};
ghost use Rattle.ask_specs.specs.Mirror.{KeepsExactCopy};
ghost use Rattle.ask_specs.specs.MirrorReply.{ChangeLinesTell, ChangesTell, RowsTell};
ghost use Rattle.ask_specs.specs.Offer.{OffersAll, OffersOne, OffersPlain};
ghost use Rattle.ask_specs.specs.StepRows.{StepsLeaveRows};

/// A plain line asks one thing at most.
pub fn plain_lines_ask_one_thing()
    ensures { AsksOneQuery }
{}

/// Each plain line has its one meaning among all asks.
pub fn lines_keep_their_meaning()
    ensures { IsConservative }
{}

/// Each plain line has its plain replies, and no others.
pub fn lines_keep_their_replies()
    ensures { KeepsReplies }
{}

/// Each line asks one thing at most.
pub fn lines_ask_one_thing()
    ensures { AsksOne }
{}

/// Each plain line has its one meaning among all that is offered.
pub fn offered_lines_keep_their_meaning()
    ensures { OffersPlain }
{}

/// Each line asks one thing at most that is offered.
pub fn offered_lines_ask_one_thing()
    ensures { OffersOne }
{}

/// All that a line may ask is offered.
pub fn all_asks_are_offered()
    ensures { OffersAll }
{}

/// Two rows with the same full line are the same row of the same lane.
pub fn full_lines_tell_all()
    ensures { TellsAll }
{}

/// A full line begins with the plain line, without its end.
pub fn full_lines_begin_with_lines()
    ensures { BeginsWithLine }
{}

/// The rows that a lane has are exactly those that its steps leave, where each announcement is of a peer that is up.
pub fn steps_leave_rows()
    ensures { StepsLeaveRows }
{}

/// What connections gave announces routes of peers that are up alone, in either reading.
pub fn lives_announce_of_up()
    ensures { LivesAnnounceOfUp strict × LivesAnnounceOfUp lenient }
{}

/// A copy of a lane's rows that was exact at one reply is exact at the next, or is known to be none.
pub fn copies_stay_exact()
    ensures { KeepsExactCopy }
{}

/// The reply of `steps table router N` tells the number of steps of the lane, and all its rows.
pub fn replies_tell_rows()
    ensures { RowsTell }
{}

/// The reply of `changes N S` tells each step from S on, in order, where it says that none is missed.
pub fn replies_tell_changes()
    ensures { ChangesTell }
{}

/// Two changes with the same line of `full changes` are one change of one lane.
pub fn change_lines_tell_all()
    ensures { ChangeLinesTell }
{}

/// A line of `full marks` is the line of `marks`, without its end, and then the number of rows.
pub fn full_marks_begin_with_marks()
    ensures { BeginsWithMark }
{}

/// A mark has one number of rows.
pub fn marks_count_once()
    ensures { CountsOnce }
{}

/// The numbers of rows of `full marks` add up to that of `count` with the same selectors.
pub fn marks_add_up()
    ensures { CountsAddUp }
{}

/// No reply depends on from where a connection came, when it was opened and closed, what a Per-Peer Header tells beside its
/// peer, or which families were passed over.
pub fn replies_forget_facts()
    ensures { ForgetsFacts }
{}

/// A line of `full routers` is the line of `routers`, without its end, and then further fields.
pub fn full_routers_begin_with_routers()
    ensures { BeginsWithRouter }
{}

/// What a connection told and counted stays after it is closed.
pub fn connections_stay_after_close()
    ensures { StaysAfterClose }
{}
