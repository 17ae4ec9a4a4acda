//! What the wider query language means: definitions over those of `bmp_specs`, and their laws; nothing that runs.
//!
//! A plain line is a query of `bmp_specs`; a line of the wider language is a plain line, or one with further words. The reply
//! to a plain line is that of `bmp_specs`, byte for byte (`specs/Asking.antt`, `specs/AskReply.antt`). `specs/Offer.antt` says
//! that the station answers all of it, `specs/FullLine.antt` the line of a route with all its path attributes,
//! `specs/Mirror.antt` how a client keeps a copy of a lane's rows, `specs/MirrorReply.antt` that replies tell it what it
//! needs, and `specs/Lives.antt` what connections give. `src/laws.rt` has what is proved of these, and `src/wrong.rt` cases
//! that must not be.
#![tactic(auto)]

mod laws;
mod wrong;

pub use laws::{
    all_asks_are_offered, change_lines_tell_all, connections_stay_after_close, copies_stay_exact,
    full_lines_begin_with_lines, full_lines_tell_all, full_marks_begin_with_marks,
    full_routers_begin_with_routers, lines_ask_one_thing, lines_keep_their_meaning,
    lines_keep_their_replies, lives_announce_of_up, marks_add_up, marks_count_once,
    offered_lines_ask_one_thing, offered_lines_keep_their_meaning, plain_lines_ask_one_thing,
    replies_forget_facts, replies_tell_changes, replies_tell_rows, steps_leave_rows,
};
pub use wrong::{
    a_number_too_large_names_none, another_order_asks_nothing, division_tells, down_tells,
    flags_tell, full_marks_take_no_more, full_routers_take_no_more, full_stands_before_no_count,
    premises_can_be_met, up_tells,
};
