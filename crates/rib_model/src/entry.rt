use crate::EffectList;
use crate::head::Head;
use crate::opening::{Closing, Opening};

/// One entry in the history of a lane, which is the place of one router.
#[derive(Drop)]
pub enum Entry {
    /// A connection was opened.
    Opened(Opening),

    /// A message: its head, and its effects in order.
    Message { head: Head, effects: EffectList },

    /// The connection was closed.
    Closed(Closing),
}
