use crate::Effect;
use wire_io::List;

/// The effects of a message, in order, those on many routes as one item.
pub type EffectList = List<Effect>;
