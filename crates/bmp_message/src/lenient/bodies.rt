ghost use Rattle.std.specs.Prelude.{⊤};
ghost use Rattle.bmp_specs.specs.LenientBody.{lenient};
ghost use Rattle.bmp_message.specs.Lenient.{lenient_state};

use crate::BodyReading;
use crate::dispatch::of_type;
use crate::head::head_of;
use crate::lenient::LenientReading;
use crate::makes::WithEffects;
use crate::types::MessageType;
use rib_model::Entry;
use std::alloc::Global;
use wire_io::BodyFault;

/// The meaning of bodies as routers send them.
impl BodyReading for LenientReading {
    ghost meaning = { lenient };

    ghost state = { lenient_state };

    ghost judge_wants = { λ _. ⊤ };

    ghost gives_messages = { λ _ _ _ _ _ means. record {
      head = means.head;
      effects = means.effects;
      kind_is = means.is_head.kind_is;
      size_is = means.is_head.size_is;
      entry_is = means.entry_is;
    } };

    #[inline]
    fn new(alloc: Global) -> LenientReading {
        LenientReading::new(alloc)
    }

    fn entry(&mut self, kind: u8, body: &[u8]) -> Result<Entry, BodyFault> {
        let effects = of_type::<LenientReading, WithEffects>(self, MessageType::of(kind), body)?;
        let head = head_of(kind, body, &effects);
        Ok(Entry::Message { head, effects })
    }

    #[inline]
    fn judge(&mut self, kind: u8, body: &[u8]) -> Result<(), BodyFault> {
        self.judge(kind, body)
    }
}
