ghost use Rattle.std.specs.Prelude.{◌++◌, List, OnOk};
ghost use Rattle.bmp_specs.specs.Values.{EffectValue};
ghost use Rattle.rib_model.specs.Effects.{effect_values};
ghost use Rattle.router_tables.specs.Books.{StandsForBooks};
ghost use Rattle.router_tables.specs.Pending.{StandsForRows};

use crate::books::Books;
use crate::rows::Rows;
use rib_model::Effect;
use wire_io::NoMemory;

// Takes the effects of a message, in order; of a peer that isn't up no route is taken. Out of memory, books and
// rows may only be dropped.
pub(crate) fn take_effects(
    books: &mut Books,
    rows: &mut Rows,
    effects: &[Effect],
) -> Result<(), NoMemory>
    ensures books { OnOk result ((earlier : List EffectValue) → StandsForBooks books.old earlier → StandsForBooks books.new (earlier ++ effect_values effects.now)) }
    ensures rows { OnOk result ((earlier : List EffectValue) → StandsForBooks books.old earlier → StandsForRows rows.old earlier
        → StandsForRows rows.new (earlier ++ effect_values effects.now)) }
{
    for effect in effects {
        rows.take(books.peers(), effect)?;
        books.take(effect)?;
    }
    Ok(())
}
