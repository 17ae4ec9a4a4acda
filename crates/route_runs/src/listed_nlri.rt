ghost use Rattle.std.specs.Prelude.{◌≡◌, ◌++◌, ◌∷◌, [], false, map, IfOk, OnOk};
ghost use Rattle.std.specs.Arc.{arc_value};
ghost use Rattle.std.specs.Option.{option_map};
ghost use Rattle.bmp_specs.specs.Orders.{nlri_cmp};
ghost use Rattle.bmp_specs.specs.Values.{NlriValue};
ghost use Rattle.bmp_specs.specs.declared.wire.Family.TheVariants.{V4};
ghost use Rattle.route_runs.specs.Layers.{all_to, IsLayered};
ghost use Rattle.route_runs.specs.Nlri.{is_family, is_same, of_family};

use crate::key_address::KeyAddress;
use crate::listed::Listed;
use crate::nlri_key::NlriKey;
use crate::table_cursor::family_of;
use crate::tidy::added;
use ip_prefix::{Family, Nlri};
use std::alloc::Global;
use std::sync::Arc;
use wire_io::NoMemory;

// Whether an NLRI is of this family.
fn is_of(nlri: &Nlri, family: Family) -> bool
    ensures { result ≡ is_family family nlri.now }
{
    match family_of(nlri) {
        Family::V4 => is_v4(family),
        Family::V6 => !is_v4(family),
    }
}

// Whether this is the family of IPv4.
fn is_v4(family: Family) -> bool
    ensures { result ≡ is_same V4 family }
{
    match family {
        Family::V4 => true,
        Family::V6 => false,
    }
}

/// Whether a list has an NLRI of this family.
pub(crate) fn has_family(nlris: &[Nlri], family: Family) -> bool
    ensures { result ≡ false → of_family family nlris.now ≡ [] }
{
    for nlri in nlris {
        if is_of(nlri, family) {
            return true;
        }
    }
    false
}

// Lists one key more with a handle.
fn list_one<K: Copy>(rows: &mut Vec<(K, u32)>, key: K, handle: u32) -> Result<(), NoMemory>
    ensures { OnOk result (rows.new.items ≡ rows.old.items ++ (key, handle) ∷ []) }
{
    match rows.push((key, handle)) {
        Ok(_) => Ok(()),
        Err(_) => Err(NoMemory),
    }
}

// Memory for so many rows more: where there is none, for three times as many as there are, since all of them are copied.
fn make_room<K: Copy>(rows: &mut Vec<(K, u32)>, more: usize) -> Result<(), NoMemory>
    ensures { OnOk result (rows.new.items ≡ rows.old.items) }
{
    if rows.capacity().saturating_sub(rows.len()) >= more {
        return Ok(());
    }
    match rows.reserve(rows.len().saturating_mul(3).max(more)) {
        Ok(_) => Ok(()),
        Err(_) => Err(NoMemory),
    }
}

// Lists the NLRI of one family with one handle.
fn list<N: KeyAddress>(
    rows: &mut Vec<(NlriKey<N>, u32)>,
    nlris: &[Nlri],
    handle: u32,
) -> Result<(), NoMemory>
    ensures { OnOk result (rows.new.items ≡ rows.old.items ++ map (λ (n : NlriValue). (n, handle)) (of_family N.family nlris.now)) }
{
    make_room(rows, nlris.len())?;
    for nlri in nlris {
        if is_of(nlri, N::its_family()) {
            list_one(rows, NlriKey::of(nlri), handle)?;
        }
    }
    Ok(())
}

impl<N: KeyAddress, A: Drop> Listed<NlriKey<N>, A> {
    /// The changes, and after them those of one message: each of its NLRI of this family has the one set, or is gone.
    pub(crate) fn add(
        self,
        alloc: Global,
        nlris: &[Nlri],
        set: Option<Arc<A>>,
    ) -> Result<Listed<NlriKey<N>, A>, NoMemory>
        ensures { IfOk result (λ new. IsLayered nlri_cmp self (all_to (of_family N.family nlris.now) (option_map arc_value set)) new) }
    {
        let mut rows = self.rows;
        let mut sets = self.sets;
        let handle = added(&mut sets, alloc, set)?;
        list(&mut rows, nlris, handle)?;
        Ok(Listed { rows, sets })
    }
}
