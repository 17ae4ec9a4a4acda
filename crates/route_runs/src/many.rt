ghost use Rattle.std.specs.Prelude.{◌≡◌, ◌∷◌, [], true, replicate, IfOk};
ghost use Rattle.std.specs.Arc.{arc_value};
ghost use Rattle.std.specs.List.Sorted.{IsStrictlySortedBy};
ghost use Rattle.std.specs.Option.{option_map};
ghost use Rattle.route_runs.specs.Message.{IsAllSet, HasSame};

use crate::by_guess::keys_by_guess;
use crate::key::RunKey;
use crate::run::Run;
use crate::tidy::{Gathered, added, turn};
use std::alloc::Global;
use std::sync::Arc;
use wire_io::NoMemory;

/// Whether keys rise.
pub(crate) fn keys_rise<K: RunKey>(keys: &[K]) -> bool
    ensures { result ≡ true → IsStrictlySortedBy K.cmp keys.now }
{
    for at in 1..keys.len() {
        let before = keys[at - 1];
        let key = keys[at];
        if !before.cmp(&key).is_lt() {
            return false;
        }
    }
    true
}

// Keys sorted, each once.
fn sorted_keys<K: RunKey>(keys: Vec<K>) -> Vec<K>
    ensures ordered { IsStrictlySortedBy K.cmp result.items }
    ensures same { HasSame keys.items result.items }
{
    let mut keys = keys;
    keys.sort_unstable();
    keys.dedup();
    keys
}

// Keys in order, each once. Where they stand so they stay as they are.
fn in_order<K: RunKey>(alloc: Global, keys: Vec<K>) -> Vec<K>
    ensures ordered { IsStrictlySortedBy K.cmp result.items }
    ensures same { HasSame keys.items result.items }
{
    if keys_rise(&keys) {
        return keys;
    }
    if let Some(list) = keys_by_guess(alloc, &keys) {
        return list;
    }
    sorted_keys(keys)
}

// So many times one handle.
fn repeated(alloc: Global, handle: u32, times: usize) -> Result<Vec<u32>, NoMemory>
    ensures { IfOk result (λ list. list.items ≡ replicate times handle) }
{
    match vec![in alloc; handle; times] {
        Ok(list) => Ok(list),
        Err(_) => Err(NoMemory),
    }
}

impl<K: RunKey, A: Drop> Run<K, A> {
    /// The run of one message: its keys, in any order, each with the one set, or gone.
    pub(crate) fn many(
        alloc: Global,
        keys: Vec<K>,
        set: Option<Arc<A>>,
    ) -> Result<Run<K, A>, NoMemory>
        ensures { IfOk result (IsAllSet K.cmp keys.items (option_map arc_value set)) }
    {
        let keys = in_order(alloc, keys);
        let mut out = Gathered {
            packs: Vec::new(alloc),
            now: Vec::new(alloc),
        };
        let handle = added(&mut out, alloc, set)?;
        turn(&mut out, alloc)?;
        if out.packs.len() >= 1_048_576 {
            return Err(NoMemory);
        }
        let handles = repeated(alloc, handle, keys.len())?;
        Ok(Run {
            keys,
            handles,
            packs: out.packs,
        })
    }
}
