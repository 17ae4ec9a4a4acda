ghost use Rattle.std.specs.Prelude.{◌≡◌, ◌++◌, ◌∷◌, ◌<◌, [], length, map, IfOk, OnOk, Some};
ghost use Rattle.std.specs.Arc.{arc_value};
ghost use Rattle.std.specs.List.{AllByRecursion};
ghost use Rattle.std.specs.Option.{option_map};
ghost use Rattle.route_runs.specs.Rows.{sets_of, set_at, IsHandle};
ghost use Rattle.route_runs.specs.Gathering.{gathered, Adds, Keeps, IsRenamed};

use crate::find::set_of;
use crate::key::RunKey;
use crate::run::{GONE, Pack, Run};
use std::alloc::Global;
use std::sync::Arc;
use wire_io::NoMemory;

/// Sets that are gathered into packs.
#[derive(Drop)]
pub(crate) struct Gathered<A> {
    pub(crate) packs: Vec<Arc<Pack<A>>>,
    pub(crate) now: Pack<A>,
}

/// Begins a new pack.
pub(crate) fn turn<A: Drop>(out: &mut Gathered<A>, alloc: Global) -> Result<(), NoMemory>
    ensures packs { OnOk result (sets_of out.new.packs.items ≡ sets_of out.old.packs.items ++ map arc_value out.old.now.items ∷ []) }
    ensures now { OnOk result (out.new.now.items ≡ []) }
{
    let full = std::mem::replace(&mut out.now, Vec::new(alloc));
    let Ok(pack) = Arc::new(alloc, full) else {
        return Err(NoMemory);
    };
    if out.packs.push(pack).is_err() {
        return Err(NoMemory);
    }
    Ok(())
}

// Adds a set to the pack that is being filled.
fn fill<A: Drop>(out: &mut Gathered<A>, set: Arc<A>) -> Result<u32, NoMemory>
    requires { length out.old.now.items < 4096 }
    ensures { IfOk result (Adds (gathered out.old.packs.items out.old.now.items) (gathered out.new.packs.items out.new.now.items) (Some (arc_value set))) }
{
    let place = out.now.len();
    let pack = out.packs.len();
    if pack >= 1_048_574 {
        return Err(NoMemory);
    }
    if out.now.push(set).is_err() {
        return Err(NoMemory);
    }
    Ok(pack as u32 * 4096 + place as u32)
}

/// Adds a set, and hands its handle out.
pub(crate) fn add<A: Drop>(
    out: &mut Gathered<A>,
    alloc: Global,
    set: Arc<A>,
) -> Result<u32, NoMemory>
    ensures { IfOk result (Adds (gathered out.old.packs.items out.old.now.items) (gathered out.new.packs.items out.new.now.items) (Some (arc_value set))) }
{
    if out.now.len() < 4096 {
        return fill(out, set);
    }
    turn(out, alloc)?;
    fill(out, set)
}

/// Adds a set, or takes the handle of what is gone.
pub(crate) fn added<A: Drop>(
    out: &mut Gathered<A>,
    alloc: Global,
    set: Option<Arc<A>>,
) -> Result<u32, NoMemory>
    ensures { IfOk result (Adds (gathered out.old.packs.items out.old.now.items) (gathered out.new.packs.items out.new.now.items) (option_map arc_value set)) }
{
    match set {
        None => Ok(GONE),
        Some(set) => add(out, alloc, set),
    }
}

// A new handle for what a handle names.
fn renamed<A: Drop>(
    out: &mut Gathered<A>,
    alloc: Global,
    packs: &[Arc<Pack<A>>],
    given: u32,
) -> Result<u32, NoMemory>
    requires { IsHandle (sets_of packs.now) given }
    ensures { IfOk result (Adds (gathered out.old.packs.items out.old.now.items) (gathered out.new.packs.items out.new.now.items) (set_at (sets_of packs.now) given)) }
{
    match set_of(packs, given) {
        None => Ok(GONE),
        Some(set) => match Arc::try_clone(set) {
            Ok(set) => add(out, alloc, set),
            Err(_) => Err(NoMemory),
        },
    }
}

// A new handle, or the one before where the old handle is the same as before.
fn next_handle<A: Drop>(
    out: &mut Gathered<A>,
    alloc: Global,
    packs: &[Arc<Pack<A>>],
    given: u32,
    last: u32,
    handle: u32,
) -> Result<u32, NoMemory>
    requires given { IsHandle (sets_of packs.now) given }
    requires handle { IsHandle (gathered out.old.packs.items out.old.now.items) handle }
    requires same { set_at (gathered out.old.packs.items out.old.now.items) handle ≡ set_at (sets_of packs.now) last }
    ensures { IfOk result (Adds (gathered out.old.packs.items out.old.now.items) (gathered out.new.packs.items out.new.now.items) (set_at (sets_of packs.now) given)) }
{
    if given == last {
        return Ok(handle);
    }
    renamed(out, alloc, packs, given)
}

// New handles for what handles name. Neighbours that are the same keep one handle.
fn all_renamed<A: Drop>(
    out: &mut Gathered<A>,
    alloc: Global,
    packs: &[Arc<Pack<A>>],
    handles: &[u32],
) -> Result<Vec<u32>, NoMemory>
    requires { AllByRecursion (IsHandle (sets_of packs.now)) handles.now }
    ensures { IfOk result (λ vs. IsRenamed (sets_of packs.now) handles.now (gathered out.new.packs.items out.new.now.items) vs.items) }
{
    let Ok(mut copy) = Vec::with_capacity(alloc, handles.len()) else {
        return Err(NoMemory);
    };
    let mut last = GONE;
    let mut handle = GONE;
    for at in 0..handles.len() {
        let given = handles[at];
        handle = next_handle(out, alloc, packs, given, last, handle)?;
        last = given;
        if copy.push(handle).is_err() {
            return Err(NoMemory);
        }
    }
    Ok(copy)
}

// The same keys.
fn keys_again<K: RunKey>(alloc: Global, keys: &[K]) -> Result<Vec<K>, NoMemory>
    ensures { IfOk result (λ copy. copy.items ≡ keys.now) }
{
    match Vec::from_slice(alloc, keys) {
        Ok(copy) => Ok(copy),
        Err(_) => Err(NoMemory),
    }
}

impl<K: RunKey, A: Drop> Run<K, A> {
    /// The same rows, with packs that hold no set which no row names.
    pub(crate) fn tidy(&self, alloc: Global) -> Result<Run<K, A>, NoMemory>
        ensures { IfOk result (λ copy. copy ≡ self.now) }
    {
        let mut out = Gathered {
            packs: Vec::new(alloc),
            now: Vec::new(alloc),
        };
        let handles = all_renamed(&mut out, alloc, &self.packs, &self.handles)?;
        turn(&mut out, alloc)?;
        if out.packs.len() >= 1_048_576 {
            return Err(NoMemory);
        }
        let keys = keys_again(alloc, &self.keys)?;
        Ok(Run {
            keys,
            handles,
            packs: out.packs,
        })
    }
}
