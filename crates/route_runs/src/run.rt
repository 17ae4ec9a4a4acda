ghost use Rattle.std.specs.Prelude.{◌≡◌, length};

use crate::key::RunKey;
use std::marker::Model;
use std::sync::Arc;

/// Up to 4,096 sets that are shared by the runs that name them.
pub(crate) type Pack<A> = Vec<Arc<A>>;

/// The handle of a key that is gone.
pub(crate) const GONE: u32 = u32::MAX;

/// Keys in order, each with a set of attributes or gone. It is never changed.
#[derive(Drop)]
pub(crate) struct Run<K: RunKey, A> {
    pub(crate) keys: Vec<K>,
    pub(crate) handles: Vec<u32>,
    pub(crate) packs: Vec<Arc<Pack<A>>>,
}

impl<K: RunKey, A> Model for Run<K, A> {
    ghost use Rattle.std.specs.Prelude.{List, Option};
    ghost use Rattle.route_runs.specs.Rows.{rows, sets_of, IsRun};

    ghost Value = { List (K × Option A) };

    ghost view = { λ r. rows (sets_of r.packs.items) r.keys.items r.handles.items };

    ghost invariant = { λ r. IsRun K.cmp (sets_of r.packs.items) r.keys.items r.handles.items };
}

impl<K: RunKey, A> Run<K, A> {
    /// How many rows there are.
    pub(crate) fn len(&self) -> usize
        ensures { result ≡ length self.now }
    {
        self.keys.len()
    }
}
