ghost use Rattle.std.specs.Prelude.{◌≡◌, IfOk, refl};
ghost use Rattle.std.specs.Arc.{arc_value};
ghost use Rattle.std.proofs.Common.{rules};
ghost use Rattle.prefix_trie.specs.Sharing.{IsAlike};

use crate::trie::Trie;
use std::sync::Arc;
use thiserror::Error;

/// Out of memory.
#[derive(Clone, Copy, Debug, PartialEq, Eq, Error)]
#[error("out of memory")]
pub struct NoMemory;

/// Values that are copied without what they hold, as an `Arc` is.
pub trait Share {
    ghost alike: { Self → Self → Type 0 };

    /// An equal value: one that is alike.
    fn share(&self) -> Result<Self, NoMemory>
    where
        Self: Sized,
        ensures { IfOk result (alike self.now) };

    ghost same: { (x : Self) → alike x x };

    ghost further: { (x y z : Self) → alike x y → alike y z → alike x z };
}

impl<A> Share for Arc<A> {
    ghost alike = { λ x y. arc_value y ≡ arc_value x };

    ghost same = { λ x. refl };

    ghost further = { λ x y z a b. Prim.search (rules) };

    fn share(&self) -> Result<Arc<A>, NoMemory> {
        Arc::try_clone(self).map_err(|_| NoMemory)
    }
}

impl<T: Share + Drop> Trie<T> {
    /// An equal table: the same prefixes, each with a value that is alike.
    pub fn share(&self) -> Result<Trie<T>, NoMemory>
        ensures { IfOk result (IsAlike T.alike self.now) }
    {
        match self.pairs.clone() {
            Ok(pairs) => Ok(Trie {
                pairs,
                alloc: self.alloc,
                family: self.family,
            }),
            Err(_) => Err(NoMemory),
        }
    }
}
