ghost use Rattle.std.specs.Prelude.{◌≡◌, Bool, IfSome};
ghost use Rattle.std.specs.declared.cmp.Ordering.TheVariants.{Less, Equal};

/// Keys that are equal in their order only where they are the same.
pub(crate) trait RunKey: Copy + Ord {
    /// A number by which the order of keys is guessed. It is best where the lesser of two keys has the lesser number.
    fn rank(&self) -> u64;

    ghost exact: { (x y : Self) → Self.Ord.cmp x y ≡ Equal → x ≡ y };
}

/// Keys of routes. Each has a spot, the first bits of its address, by which the index by origin knows it: so a pair of the
/// index is short, and stands for the routes that an AS originates beside each other. Keys stand in the order of their spots.
pub(crate) trait TableKey: RunKey {
    /// The first 20 bits of an IPv4 address, and the upper half of an IPv6 one.
    type Spot: RunKey;

    ghost spot_of: { Self → Self.Spot };

    ghost is_key: { Self → Type 0 };

    ghost is_marked: { Self → Bool };

    /// Whether it has a path identifier.
    fn has_id(&self) -> bool
        ensures { result ≡ is_marked self.now };

    /// The spot of this key.
    fn spot(&self) -> Self::Spot
        ensures { result ≡ spot_of self.now };

    /// A key whose spot is before this one.
    fn before(spot: Self::Spot) -> Option<Self>
        ensures { IfSome result (λ k. is_key k × (Self.Spot.cmp (spot_of k) spot ≡ Less)) };

    ghost spots_rise: { (x y : Self) → is_key x → is_key y → Self.Spot.cmp (spot_of x) (spot_of y) ≡ Less → Self.cmp x y ≡ Less };
}

impl<K: RunKey> RunKey for (u32, K) {
    ghost use Rattle.route_runs.specs.Keys.{pairs_exact};

    ghost exact = { pairs_exact K.cmp K.exact };

    fn rank(&self) -> u64 {
        self.0 as u64
    }
}

impl RunKey for u32 {
    ghost use Rattle.std.proofs.lemmas.Map.Lookups.{exact_unsigned};

    ghost exact = { exact_unsigned };

    fn rank(&self) -> u64 {
        *self as u64
    }
}

impl RunKey for u64 {
    ghost use Rattle.std.proofs.lemmas.Map.Lookups.{exact_unsigned};

    ghost exact = { exact_unsigned };

    fn rank(&self) -> u64 {
        *self
    }
}
