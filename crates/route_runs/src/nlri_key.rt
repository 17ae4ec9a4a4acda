ghost use Rattle.std.specs.Prelude.{◌≡◌, refl, ⊤};
ghost use Rattle.std.specs.Cmp.{eq_by_cmp_equiv, partial_equiv_from_equiv, partial_order_from_agreeing_total};
ghost use Rattle.std.specs.Ordering.{as_partial_cmp, eq_by_cmp};
ghost use Rattle.bmp_specs.proofs.OrderLaws.{nlri_total};
ghost use Rattle.bmp_specs.specs.Orders.{nlri_cmp};

use crate::key::{RunKey, TableKey};
use crate::key_address::KeyAddress;
use crate::marks::{marked, unmarked};
use crate::see::see;
use ip_prefix::{Addr, Nlri, Prefix};
use std::alloc::AllocError;
use std::cmp::Ordering;
use std::marker::Model;

/// The key of an NLRI of IPv4.
pub(crate) type Key4 = NlriKey<u32>;

/// The key of an NLRI of IPv6.
pub(crate) type Key6 = NlriKey<(u64, u64)>;

/// An NLRI of one family in a few numbers, which stand in its order.
pub(crate) struct NlriKey<N: KeyAddress> {
    address: N,
    // Twice the length of the prefix, and one more where there is a path identifier.
    bits: u32,
    // Zero where there is none.
    id: u32,
}

impl<N: KeyAddress> Model for NlriKey<N> {
    ghost use Rattle.bmp_specs.specs.Values.{NlriValue};
    ghost use Rattle.route_runs.specs.NumberKeys.{nlri_of, IsKey, bits_of, id_of, bits_back, id_back};

    ghost Value = { NlriValue };

    ghost view = { λ k. nlri_of N.family (N.octets k.address) k.bits k.id };

    ghost invariant = { λ k. IsKey N.family N.octets N.number k.address k.bits k.id };

    ghost inverse = { λ n. record { address = N.number n.prefix.address.octets; bits = bits_of n; id = id_of n.id } };

    ghost inverse_ok = { λ k h i. record {
      address = h.address_back i;
      bits = bits_back k.bits k.id i;
      id = id_back k.bits k.id h.no_id i;
    } };
}

impl<N: KeyAddress> NlriKey<N> {
    /// The key of an NLRI of this family.
    pub(crate) fn of(nlri: &Nlri) -> NlriKey<N>
        requires { nlri.now.prefix.address.family ≡ N.family }
        ensures { result ≡ nlri.now }
    {
        let address = N::of(&nlri.prefix.addr());
        let (bits, id) = marked(nlri.prefix.bits(), nlri.id);
        NlriKey { address, bits, id }
    }

    /// The NLRI of this key.
    pub(crate) fn nlri(&self) -> Nlri
        ensures same { result ≡ self.now }
    {
        let addr = self.address.addr();
        let prefix = Prefix::new(addr, (self.bits / 2) as u8).unwrap();
        let id = unmarked(self.bits, self.id);
        Nlri { prefix, id }
    }
}

impl<N: KeyAddress> Clone for NlriKey<N> {
    ghost is_clone = { λ key copy. copy ≡ key };

    ghost is_infallible = { λ _. ⊤ };

    fn clone(&self) -> Result<NlriKey<N>, AllocError> {
        Ok(*self)
    }
}

impl<N: KeyAddress> Copy for NlriKey<N> {}

impl<N: KeyAddress> PartialEq for NlriKey<N> {
    ghost eq = { eq_by_cmp nlri_cmp };

    ghost laws = { partial_equiv_from_equiv (eq_by_cmp_equiv nlri_total) };

    fn eq(&self, other: &NlriKey<N>) -> bool {
        self.cmp(other).is_eq()
    }
}

impl<N: KeyAddress> Eq for NlriKey<N> {
    ghost laws = { eq_by_cmp_equiv nlri_total };
}

impl<N: KeyAddress> Ord for NlriKey<N> {
    ghost cmp = { nlri_cmp };

    ghost total = { nlri_total };

    ghost matches_partial_cmp = { λ x y. refl };

    ghost matches_eq = { λ x y. refl };

    // The address decides; then the length of the prefix, and a path identifier that isn't there comes first.
    fn cmp(&self, other: &NlriKey<N>) -> Ordering {
        if self.address == other.address {
            if self.bits == other.bits {
                return self.id.cmp(&other.id);
            }
            return self.bits.cmp(&other.bits);
        }
        self.address.cmp(&other.address)
    }
}

impl<N: KeyAddress> PartialOrd for NlriKey<N> {
    ghost partial_cmp = { as_partial_cmp nlri_cmp };

    ghost laws = { partial_order_from_agreeing_total nlri_cmp nlri_total (λ x y. refl) (λ x y. refl) };

    fn partial_cmp(&self, other: &NlriKey<N>) -> Option<Ordering> {
        Some(self.cmp(other))
    }
}

impl<N: KeyAddress> RunKey for NlriKey<N> {
    ghost use Rattle.bmp_specs.proofs.OrderLaws.{nlri_exact};

    ghost exact = { nlri_exact };

    fn rank(&self) -> u64 {
        self.address.rank()
    }
}

// The spot of an IPv4 address is its first 20 bits.
impl TableKey for NlriKey<u32> {
    type Spot = u32;

    ghost use Rattle.std.specs.Option.{is_some};
    ghost use Rattle.bmp_specs.specs.declared.wire.Family.TheVariants.{V4};
    ghost use Rattle.route_runs.specs.Nlri.{IsNlriOf};
    ghost use Rattle.route_runs.specs.Spots.{spot4_of, spots4_rise};

    ghost spot_of = { spot4_of };

    ghost is_key = { IsNlriOf V4 };

    ghost is_marked = { λ n. is_some n.id };

    fn has_id(&self) -> bool {
        unmarked(self.bits, self.id).is_some()
    }

    fn spot(&self) -> u32 {
        self.address / 4096
    }

    // The last one of the spot before.
    fn before(spot: u32) -> Option<NlriKey<u32>> {
        if spot == 0 || spot > 1_048_575 {
            return None;
        }
        let addr = Addr::v4((spot * 4096 - 1).to_be_bytes());
        let last = Nlri {
            prefix: Prefix::new(addr, 32).unwrap(),
            id: Some(u32::MAX),
        };
        // For the proof: it is an NLRI, so its key is one.
        see(&last);
        Some(NlriKey::of(&last))
    }

    ghost spots_rise = { spots4_rise };
}

// The spot of an IPv6 address is its upper half.
impl TableKey for NlriKey<(u64, u64)> {
    type Spot = u64;

    ghost use Rattle.std.specs.Option.{is_some};
    ghost use Rattle.bmp_specs.specs.declared.wire.Family.TheVariants.{V6};
    ghost use Rattle.route_runs.specs.Nlri.{IsNlriOf};
    ghost use Rattle.route_runs.specs.Spots.{spot6_of, spots6_rise};

    ghost spot_of = { spot6_of };

    ghost is_key = { IsNlriOf V6 };

    ghost is_marked = { λ n. is_some n.id };

    fn has_id(&self) -> bool {
        unmarked(self.bits, self.id).is_some()
    }

    fn spot(&self) -> u64 {
        self.address.0
    }

    // The last one of the spot before.
    fn before(spot: u64) -> Option<NlriKey<(u64, u64)>> {
        if spot == 0 {
            return None;
        }
        let [a, b, c, d, e, f, g, h] = (spot - 1).to_be_bytes();
        let addr = Addr::v6([
            a, b, c, d, e, f, g, h, 255, 255, 255, 255, 255, 255, 255, 255,
        ]);
        let last = Nlri {
            prefix: Prefix::new(addr, 128).unwrap(),
            id: Some(u32::MAX),
        };
        // For the proof: it is an NLRI, so its key is one.
        see(&last);
        Some(NlriKey::of(&last))
    }

    ghost spots_rise = { spots6_rise };
}
