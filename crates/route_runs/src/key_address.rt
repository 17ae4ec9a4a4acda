ghost use Rattle.std.specs.Prelude.{◌≡◌, ℕ, List};
ghost use Rattle.bmp_specs.specs.declared.wire.Family.{Family as FamilyValue};
ghost use Rattle.route_runs.specs.NumberKeys.{StandAsOctets};

use ip_prefix::{Addr, Family};

/// The addresses of one family in numbers, which stand in their order.
pub(crate) trait KeyAddress: Copy + Ord {
    ghost family: { FamilyValue };

    ghost octets: { Self → List ℕ };

    ghost number: { List ℕ → Self };

    /// The family.
    fn its_family() -> Family
        ensures { result ≡ family };

    /// The numbers of an address of this family.
    fn of(addr: &Addr) -> Self
        requires { addr.now.family ≡ family }
        ensures octets { octets result ≡ addr.now.octets }
        ensures back { number (octets result) ≡ result };

    /// The address.
    fn addr(&self) -> Addr
        ensures family { result.family ≡ family }
        ensures octets { result.octets ≡ octets self.now };

    /// A number by which the order of addresses is guessed.
    fn rank(&self) -> u64;

    ghost in_order: { StandAsOctets Self.cmp family octets number };
}

// An IPv4 address is one number.
impl KeyAddress for u32 {
    ghost use Rattle.std.specs.Int.{w32, from_be_bytes};
    ghost use Rattle.bmp_specs.specs.declared.wire.Family.TheVariants.{V4};
    ghost use Rattle.route_runs.specs.NumberKeys.{octets4};
    ghost use Rattle.route_runs.specs.AddressOrder.{octets4_cmp};

    ghost family = { V4 };

    ghost octets = { octets4 };

    ghost number = { from_be_bytes w32 };

    fn its_family() -> Family {
        Family::V4
    }

    fn of(addr: &Addr) -> u32 {
        let [a, b, c, d, ..] = addr.octets();
        u32::from_be_bytes([a, b, c, d])
    }

    fn addr(&self) -> Addr {
        Addr::v4(self.to_be_bytes())
    }

    fn rank(&self) -> u64 {
        *self as u64
    }

    ghost in_order = { octets4_cmp };
}

// An IPv6 address is two numbers, its halves.
impl KeyAddress for (u64, u64) {
    ghost use Rattle.std.specs.Prelude.{drop};
    ghost use Rattle.std.specs.Int.{w64, from_be_bytes};
    ghost use Rattle.bmp_specs.specs.declared.wire.Family.TheVariants.{V6};
    ghost use Rattle.route_runs.specs.NumberKeys.{octets6};
    ghost use Rattle.route_runs.specs.AddressOrder.{octets6_cmp};

    ghost family = { V6 };

    ghost octets = { octets6 };

    ghost number = { λ os. (from_be_bytes w64 os, from_be_bytes w64 (drop 8 os)) };

    fn its_family() -> Family {
        Family::V6
    }

    fn of(addr: &Addr) -> (u64, u64) {
        let [a, b, c, d, e, f, g, h, i, j, k, l, m, n, o, p] = addr.octets();
        let high = u64::from_be_bytes([a, b, c, d, e, f, g, h]);
        let low = u64::from_be_bytes([i, j, k, l, m, n, o, p]);
        (high, low)
    }

    fn addr(&self) -> Addr {
        let [a, b, c, d, e, f, g, h] = self.0.to_be_bytes();
        let [i, j, k, l, m, n, o, p] = self.1.to_be_bytes();
        Addr::v6([a, b, c, d, e, f, g, h, i, j, k, l, m, n, o, p])
    }

    fn rank(&self) -> u64 {
        self.0
    }

    ghost in_order = { octets6_cmp };
}
