ghost use Rattle.std.specs.Prelude.{◌≡◌, ◌↔◌, ◌≤◌, IsTrue};
ghost use Rattle.bmp_specs.specs.Containment.{HoldsAddress, ContainsPrefix};
ghost use Rattle.bmp_specs.specs.Prefix.{first_bits};

use crate::address::Addr;
use crate::prefixes::Prefix;
use byteorder::{BigEndian, ByteOrder};

// Whether the first bits of two addresses agree.
fn agree(a: &[u8; 16], b: &[u8; 16], bits: u8) -> bool
    requires { bits ≤ 128 }
    ensures { IsTrue result ↔ (first_bits bits a.now ≡ first_bits bits b.now) }
{
    if bits == 0 {
        return true;
    }
    let rest = 128 - bits;
    BigEndian::read_u128(a) >> rest == BigEndian::read_u128(b) >> rest
}

impl Prefix {
    /// Whether the address is of this family and begins with this prefix's bits.
    pub fn holds(&self, addr: &Addr) -> bool
        ensures { IsTrue result ↔ HoldsAddress self.now addr.now }
    {
        self.addr().family() == addr.family()
            && agree(&self.addr().octets(), &addr.octets(), self.bits())
    }

    /// Whether the other prefix is of this family, at least as long, and begins with this prefix's bits.
    pub fn contains(&self, other: &Prefix) -> bool
        ensures { IsTrue result ↔ ContainsPrefix self.now other.now }
    {
        self.bits() <= other.bits() && self.holds(&other.addr())
    }
}
