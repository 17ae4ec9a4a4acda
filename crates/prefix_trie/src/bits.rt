ghost use Rattle.std.specs.Prelude.{◌≡◌, length};
ghost use Rattle.prefix_trie.specs.Agreement.{AgreesFor};

/// How many first bits the bytes of two addresses share.
pub fn shared_bits(a: &[u8], b: &[u8]) -> u8
    requires a { length a.now ≡ 16 }
    requires b { length b.now ≡ 16 }
    ensures { AgreesFor a.now b.now result }
{
    let mut bits = 0u8;
    for i in 0..16 {
        let alike = (a[i] ^ b[i]).leading_zeros() as u8;
        bits += alike;
        if alike < 8 {
            return bits;
        }
    }
    bits
}
