ghost use Rattle.std.specs.Prelude.{◌≡◌, ℕ, IfSome, IfNone};
ghost use Rattle.bmp_specs.specs.PeerText.{distinguisher_text, IsDistinguisherText};

use byteorder::{BigEndian, ByteOrder};

// The 16 hexadecimal digits of a distinguisher.
pub(crate) fn digits_of(distinguisher: u64) -> [u8; 16]
    ensures { result ≡ distinguisher_text distinguisher }
{
    let mut digits = [0u8; 16];
    if hex::encode_to_slice(distinguisher.to_be_bytes(), &mut digits).is_err() {
        // 16 digits have room for 8 octets
        unreachable!();
    }
    digits
}

// The distinguisher that the text writes: 16 digits with lower case letters, as they are printed.
pub(crate) fn read_digits(text: &[u8]) -> Option<u64>
    ensures found { IfSome result (λ d. IsDistinguisherText text.now d) }
    ensures none { IfNone result ((d : ℕ) → IsDistinguisherText text.now d → ⊥) }
{
    let mut bytes = [0u8; 8];
    if hex::decode_to_slice(text, &mut bytes).is_err() {
        return None;
    }
    let distinguisher = BigEndian::read_u64(&bytes);
    if digits_of(distinguisher).as_slice() != text {
        return None;
    }
    Some(distinguisher)
}
