ghost use Rattle.std.specs.Prelude.{◌≡◌, ◌∷◌, ◌++◌, ℕ, List, IfSome, IfNone, ◌==◌, position};
ghost use Rattle.bmp_frames.specs.KeyText.{CutsAtDash};
ghost use Rattle.bmp_specs.specs.PeerText.{dash, IsKeyText};
ghost use Rattle.bmp_specs.specs.Values.{KeyValue};

use crate::PeerKey;
use crate::distinguisher::read_digits;
use ip_prefix::{parse_addr, parse_number_up_to};

/// The greatest peer type, which has one byte.
const MOST_KIND: u64 = 255;

// The place of the first `-`.
fn dash_at(text: &[u8]) -> Option<usize>
    ensures { result ≡ position (λ b. b == dash) text.now }
{
    text.iter().position(|byte| *byte == b'-')
}

// What stands before the first `-`, and what stands after it.
fn cut_at_dash(text: &[u8]) -> Option<(&[u8], &[u8])>
    ensures found { IfSome result (λ cut. CutsAtDash text.now cut.0.now cut.1.now) }
    ensures none { IfNone result ((front rest : List ℕ) → text.now ≡ front ++ (dash ∷ rest) → ⊥) }
{
    let Some(at) = dash_at(text) else {
        return None;
    };
    Some((&text[..at], &text[at + 1..]))
}

/// Reads the text of a peer, as the one peer that it writes: the peer type is a number to 255, the
/// distinguisher has 16 digits in lower case, and the address is in any form that is read. None exactly
/// where the text writes none.
pub fn parse_key(text: &[u8]) -> Option<PeerKey>
    ensures some { IfSome result (λ key. IsKeyText text.now key) }
    ensures only { IfSome result (λ key. (k : KeyValue) → IsKeyText text.now k → k ≡ key) }
    ensures none { IfNone result ((key : KeyValue) → IsKeyText text.now key → ⊥) }
{
    let Some((kind, rest)) = cut_at_dash(text) else {
        return None;
    };
    let Some(kind) = parse_number_up_to(kind, MOST_KIND) else {
        return None;
    };
    let Some((digits, address)) = cut_at_dash(rest) else {
        return None;
    };
    let Some(distinguisher) = read_digits(digits) else {
        return None;
    };
    let Some(address) = parse_addr(address) else {
        return None;
    };
    Some(PeerKey {
        kind: kind as u8,
        distinguisher,
        address,
    })
}
