ghost use Rattle.std.specs.Prelude.{◌≡◌, ◌≤◌, length};
ghost use Rattle.std.proofs.Common.{rules};
ghost use Rattle.std.specs.Cmp.{partial_order_from_own_ties};
ghost use Rattle.std.specs.Cmp.Rules.{comparing};
ghost use Rattle.std.specs.Ordering.{as_partial_cmp};
ghost use Rattle.bmp_specs.specs.Orders.{key_cmp};
ghost use Rattle.bmp_specs.specs.NumberText.{number_text};
ghost use Rattle.bmp_specs.specs.PeerText.{key_text, IsKeyText};

use crate::distinguisher::digits_of;
use ip_prefix::{Addr, ShortText};
use std::cmp::Ordering;
use std::marker::Model;

/// A peer: its type, its distinguisher and its address (RFC 7854, section 4.2). In their order, with
/// IPv4 before IPv6 and addresses by their bytes.
#[derive(Clone, Copy, Debug, PartialEq, Eq)]
pub struct PeerKey {
    /// "Peer Type".
    pub kind: u8,
    /// "Peer Distinguisher".
    pub distinguisher: u64,
    /// "Peer Address".
    pub address: Addr,
}

impl Model for PeerKey {
    ghost use Rattle.bmp_specs.specs.Values.{KeyValue};

    ghost Value = { KeyValue };

    ghost view = { λ k. record { kind = k.kind; distinguisher = k.distinguisher; address = k.address } };

    ghost inverse = { λ v. record { kind = v.kind; distinguisher = v.distinguisher; address = v.address } };
}

// The text of a peer type.
fn kind_text(kind: u8) -> ShortText
    ensures whole { result ≡ number_text kind }
    ensures short { length result ≤ 3 }
{
    let mut text = ShortText::new();
    text.put_number(kind as u64);
    text
}

impl PeerKey {
    /// Gives the text: the peer type, the distinguisher as 16 hexadecimal digits and the address, joined
    /// by `-`. `parse_key` of the text gives the peer again.
    pub fn text(&self) -> ShortText
        ensures same { result ≡ key_text self.now }
        ensures read_back { IsKeyText result self.now }
    {
        let mut text = kind_text(self.kind);
        text.push(b'-');
        text.extend(&digits_of(self.distinguisher));
        text.push(b'-');
        text.extend(self.address.text().as_slice());
        text
    }
}

impl Ord for PeerKey {
    ghost cmp = { key_cmp };

    ghost total = { Prim.search (comparing, rules) depth 9 };

    ghost matches_partial_cmp = { Prim.search (comparing, rules) depth 9 };

    ghost matches_eq = { Prim.search (comparing, rules) depth 9 };

    fn cmp(&self, other: &PeerKey) -> Ordering {
        self.kind
            .cmp(&other.kind)
            .then(self.distinguisher.cmp(&other.distinguisher))
            .then(self.address.cmp(&other.address))
    }
}

impl PartialOrd for PeerKey {
    ghost partial_cmp = { as_partial_cmp key_cmp };

    ghost laws = { partial_order_from_own_ties (Prim.search (comparing, rules) depth 9) (Prim.search (comparing, rules) depth 9) };

    fn partial_cmp(&self, other: &PeerKey) -> Option<Ordering> {
        Some(self.cmp(other))
    }
}
