ghost use Rattle.std.specs.Prelude.{◌≡◌, ◌+◌, ◌*◌, ◌<◌, ◌≤◌, [], ◌∷◌, ◌++◌, IfSome, length};
ghost use Rattle.bmp_specs.specs.AddressText.{dotted, group_text, joined_groups, shortened_run, groups_text, address_text, IsAddressText};
ghost use Rattle.bmp_specs.specs.ShortenedRun.{Shortens};
ghost use Rattle.bmp_specs.specs.PrefixText.{prefix_text, IsPrefixText};

use crate::address::Addr;
use crate::prefixes::Prefix;
use crate::short::ShortText;
use bmp_specs::Family;
use std::net::Ipv6Addr;

// Appends numbers joined by dots.
fn put_dotted(text: &mut ShortText, numbers: &[u8])
    requires { length text.old + 4 * length numbers.now ≤ 64 }
    ensures whole { text.new ≡ text.old ++ dotted numbers.now }
    ensures short { length text.new ≤ length text.old + 4 * length numbers.now }
{
    match numbers {
        [] => {}
        [only] => text.put_number(*only as u64),
        [first, rest @ ..] => {
            text.put_number(*first as u64);
            text.push(b'.');
            put_dotted(text, rest);
        }
    }
}

// A hexadecimal digit in lower case.
fn hex_digit(value: u8) -> u8
    requires { value < 16 }
    ensures { result ∷ [] ≡ group_text value }
{
    if value < 10 {
        b'0' + value
    } else {
        b'a' + (value - 10)
    }
}

// Appends a group of an IPv6 address.
fn put_group(text: &mut ShortText, group: u16)
    requires { length text.old + length (group_text group) ≤ 64 }
    ensures { text.new ≡ text.old ++ group_text group }
{
    if group < 16 {
        text.push(hex_digit(group as u8));
    } else {
        put_group(text, group / 16);
        text.push(hex_digit((group % 16) as u8));
    }
}

// Appends groups joined by colons.
fn put_groups(text: &mut ShortText, groups: &[u16])
    requires { length text.old + 5 * length groups.now ≤ 64 }
    ensures whole { text.new ≡ text.old ++ joined_groups groups.now }
    ensures short { length text.new ≤ length text.old + 5 * length groups.now }
{
    match groups {
        [] => {}
        [only] => put_group(text, *only),
        [first, rest @ ..] => {
            put_group(text, *first);
            text.push(b':');
            put_groups(text, rest);
        }
    }
}

// Where the zero groups are that the text shortens: the first of them, and how many they are.
fn shortened_run(groups: &[u16; 8]) -> Option<(usize, usize)>
    ensures run { result ≡ shortened_run groups.now }
    ensures rules { Shortens groups.now result }
    ensures within { IfSome result (λ run. run.0 + run.1 ≤ 8) }
{
    let mut start = 8;
    let mut longest = 0;
    let mut run = 0;
    for i in (0..8).rev() {
        run = if groups[i] == 0 { run + 1 } else { 0 };
        if run >= longest {
            start = i;
            longest = run;
        }
    }
    if longest < 2 {
        None
    } else {
        Some((start, longest))
    }
}

// Appends eight groups.
fn put_shortened(text: &mut ShortText, groups: &[u16; 8])
    requires { length text.old ≤ 22 }
    ensures whole { text.new ≡ text.old ++ groups_text groups.now }
    ensures short { length text.new ≤ length text.old + 42 }
{
    match shortened_run(groups) {
        None => put_groups(text, groups),
        Some((start, count)) => {
            put_groups(text, &groups[..start]);
            text.extend(b"::");
            put_groups(text, &groups[start + count..]);
        }
    }
}

impl Addr {
    /// The text of the address: four numbers joined by dots for IPv4, and the text of RFC 5952,
    /// section 4, for IPv6. It has at most 42 bytes.
    pub fn text(&self) -> ShortText
        ensures whole { result ≡ address_text self.now }
        ensures read_back { IsAddressText result self.now }
        ensures short { length result ≤ 42 }
    {
        let octets = self.octets();
        let mut text = ShortText::new();
        match self.family() {
            Family::V4 => put_dotted(&mut text, &octets[..4]),
            Family::V6 => put_shortened(&mut text, &Ipv6Addr::from_octets(octets).segments()),
        }
        text
    }
}

impl Prefix {
    /// The text of the prefix: its address, `/` and its number of bits.
    pub fn text(&self) -> ShortText
        ensures whole { result ≡ prefix_text self.now }
        ensures read_back { IsPrefixText result self.now }
    {
        let mut text = self.addr().text();
        text.push(b'/');
        text.put_number(self.bits() as u64);
        text
    }
}
