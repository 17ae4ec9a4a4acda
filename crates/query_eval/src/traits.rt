//! Whether a route has what the selectors of path attributes ask.
ghost use Rattle.std.specs.Prelude.{◌≡◌, ◌↔◌, ◌<◌, ◌&&◌, ◌∷◌, ◌++◌, ℕ, List, IsTrue};
ghost use Rattle.std.specs.List.{list_any};
ghost use Rattle.std.specs.Option.{option_map};
ghost use Rattle.ask_specs.specs.Traits.{HasTraits, extended_communities, large_communities, no_traits, path_numbers};
ghost use Rattle.query_eval.specs.TraitTests.{goes_through, has_code, has_code_item, has_community, has_item, has_number, has_traits, if_named, large_octets, stand_in};
ghost use Rattle.query_lang.specs.TraitValues.{community_value, traits_value};

use as_path::{AsPath, Segment};
use path_attrs::{Attrs, Other};
use query_lang::{Asns, Community, Traits};

// The type codes of the attributes that are lists of communities, and how many octets each community has (RFC 8092,
// section 2; RFC 4360, section 2).
const LARGE_COMMUNITIES: u8 = 32;

const LARGE_SIZE: usize = 12;

const EXTENDED_COMMUNITIES: u8 = 16;

const EXTENDED_SIZE: usize = 8;

// The numbers that are still sought behind one: without the first, where it is this one.
fn sought_after<'a>(sought: &'a [u32], number: u32) -> &'a [u32]
    ensures { (more : List ℕ) → stand_in sought.now (number ∷ more) ≡ stand_in result.now more }
{
    match sought {
        [first, rest @ ..] if *first == number => rest,
        _ => sought,
    }
}

// The numbers that are still sought behind those of a segment. Each is found at its first place, so that as many as can be
// are left for the others.
fn sought_behind<'a>(sought: &'a [u32], numbers: &[u32]) -> &'a [u32]
    ensures { (more : List ℕ) → stand_in sought.now (numbers.now ++ more) ≡ stand_in result.now more }
{
    let mut left = sought;
    for number in numbers {
        left = sought_after(left, *number);
    }
    left
}

// Whether the numbers stand in the segments in this order.
fn stand_in_segments(numbers: &[u32], segments: &[Segment]) -> bool
    ensures { result ≡ stand_in numbers.now (path_numbers segments.now) }
{
    let mut sought = numbers;
    for segment in segments {
        sought = sought_behind(sought, segment.numbers.as_slice());
    }
    sought.is_empty()
}

// The same of a path; a route without one has no numbers.
fn stand_in_path(numbers: &[u32], path: &Option<AsPath>) -> bool
    ensures { result ≡ goes_through numbers.now path.now }
{
    match path {
        None => numbers.is_empty(),
        Some(path) => stand_in_segments(numbers, path.as_slice()),
    }
}

// Whether the AS numbers stand in AS_PATH in this order, each behind the one before, at whatever distance. The numbers of
// the path are looked at once.
fn goes_through(attrs: &Attrs, numbers: &[u32]) -> bool
    ensures { result ≡ goes_through numbers.now attrs.now.path }
{
    stand_in_path(numbers, &attrs.path)
}

// Whether a community stands in COMMUNITIES (RFC 1997).
fn has_plain(attrs: &Attrs, community: u32) -> bool
    ensures { result ≡ has_number community attrs.now.communities }
{
    attrs.communities.as_slice().contains(&community)
}

// Whether a value that is a list of items of this size has an item. One that isn't such a list has none.
fn has_item(value: &[u8], size: usize, item: &[u8]) -> bool
    requires { 0 < size }
    ensures { result ≡ has_item size item.now value.now }
{
    if value.is_empty() || value.len() % size != 0 {
        return false;
    }
    let mut rest = value;
    for _ in 0..value.len() / size {
        let (front, after) = rest.split_at(size);
        if front == item {
            return true;
        }
        rest = after;
    }
    false
}

// Whether an attribute is of this type, and has the item.
fn has_code_item(other: &Other, code: u8, size: usize, item: &[u8]) -> bool
    requires { 0 < size }
    ensures { result ≡ has_code_item code size item.now other.now }
{
    other.code == code && has_item(other.value.as_slice(), size, item)
}

// Whether an attribute of this type has the item.
fn has_items(others: &[Other], code: u8, size: usize, item: &[u8]) -> bool
    requires { 0 < size }
    ensures { result ≡ list_any (has_code_item code size item.now) others.now }
{
    others
        .iter()
        .any(|other| has_code_item(other, code, size, item))
}

// The octets of a large community.
fn large_octets(a: u32, b: u32, c: u32) -> [u8; LARGE_SIZE]
    ensures { result ≡ large_octets a b c }
{
    let mut octets = [0; LARGE_SIZE];
    octets[..4].copy_from_slice(&a.to_be_bytes());
    octets[4..8].copy_from_slice(&b.to_be_bytes());
    octets[8..].copy_from_slice(&c.to_be_bytes());
    octets
}

// Whether a large community stands in LARGE_COMMUNITY (RFC 8092). An attribute whose value isn't a list of them has none.
fn has_large(attrs: &Attrs, a: u32, b: u32, c: u32) -> bool
    ensures { result ≡ list_any (has_code_item large_communities 12 (large_octets a b c)) attrs.now.others }
{
    let item = large_octets(a, b, c);
    has_items(
        attrs.others.as_slice(),
        LARGE_COMMUNITIES,
        LARGE_SIZE,
        &item,
    )
}

// Whether an extended community stands in EXTENDED COMMUNITIES (RFC 4360). An attribute whose value isn't a list of them
// has none.
fn has_extended(attrs: &Attrs, octets: &[u8; EXTENDED_SIZE]) -> bool
    ensures { result ≡ list_any (has_code_item extended_communities 8 octets.now) attrs.now.others }
{
    has_items(
        attrs.others.as_slice(),
        EXTENDED_COMMUNITIES,
        EXTENDED_SIZE,
        octets,
    )
}

// Whether an attribute of this type, which isn't read, is there.
fn has_other(attrs: &Attrs, code: u8) -> bool
    ensures { result ≡ list_any (has_code code) attrs.now.others }
{
    attrs
        .others
        .as_slice()
        .iter()
        .any(|other| other.code == code)
}

// Whether the community is among those of the route.
fn has_community(attrs: &Attrs, community: &Community) -> bool
    ensures { result ≡ has_community attrs.now (community_value community.now) }
{
    match community {
        Community::Plain(community) => has_plain(attrs, *community),
        Community::Large(a, b, c) => has_large(attrs, *a, *b, *c),
        Community::Extended(octets) => has_extended(attrs, octets),
    }
}

// Whether the path has the numbers, where any are named.
fn has_named_path(attrs: &Attrs, through: &Option<Asns>) -> bool
    ensures { result ≡ if_named through.now (λ numbers. goes_through numbers attrs.now.path) }
{
    match through {
        None => true,
        Some(numbers) => goes_through(attrs, numbers.as_slice()),
    }
}

// Whether the route has the community, where one is named.
fn has_named_community(attrs: &Attrs, community: &Option<Community>) -> bool
    ensures { result ≡ if_named (option_map community_value community.now) (has_community attrs.now) }
{
    match community {
        None => true,
        Some(community) => has_community(attrs, community),
    }
}

// Whether the route has an attribute of the type, where one is named.
fn has_named_other(attrs: &Attrs, code: Option<u8>) -> bool
    ensures { result ≡ if_named code (λ code. list_any (has_code code) attrs.now.others) }
{
    match code {
        None => true,
        Some(code) => has_other(attrs, code),
    }
}

// Whether a route has the community and the attribute that are named.
fn has_named(attrs: &Attrs, traits: &Traits) -> bool
    ensures { result ≡ (if_named (option_map community_value traits.now.community) (has_community attrs.now) && if_named traits.now.other (λ code. list_any (has_code code) attrs.now.others)) }
{
    has_named_community(attrs, &traits.community) && has_named_other(attrs, traits.other)
}

/// Whether a route has all that is asked of it, as a test.
pub(crate) fn passes(attrs: &Attrs, traits: &Traits) -> bool
    ensures { result ≡ has_traits (traits_value traits.now) attrs.now }
{
    has_named_path(attrs, &traits.through) && has_named(attrs, traits)
}

/// Whether a route has all that is asked of it.
pub(crate) fn has_traits(attrs: &Attrs, traits: &Traits) -> bool
    ensures { IsTrue result ↔ HasTraits (traits_value traits.now) attrs.now }
{
    passes(attrs, traits)
}

/// Whether nothing is asked of a route.
pub(crate) fn asks_nothing(traits: &Traits) -> bool
    ensures { IsTrue result ↔ (traits_value traits.now ≡ no_traits) }
{
    traits.through.is_none() && traits.community.is_none() && traits.other.is_none()
}
