ghost use Rattle.std.specs.Prelude.{◌≡◌, ◌+◌, ◌*◌, ◌<◌, ◌≤◌, ◌≢◌, ◌++◌, [], ◌∷◌, codes, length, map, take, IfSome, Some};
ghost use Rattle.std.specs.List.{join_with_byte};
ghost use Rattle.bmp_specs.specs.AddressText.{address_text, text_in};
ghost use Rattle.bmp_specs.specs.Lines.{further};
ghost use Rattle.bmp_specs.specs.PrefixText.{prefix_text};
ghost use Rattle.bmp_specs.specs.NumberText.{number_text};
ghost use Rattle.bmp_specs.specs.RouteLine.{comma, text_or_absent, hop_text, origin_text, yes_or_no, path_text, aggregator_text, comma_list, community_text, others_text, segment_pieces, attribute_fields, id_fields};
ghost use Rattle.reply_text.specs.Fronts.{front_text};
ghost use Rattle.reply_text.specs.Pieces.{behind, spaced};

// The pieces of a route's line in an array, each a field of the line in its order. What is longer than its room here goes
// the way of `route`.

use crate::hop::v6_text;
use crate::pen::{ROOM, byte, number, octet, word};
use crate::values::yes_or_no;
use as_path::{AsPath, Segment};
use bmp_frames::{PeerKey, ViewText};
use bmp_specs::{Family, SegmentKind, View};
use ip_prefix::{Addr, Nlri, Prefix};
use path_attrs::{Aggregator, Attrs, Other};
use rib_model::RowKey;
use wire_io::ByteList;

// Puts the first four bytes as an IPv4 address.
#[inline(always)]
pub(crate) fn dots(line: &mut [u8; ROOM], at: usize, octets: &[u8]) -> usize
    requires room { at + 15 ≤ 1024 }
    requires four { 4 ≤ length octets.now }
    ensures whole { take result line.new ≡ take at line.old ++ text_in Family.V4 octets.now }
    ensures short { result ≤ at + 15 }
{
    let a = octet(line, at, octets[0]);
    let a = byte(line, a, b'.');
    let b = octet(line, a, octets[1]);
    let b = byte(line, b, b'.');
    let c = octet(line, b, octets[2]);
    let c = byte(line, c, b'.');
    octet(line, c, octets[3])
}

// Puts an address.
#[inline(always)]
pub(crate) fn address(line: &mut [u8; ROOM], at: usize, addr: &Addr) -> usize
    requires { at + 42 ≤ 1024 }
    ensures whole { take result line.new ≡ take at line.old ++ address_text addr.now }
    ensures short { result ≤ at + 42 }
{
    match addr.family() {
        Family::V4 => dots(line, at, &addr.octets()),
        Family::V6 => word(line, at, addr.text().as_slice()),
    }
}

// Puts the field of ORIGIN.
#[inline(always)]
pub(crate) fn origin(line: &mut [u8; ROOM], at: usize, origin: Option<u8>) -> usize
    requires { at + 18 ≤ 1024 }
    ensures whole { take result line.new ≡ take at line.old ++ (codes " origin=" ++ text_or_absent origin_text origin) }
    ensures short { result ≤ at + 18 }
{
    match origin {
        None => word(line, at, b" origin=-"),
        Some(0) => word(line, at, b" origin=igp"),
        Some(1) => word(line, at, b" origin=egp"),
        Some(2) => word(line, at, b" origin=incomplete"),
        Some(code) => {
            let next = word(line, at, b" origin=");
            octet(line, next, code)
        }
    }
}

// Puts a number that may be absent.
#[inline(always)]
fn or_absent(line: &mut [u8; ROOM], at: usize, value: Option<u32>) -> usize
    requires { at + 10 ≤ 1024 }
    ensures whole { take result line.new ≡ take at line.old ++ text_or_absent number_text value }
    ensures short { result ≤ at + 10 }
{
    match value {
        None => byte(line, at, b'-'),
        Some(value) => number(line, at, value),
    }
}

// Puts the fields of MULTI_EXIT_DISC, LOCAL_PREF and ATOMIC_AGGREGATE.
#[inline(always)]
pub(crate) fn metrics(
    line: &mut [u8; ROOM],
    at: usize,
    med: Option<u32>,
    pref: Option<u32>,
    atomic: bool,
) -> usize
    requires { at + 42 ≤ 1024 }
    ensures whole { take result line.new ≡ take at line.old ++ (codes " med=" ++ (text_or_absent number_text med
        ++ (codes " pref=" ++ (text_or_absent number_text pref ++ (codes " atomic=" ++ yes_or_no atomic))))) }
    ensures short { result ≤ at + 42 }
{
    let next = word(line, at, b" med=");
    let next = or_absent(line, next, med);
    let next = word(line, next, b" pref=");
    let next = or_absent(line, next, pref);
    let next = word(line, next, b" atomic=");
    word(line, next, yes_or_no(atomic))
}

// Puts the field of AGGREGATOR.
#[inline(always)]
pub(crate) fn aggregator(line: &mut [u8; ROOM], at: usize, aggregator: &Option<Aggregator>) -> usize
    requires { at + 31 ≤ 1024 }
    ensures whole { take result line.new ≡ take at line.old ++ (codes " agg=" ++ text_or_absent aggregator_text aggregator.now) }
    ensures short { result ≤ at + 31 }
{
    match aggregator {
        None => word(line, at, b" agg=-"),
        Some(aggregator) => {
            let next = word(line, at, b" agg=");
            let next = number(line, next, aggregator.asn);
            let next = byte(line, next, b':');
            dots(line, next, &aggregator.identifier)
        }
    }
}

// Puts numbers, each after the mark.
#[inline(always)]
fn put_behind(line: &mut [u8; ROOM], at: usize, mark: u8, numbers: &[u32]) -> usize
    requires { at + 11 * length numbers.now ≤ 1024 }
    ensures whole { take result line.new ≡ take at line.old ++ behind mark (map number_text numbers.now) }
    ensures short { result ≤ at + 11 * length numbers.now }
{
    let mut end = at;
    for value in numbers {
        let next = byte(line, end, mark);
        end = number(line, next, *value);
    }
    end
}

// Puts numbers with the mark between them.
#[inline(always)]
pub(crate) fn joined(line: &mut [u8; ROOM], at: usize, mark: u8, numbers: &[u32]) -> usize
    requires { at + 11 * length numbers.now ≤ 1024 }
    ensures whole { take result line.new ≡ take at line.old ++ join_with_byte mark (map number_text numbers.now) }
    ensures short { result ≤ at + 11 * length numbers.now }
{
    match numbers {
        [] => at,
        [first, rest @ ..] => {
            let next = number(line, at, *first);
            put_behind(line, next, mark, rest)
        }
    }
}

// Puts a community.
#[inline(always)]
fn community(line: &mut [u8; ROOM], at: usize, value: u32) -> usize
    requires { at + 21 ≤ 1024 }
    ensures whole { take result line.new ≡ take at line.old ++ community_text value }
    ensures short { result ≤ at + 21 }
{
    let next = number(line, at, value / 65536);
    let next = byte(line, next, b':');
    number(line, next, value % 65536)
}

// Puts communities, each after a comma.
#[inline(always)]
fn further_communities(line: &mut [u8; ROOM], at: usize, values: &[u32]) -> usize
    requires { at + 22 * length values.now ≤ 1024 }
    ensures whole { take result line.new ≡ take at line.old ++ behind comma (map community_text values.now) }
    ensures short { result ≤ at + 22 * length values.now }
{
    let mut end = at;
    for value in values {
        let next = byte(line, end, b',');
        end = community(line, next, *value);
    }
    end
}

// Puts the field of the communities.
#[inline(always)]
pub(crate) fn communities(line: &mut [u8; ROOM], at: usize, values: &[u32]) -> usize
    requires { at + 7 + 22 * length values.now ≤ 1024 }
    ensures whole { take result line.new ≡ take at line.old ++ (codes " comm=" ++ comma_list (map community_text values.now)) }
    ensures short { result ≤ at + 7 + 22 * length values.now }
{
    match values {
        [] => word(line, at, b" comm=-"),
        [first, rest @ ..] => {
            let next = word(line, at, b" comm=");
            let next = community(line, next, *first);
            further_communities(line, next, rest)
        }
    }
}

// Puts the type codes of attributes, each after a comma.
#[inline(always)]
fn further_codes(line: &mut [u8; ROOM], at: usize, others: &[Other]) -> usize
    requires { at + 4 * length others.now ≤ 1024 }
    ensures whole { take result line.new ≡ take at line.old ++ behind comma (map (λ other. number_text other.code) others.now) }
    ensures short { result ≤ at + 4 * length others.now }
{
    let mut end = at;
    for other in others {
        let next = byte(line, end, b',');
        end = octet(line, next, other.code);
    }
    end
}

// Puts the field of the attributes that are told by their type codes alone.
#[inline(always)]
pub(crate) fn codes_of(line: &mut [u8; ROOM], at: usize, others: &[Other]) -> usize
    requires { at + 8 + 4 * length others.now ≤ 1024 }
    ensures whole { take result line.new ≡ take at line.old ++ (codes " other=" ++ others_text others.now) }
    ensures short { result ≤ at + 8 + 4 * length others.now }
{
    match others {
        [] => word(line, at, b" other=-"),
        [first, rest @ ..] => {
            let next = word(line, at, b" other=");
            let next = octet(line, next, first.code);
            further_codes(line, next, rest)
        }
    }
}

// The bytes of a next hop that is one address.
#[inline(always)]
pub(crate) fn one_address(hop: &Option<ByteList>) -> Option<&[u8]>
    ensures is { IfSome result (λ bytes. hop.now ≡ Some bytes.now) }
    ensures one { IfSome result (λ bytes. length bytes.now ≢ 4 → length bytes.now ≡ 16) }
{
    match hop {
        None => None,
        Some(hop) => {
            let bytes = hop.as_slice();
            if bytes.len() == 4 || bytes.len() == 16 {
                Some(bytes)
            } else {
                None
            }
        }
    }
}

// Puts the field of a next hop that is one address.
#[inline(always)]
pub(crate) fn hop(line: &mut [u8; ROOM], at: usize, hop: &[u8]) -> usize
    requires room { at + 48 ≤ 1024 }
    requires one { length hop.now ≢ 4 → length hop.now ≡ 16 }
    ensures whole { take result line.new ≡ take at line.old ++ (codes " next=" ++ hop_text hop.now) }
    ensures short { result ≤ at + 48 }
{
    let next = word(line, at, b" next=");
    if hop.len() == 4 {
        return dots(line, next, hop);
    }
    word(line, next, v6_text(hop).as_slice())
}

// Puts a prefix.
#[inline(always)]
pub(crate) fn prefix(line: &mut [u8; ROOM], at: usize, prefix: &Prefix) -> usize
    requires { at + 46 ≤ 1024 }
    ensures whole { take result line.new ≡ take at line.old ++ prefix_text prefix.now }
    ensures short { result ≤ at + 46 }
{
    let next = address(line, at, &prefix.addr());
    let next = byte(line, next, b'/');
    octet(line, next, prefix.bits())
}

// Puts the field of the path identifier, where there is one, and the end of the line.
#[inline(always)]
pub(crate) fn id(line: &mut [u8; ROOM], at: usize, id: Option<u32>) -> usize
    requires { at + 15 ≤ 1024 }
    ensures whole { take result line.new ≡ take at line.old ++ further (id_fields id) }
    ensures short { result ≤ at + 15 }
{
    match id {
        None => byte(line, at, b'\n'),
        Some(id) => {
            let next = word(line, at, b" id=");
            let next = number(line, next, id);
            byte(line, next, b'\n')
        }
    }
}

// Puts the field of the path identifier, where there is one.
#[inline(always)]
fn id_field(line: &mut [u8; ROOM], at: usize, id: Option<u32>) -> usize
    requires { at + 14 ≤ 1024 }
    ensures whole { take result line.new ≡ take at line.old ++ spaced (id_fields id) }
    ensures short { result ≤ at + 14 }
{
    match id {
        None => at,
        Some(id) => {
            let next = word(line, at, b" id=");
            number(line, next, id)
        }
    }
}

// The numbers of a path that is one sequence of at most 24 numbers.
#[inline(always)]
pub(crate) fn one_sequence(path: &Option<AsPath>) -> Option<&[u32]>
    ensures is { IfSome result (λ numbers. text_or_absent path_text path.now ≡ join_with_byte 95 (map number_text numbers.now)) }
    ensures few { IfSome result (λ numbers. length numbers.now ≤ 24) }
{
    let Some(path) = path else {
        return None;
    };
    match path.as_slice() {
        [segment] => numbers_of(segment),
        _ => None,
    }
}

// The numbers of a sequence of 1 to 24 numbers.
#[inline(always)]
fn numbers_of(segment: &Segment) -> Option<&[u32]>
    ensures is { IfSome result (λ numbers. segment_pieces segment.now ≡ map number_text numbers.now) }
    ensures some { IfSome result (λ numbers. 1 ≤ length numbers.now) }
    ensures few { IfSome result (λ numbers. length numbers.now ≤ 24) }
{
    let numbers = segment.numbers.as_slice();
    match segment.kind {
        SegmentKind::Sequence => {
            if numbers.is_empty() || numbers.len() > 24 {
                None
            } else {
                Some(numbers)
            }
        }
        _ => None,
    }
}

// Puts the fields of the next hop, ORIGIN and AS_PATH.
#[inline(always)]
fn mandatory(
    line: &mut [u8; ROOM],
    at: usize,
    hop_bytes: &[u8],
    origin_code: Option<u8>,
    numbers: &[u32],
) -> usize
    requires room { at + 336 ≤ 1024 }
    requires one { length hop_bytes.now ≢ 4 → length hop_bytes.now ≡ 16 }
    requires few { length numbers.now ≤ 24 }
    ensures whole { take result line.new ≡ take at line.old ++ (codes " next=" ++ (hop_text hop_bytes.now
        ++ (codes " origin=" ++ (text_or_absent origin_text origin_code ++ (codes " path=" ++ join_with_byte 95 (map number_text numbers.now)))))) }
    ensures short { result ≤ at + 336 }
{
    let next = hop(line, at, hop_bytes);
    let next = origin(line, next, origin_code);
    let next = word(line, next, b" path=");
    joined(line, next, b'_', numbers)
}

// Puts the fields of AGGREGATOR, of the communities and of the attributes that are told by their type codes alone.
#[inline(always)]
fn remaining(
    line: &mut [u8; ROOM],
    at: usize,
    from: &Option<Aggregator>,
    values: &[u32],
    others: &[Other],
) -> usize
    requires room { at + 430 ≤ 1024 }
    requires few { length values.now ≤ 16 }
    requires few_others { length others.now ≤ 8 }
    ensures whole { take result line.new ≡ take at line.old ++ (codes " agg=" ++ (text_or_absent aggregator_text from.now
        ++ (codes " comm=" ++ (comma_list (map community_text values.now) ++ (codes " other=" ++ others_text others.now))))) }
    ensures short { result ≤ at + 430 }
{
    let next = aggregator(line, at, from);
    let next = communities(line, next, values);
    codes_of(line, next, others)
}

// Puts the fields of path attributes whose text is short.
#[inline(always)]
pub(crate) fn attributes(
    line: &mut [u8; ROOM],
    at: usize,
    attrs: &Attrs,
    hop_bytes: &[u8],
    numbers: &[u32],
) -> usize
    requires room { at + 808 ≤ 1024 }
    requires hop { attrs.now.hop ≡ Some hop_bytes.now }
    requires one { length hop_bytes.now ≢ 4 → length hop_bytes.now ≡ 16 }
    requires path { text_or_absent path_text attrs.now.path ≡ join_with_byte 95 (map number_text numbers.now) }
    requires few { length numbers.now ≤ 24 }
    requires few_communities { length attrs.now.communities ≤ 16 }
    requires few_others { length attrs.now.others ≤ 8 }
    ensures whole { take result line.new ≡ take at line.old ++ spaced (attribute_fields attrs.now) }
    ensures short { result ≤ at + 808 }
{
    let next = mandatory(line, at, hop_bytes, attrs.origin, numbers);
    let next = metrics(line, next, attrs.med, attrs.pref, attrs.atomic);
    remaining(
        line,
        next,
        &attrs.aggregator,
        attrs.communities.as_slice(),
        attrs.others.as_slice(),
    )
}

// The next hop and the numbers of the path, where the text of the path attributes is short: the next hop is one address, the
// path is one sequence of at most 24 numbers, and there are at most 16 communities and 8 other attributes.
#[inline(always)]
pub(crate) fn short_parts(attrs: &Attrs) -> Option<(&[u8], &[u32])>
    ensures hop { IfSome result (λ parts. attrs.now.hop ≡ Some parts.0.now) }
    ensures one { IfSome result (λ parts. length parts.0.now ≢ 4 → length parts.0.now ≡ 16) }
    ensures path { IfSome result (λ parts. text_or_absent path_text attrs.now.path ≡ join_with_byte 95 (map number_text parts.1.now)) }
    ensures few { IfSome result (λ parts. length parts.1.now ≤ 24) }
    ensures few_communities { IfSome result (λ _. length attrs.now.communities ≤ 16) }
    ensures few_others { IfSome result (λ _. length attrs.now.others ≤ 8) }
{
    if attrs.communities.as_slice().len() > 16 || attrs.others.as_slice().len() > 8 {
        return None;
    }
    let Some(hop) = one_address(&attrs.hop) else {
        return None;
    };
    let Some(numbers) = one_sequence(&attrs.path) else {
        return None;
    };
    Some((hop, numbers))
}

// Puts the prefix, the path attributes, the path identifier and the end of a line.
#[inline(always)]
pub(crate) fn fields(
    line: &mut [u8; ROOM],
    at: usize,
    nlri: &Nlri,
    attrs: &Attrs,
    hop_bytes: &[u8],
    numbers: &[u32],
) -> usize
    requires room { at + 869 ≤ 1024 }
    requires hop { attrs.now.hop ≡ Some hop_bytes.now }
    requires one { length hop_bytes.now ≢ 4 → length hop_bytes.now ≡ 16 }
    requires path { text_or_absent path_text attrs.now.path ≡ join_with_byte 95 (map number_text numbers.now) }
    requires few { length numbers.now ≤ 24 }
    requires few_communities { length attrs.now.communities ≤ 16 }
    requires few_others { length attrs.now.others ≤ 8 }
    ensures whole { take result line.new ≡ take at line.old ++ (prefix_text nlri.now.prefix ++ (spaced (attribute_fields attrs.now) ++ further (id_fields nlri.now.id))) }
    ensures short { result ≤ 1024 }
{
    let next = prefix(line, at, &nlri.prefix);
    let next = attributes(line, next, attrs, hop_bytes, numbers);
    id(line, next, nlri.id)
}

// Puts the prefix, the path attributes and the path identifier of a line.
#[inline(always)]
pub(crate) fn open_fields(
    line: &mut [u8; ROOM],
    at: usize,
    nlri: &Nlri,
    attrs: &Attrs,
    hop_bytes: &[u8],
    numbers: &[u32],
) -> usize
    requires room { at + 869 ≤ 1024 }
    requires hop { attrs.now.hop ≡ Some hop_bytes.now }
    requires one { length hop_bytes.now ≢ 4 → length hop_bytes.now ≡ 16 }
    requires path { text_or_absent path_text attrs.now.path ≡ join_with_byte 95 (map number_text numbers.now) }
    requires few { length numbers.now ≤ 24 }
    requires few_communities { length attrs.now.communities ≤ 16 }
    requires few_others { length attrs.now.others ≤ 8 }
    ensures whole { take result line.new ≡ take at line.old ++ (prefix_text nlri.now.prefix ++ (spaced (attribute_fields attrs.now) ++ spaced (id_fields nlri.now.id))) }
    ensures short { result ≤ 1024 }
{
    let next = prefix(line, at, &nlri.prefix);
    let next = attributes(line, next, attrs, hop_bytes, numbers);
    id_field(line, next, nlri.id)
}

// The key of a row of a table.
pub(crate) fn row_of(key: PeerKey, view: View, nlri: &Nlri) -> RowKey
    ensures { result ≡ record { key = key; view = view; nlri = nlri.now } }
{
    RowKey {
        key,
        view,
        nlri: *nlri,
    }
}

// Puts what the lines of a table begin with: the word with the space after it, the lane, the peer and the view.
pub(crate) fn front(
    line: &mut [u8; ROOM],
    first: &[u8],
    lane: u32,
    key: &PeerKey,
    view: View,
) -> usize
    requires { length first.now ≤ 6 }
    ensures whole { take result line.new ≡ front_text first.now (record { lane = lane; key = key.now; view = view }) }
    ensures short { result ≤ 147 }
{
    let next = word(line, 0, first);
    let next = number(line, next, lane);
    let next = byte(line, next, b' ');
    let next = word(line, next, key.text().as_slice());
    let next = byte(line, next, b' ');
    let next = word(line, next, view.text().as_slice());
    byte(line, next, b' ')
}
