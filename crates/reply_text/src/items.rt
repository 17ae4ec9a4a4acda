ghost use Rattle.std.specs.Prelude.{◌≡◌, ◌≤◌, [], ◌∷◌, false, length, map};
ghost use Rattle.ask_specs.specs.FullLine.{large_item_text};
ghost use Rattle.ask_specs.specs.Items.{items};
ghost use Rattle.reply_text.specs.Own.{item_size, item_text};
ghost use Rattle.reply_text.specs.Pieces.{more_texts};
ghost use Rattle.wire_io.specs.Writes.{Writes};

use crate::extended::put_extended;
use crate::hop::v4_text;
use crate::lists::comma;
use crate::values::put_u32;
use byteorder::{BigEndian, ByteOrder};
use ip_prefix::ShortText;
use wire_io::{Failed, Sink, write_all};

// What the value of an attribute is made of: IPv4 addresses, extended communities (RFC 4360) or large communities (RFC
// 8092).
#[derive(Clone, Copy)]
pub(crate) enum Item {
    Address,
    ExtendedItem,
    LargeItem,
}

// How many octets an item has.
fn size_of(item: Item) -> usize
    ensures is { result ≡ item_size item }
    ensures some { 1 ≤ result }
{
    match item {
        Item::Address => 4,
        Item::ExtendedItem => 8,
        Item::LargeItem => 12,
    }
}

// The text of a large community (RFC 8092, section 4).
fn large_text(octets: &[u8]) -> ShortText
    requires { length octets.now ≡ 12 }
    ensures { result ≡ large_item_text octets.now }
{
    let (_, second) = octets.split_at(4);
    let (_, third) = octets.split_at(8);
    let mut text = ShortText::new();
    put_u32(&mut text, BigEndian::read_u32(octets));
    text.push(b':');
    put_u32(&mut text, BigEndian::read_u32(second));
    text.push(b':');
    put_u32(&mut text, BigEndian::read_u32(third));
    text
}

// Writes an item.
fn put_item<O: Sink>(out: &mut O, item: Item, octets: &[u8]) -> Result<(), Failed>
    requires { length octets.now ≡ item_size item }
    ensures { Writes O.faults O.told O.aside out.old (item_text item octets.now) result out.new }
{
    match item {
        Item::Address => write_all(out, v4_text(octets).as_slice()),
        Item::ExtendedItem => put_extended(out, octets),
        Item::LargeItem => write_all(out, large_text(octets).as_slice()),
    }
}

// Writes an item, after a comma where another stands before it.
fn put_next_item<O: Sink>(out: &mut O, some: bool, item: Item, octets: &[u8]) -> Result<(), Failed>
    requires { length octets.now ≡ item_size item }
    ensures { Writes O.faults O.told O.aside out.old (more_texts some (item_text item octets.now ∷ [])) result out.new }
{
    write_all(out, comma(some))?;
    put_item(out, item, octets)
}

// Writes the items with commas between them.
pub(crate) fn put_items<O: Sink>(out: &mut O, item: Item, value: &[u8]) -> Result<(), Failed>
    ensures { Writes O.faults O.told O.aside out.old (more_texts false (map (item_text item) (items (item_size item) value.now))) result out.new }
{
    let size = size_of(item);
    let mut some = false;
    let mut rest = value;
    while size <= rest.len() {
        let (octets, after) = rest.split_at(size);
        put_next_item(out, some, item, octets)?;
        some = true;
        rest = after;
    }
    Ok(())
}
