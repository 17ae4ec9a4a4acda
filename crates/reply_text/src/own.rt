ghost use Rattle.std.specs.Prelude.{◌≡◌, ◌≤◌, ◌++◌, ◌&&◌, ◌==◌, true, filter_map, length, option_to_list};
ghost use Rattle.bmp_specs.specs.RouteLine.{comma_list};
ghost use Rattle.ask_specs.specs.FullLine.{aigp, code_of, is_formed, own_text, text_of_own};
ghost use Rattle.ask_specs.specs.Items.{are_items};
ghost use Rattle.reply_text.specs.Own.{inner_text, own_value, policy_text};
ghost use Rattle.reply_text.specs.Pieces.{goes_on, more_texts};
ghost use Rattle.wire_io.specs.Writes.{Writes};

use crate::hop::v4_text;
use crate::items::{Item, put_items};
use crate::lists::{comma, put_absent, put_number};
use byteorder::{BigEndian, ByteOrder};
use itoa::Buffer;
use path_attrs::Other;
use wire_io::{Failed, Sink, write_all};

// An attribute with a field of its own.
#[derive(Clone, Copy)]
pub(crate) enum Own {
    // ORIGINATOR_ID (RFC 4456, section 8).
    Originator,

    // CLUSTER_LIST (RFC 4456, section 8).
    Clusters,

    // Extended communities (RFC 4360).
    Extended,

    // AIGP (RFC 7311).
    Aigp,

    // Large communities (RFC 8092).
    Large,

    // "Only to Customer" (RFC 9234, section 5).
    Otc,
}

// The type code of the attribute.
fn code_of(own: Own) -> u8
    ensures { result ≡ code_of (own_value own) }
{
    match own {
        Own::Originator => 9,
        Own::Clusters => 10,
        Own::Extended => 16,
        Own::Aigp => 26,
        Own::Large => 32,
        Own::Otc => 35,
    }
}

// Whether items of this size fill the value, and there is one at least.
fn are_items(size: usize, value: &[u8]) -> bool
    requires { 1 ≤ size }
    ensures { result ≡ are_items size value.now }
{
    !value.is_empty() && value.len() % size == 0
}

// Whether the value isn't malformed (RFC 7606, sections 7.9, 7.10 and 7.14; RFC 8092, section 5; RFC 9234, section 5). Of
// AIGP it is one TLV of type 1 and length 11 (RFC 7311, section 3).
pub(crate) fn is_formed(own: Own, value: &[u8]) -> bool
    ensures { result ≡ is_formed (own_value own) value.now }
{
    match own {
        Own::Originator => value.len() == 4,
        Own::Clusters => are_items(4, value),
        Own::Extended => are_items(8, value),
        Own::Aigp => value.len() == 11 && BigEndian::read_u24(value) == 65547,
        Own::Large => are_items(12, value),
        Own::Otc => value.len() == 4,
    }
}

// Writes the number of AIGP.
fn put_aigp<O: Sink>(out: &mut O, value: &[u8]) -> Result<(), Failed>
    requires { length value.now ≡ 11 }
    ensures { Writes O.faults O.told O.aside out.old (own_text aigp value.now) result out.new }
{
    let (_, number) = value.split_at(3);
    write_all(
        out,
        Buffer::new().format(BigEndian::read_u64(number)).as_bytes(),
    )
}

// Writes the text of a value that is formed so.
fn put_own_text<O: Sink>(out: &mut O, own: Own, value: &[u8]) -> Result<(), Failed>
    requires { is_formed (own_value own) value.now ≡ true }
    ensures { Writes O.faults O.told O.aside out.old (own_text (own_value own) value.now) result out.new }
{
    match own {
        Own::Originator => write_all(out, v4_text(value).as_slice()),
        Own::Clusters => put_items(out, Item::Address, value),
        Own::Extended => put_items(out, Item::ExtendedItem, value),
        Own::Aigp => put_aigp(out, value),
        Own::Large => put_items(out, Item::LargeItem, value),
        Own::Otc => put_number(out, b"", BigEndian::read_u32(value)),
    }
}

// Whether the attribute is this one and formed so.
fn is_own(own: Own, other: &Other) -> bool
    ensures { result ≡ (other.now.code == code_of (own_value own) && is_formed (own_value own) other.now.value) }
{
    other.code == code_of(own) && is_formed(own, other.value.as_slice())
}

// Writes the text of the attribute, if it is this one and formed so, after a comma where a text stands before it.
fn put_if_own<O: Sink>(out: &mut O, some: bool, own: Own, other: &Other) -> Result<(), Failed>
    ensures { Writes O.faults O.told O.aside out.old (more_texts some (option_to_list (text_of_own (own_value own) other.now))) result out.new }
{
    if !is_own(own, other) {
        return Ok(());
    }
    write_all(out, comma(some))?;
    put_own_text(out, own, other.value.as_slice())
}

// Whether a text stands before what follows the attribute.
fn goes_on(some: bool, own: Own, other: &Other) -> bool
    ensures { result ≡ goes_on some (option_to_list (text_of_own (own_value own) other.now)) }
{
    some || is_own(own, other)
}

// Writes the texts of the attribute, or `-` where there is none.
fn put_own_texts<O: Sink>(out: &mut O, own: Own, others: &[Other]) -> Result<(), Failed>
    ensures { Writes O.faults O.told O.aside out.old (comma_list (filter_map (text_of_own (own_value own)) others.now)) result out.new }
{
    let mut some = false;
    for other in others {
        put_if_own(out, some, own, other)?;
        some = goes_on(some, own, other);
    }
    put_absent(out, some)
}

// Writes the field of the attribute after its name.
fn put_own<O: Sink>(out: &mut O, name: &[u8], own: Own, others: &[Other]) -> Result<(), Failed>
    ensures { Writes O.faults O.told O.aside out.old (name.now ++ comma_list (filter_map (text_of_own (own_value own)) others.now)) result out.new }
{
    write_all(out, name)?;
    put_own_texts(out, own, others)
}

// Writes the fields of the large and the extended communities and of "Only to Customer".
pub(crate) fn put_policy<O: Sink>(out: &mut O, others: &[Other]) -> Result<(), Failed>
    ensures { Writes O.faults O.told O.aside out.old (policy_text others.now) result out.new }
{
    put_own(out, b" large=", Own::Large, others)?;
    put_own(out, b" ext=", Own::Extended, others)?;
    put_own(out, b" otc=", Own::Otc, others)
}

// Writes the fields of AIGP, ORIGINATOR_ID and CLUSTER_LIST, which stay within a network.
pub(crate) fn put_inner<O: Sink>(out: &mut O, others: &[Other]) -> Result<(), Failed>
    ensures { Writes O.faults O.told O.aside out.old (inner_text others.now) result out.new }
{
    put_own(out, b" aigp=", Own::Aigp, others)?;
    put_own(out, b" originator=", Own::Originator, others)?;
    put_own(out, b" clusters=", Own::Clusters, others)
}
