ghost use Rattle.std.specs.Prelude.{◌≡◌, ◌≤◌, ◌++◌, [], ◌∷◌, codes, length, map};
ghost use Rattle.std.specs.List.{join_with_byte};
ghost use Rattle.bmp_specs.specs.NumberText.{number_text};
ghost use Rattle.bmp_specs.specs.PeerText.{hex_text};
ghost use Rattle.bmp_specs.specs.RouteLine.{comma, comma_list, community_text, others_text};
ghost use Rattle.reply_text.specs.Pieces.{absent_word, behind, comma_of};
ghost use Rattle.wire_io.specs.Writes.{Writes};

use crate::hop::digits_of;
use crate::values::put_u32;
use ip_prefix::ShortText;
use path_attrs::Other;
use wire_io::{Failed, Sink, write_all, write_pieces};

// A number after the text before it.
fn numbered(before: &[u8], number: u32) -> ShortText
    requires { length before.now ≤ 8 }
    ensures whole { result ≡ before.now ++ number_text number }
    ensures short { length result ≤ 18 }
{
    let mut text = ShortText::new();
    text.extend(before);
    put_u32(&mut text, number);
    text
}

// Writes a number after the text before it.
pub(crate) fn put_number<O: Sink>(out: &mut O, before: &[u8], number: u32) -> Result<(), Failed>
    requires { length before.now ≤ 8 }
    ensures { Writes O.faults O.told O.aside out.old (before.now ++ number_text number) result out.new }
{
    write_all(out, numbered(before, number).as_slice())
}

// Writes the numbers, each after the mark.
pub(crate) fn put_behind<O: Sink>(out: &mut O, mark: u8, numbers: &[u32]) -> Result<(), Failed>
    ensures { Writes O.faults O.told O.aside out.old (behind mark (map number_text numbers.now)) result out.new }
{
    for number in numbers {
        put_number(out, &[mark], *number)?;
    }
    Ok(())
}

// Writes the numbers with the mark between them.
pub(crate) fn put_joined<O: Sink>(out: &mut O, mark: u8, numbers: &[u32]) -> Result<(), Failed>
    ensures { Writes O.faults O.told O.aside out.old (join_with_byte mark (map number_text numbers.now)) result out.new }
{
    match numbers {
        [] => Ok(()),
        [first, rest @ ..] => {
            put_number(out, b"", *first)?;
            put_behind(out, mark, rest)
        }
    }
}

// A community after the text before it.
fn community_behind(before: &[u8], community: u32) -> ShortText
    requires { length before.now ≤ 8 }
    ensures { result ≡ before.now ++ community_text community }
{
    let mut text = numbered(before, community / 65536);
    text.push(b':');
    put_u32(&mut text, community % 65536);
    text
}

// Writes a community after the text before it.
fn put_community<O: Sink>(out: &mut O, before: &[u8], community: u32) -> Result<(), Failed>
    requires { length before.now ≤ 8 }
    ensures { Writes O.faults O.told O.aside out.old (before.now ++ community_text community) result out.new }
{
    write_all(out, community_behind(before, community).as_slice())
}

// Writes the communities, each after a comma.
fn put_further_communities<O: Sink>(out: &mut O, communities: &[u32]) -> Result<(), Failed>
    ensures { Writes O.faults O.told O.aside out.old (behind comma (map community_text communities.now)) result out.new }
{
    for community in communities {
        put_community(out, b",", *community)?;
    }
    Ok(())
}

// Writes the field of the communities (RFC 1997).
pub(crate) fn put_communities<O: Sink>(out: &mut O, communities: &[u32]) -> Result<(), Failed>
    ensures { Writes O.faults O.told O.aside out.old (codes " comm=" ++ comma_list (map community_text communities.now)) result out.new }
{
    match communities {
        [] => write_all(out, b" comm=-"),
        [first, rest @ ..] => {
            put_community(out, b" comm=", *first)?;
            put_further_communities(out, rest)
        }
    }
}

// Writes the type code of an attribute after the text before it.
pub(crate) fn put_code<O: Sink>(out: &mut O, before: &[u8], other: &Other) -> Result<(), Failed>
    requires { length before.now ≤ 8 }
    ensures { Writes O.faults O.told O.aside out.old (before.now ++ number_text other.now.code) result out.new }
{
    put_number(out, before, other.code as u32)
}

// Writes the type codes of the attributes, each after a comma.
fn put_further_others<O: Sink>(out: &mut O, others: &[Other]) -> Result<(), Failed>
    ensures { Writes O.faults O.told O.aside out.old (behind comma (map (λ other. number_text other.code) others.now)) result out.new }
{
    for other in others {
        put_code(out, b",", other)?;
    }
    Ok(())
}

// Writes the field of the attributes that are told by their type codes alone.
pub(crate) fn put_others<O: Sink>(out: &mut O, others: &[Other]) -> Result<(), Failed>
    ensures { Writes O.faults O.told O.aside out.old (codes " other=" ++ others_text others.now) result out.new }
{
    match others {
        [] => write_all(out, b" other=-"),
        [first, rest @ ..] => {
            put_code(out, b" other=", first)?;
            put_further_others(out, rest)
        }
    }
}

// Writes the flags of an attribute after the text before them.
fn put_flag<O: Sink>(out: &mut O, before: &[u8], other: &Other) -> Result<(), Failed>
    ensures { Writes O.faults O.told O.aside out.old (before.now ++ hex_text (other.now.flags ∷ [])) result out.new }
{
    write_pieces(out, &[before, &digits_of(other.flags)])
}

// Writes the flags of the attributes, each after a comma.
fn put_further_flags<O: Sink>(out: &mut O, others: &[Other]) -> Result<(), Failed>
    ensures { Writes O.faults O.told O.aside out.old (behind comma (map (λ other. hex_text (other.flags ∷ [])) others.now)) result out.new }
{
    for other in others {
        put_flag(out, b",", other)?;
    }
    Ok(())
}

// Writes the field of the flags of the attributes that `other=` names, in that order.
pub(crate) fn put_flags<O: Sink>(out: &mut O, others: &[Other]) -> Result<(), Failed>
    ensures { Writes O.faults O.told O.aside out.old (codes " flags=" ++ comma_list (map (λ other. hex_text (other.flags ∷ [])) others.now)) result out.new }
{
    match others {
        [] => write_all(out, b" flags=-"),
        [first, rest @ ..] => {
            put_flag(out, b" flags=", first)?;
            put_further_flags(out, rest)
        }
    }
}

// What stands before a text: `,` where another stands before it.
pub(crate) fn comma(some: bool) -> &'static [u8]
    ensures { result.now ≡ comma_of some }
{
    if some { b"," } else { b"" }
}

// Writes `-` where no text was written.
pub(crate) fn put_absent<O: Sink>(out: &mut O, some: bool) -> Result<(), Failed>
    ensures { Writes O.faults O.told O.aside out.old (absent_word some) result out.new }
{
    if some {
        return Ok(());
    }
    write_all(out, b"-")
}
