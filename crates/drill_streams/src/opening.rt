//! What stands in front of the messages of the words.
ghost use Rattle.std.specs.Prelude.{◌≡◌, [], ◌∷◌, OnOk};
ghost use Rattle.bmp_specs.specs.Parts.{AreParts};
ghost use Rattle.bmp_writer.specs.Written.{Appends};
ghost use Rattle.drill_streams.specs.Messages.{IsInitiation, IsUp, lane_name};

use crate::message::put_up;
use crate::peers::PEERS;
use bmp_writer::put_initiation;
use ip_prefix::ShortText;
use std::alloc::Global;
use wire_io::{ByteList, NoMemory};

// "drill-" and the lane's number.
fn name_of(lane: u32) -> ShortText
    ensures { result ≡ lane_name lane }
{
    let mut name = ShortText::new();
    name.extend(b"drill-");
    name.put_number(lane as u64);
    name
}

/// Appends the Initiation Message.
pub(crate) fn put_name(out: &mut ByteList, lane: u32) -> Result<(), NoMemory>
    ensures { OnOk result (Appends (IsInitiation lane) out.old out.new) }
{
    put_initiation(out, name_of(lane).as_slice(), b"")
}

/// Appends the Peer Up Notification of each peer in order.
pub(crate) fn put_ups(out: &mut ByteList, alloc: Global) -> Result<(), NoMemory>
    ensures { OnOk result (Appends (λ bytes. AreParts IsUp bytes (0 ∷ 1 ∷ 2 ∷ 3 ∷ [])) out.old out.new) }
{
    for peer in 0..PEERS {
        put_up(out, alloc, peer)?;
    }
    Ok(())
}
