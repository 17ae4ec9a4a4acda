//! The stream, from the words that are drawn.
ghost use Rattle.std.specs.Prelude.{◌≡◌, ℕ, ◌<◌, false, not, slice_index_or, if◌then◌else◌, OnOk, IfOk};
ghost use Rattle.std.specs.List.{range_with_len};
ghost use Rattle.bmp_specs.specs.Parts.{AreParts};
ghost use Rattle.bmp_writer.specs.Written.{Appends};
ghost use Rattle.drill_streams.specs.DrillStream.{IsDrillStream, IsMessageAt, turns};

use crate::message::put_message;
use crate::opening::{put_name, put_ups};
use crate::words::{choice_of, peer_of};
use rand_core::utils::NextWord;
use rand_pcg::Lcg64Xsh32;
use std::alloc::Global;
use wire_io::{ByteList, NoMemory};

// Which peers are up after the message of a word, after those in front of it.
fn turned(up: [bool; 4], word: u32) -> [bool; 4]
    ensures { (p : ℕ) → p < 4 → slice_index_or result p false ≡ (if turns p word then not (slice_index_or up p false) else slice_index_or up p false) }
{
    let mut up = up;
    if choice_of(word) == 0 {
        let peer = peer_of(word) as usize;
        up[peer] = !up[peer];
    }
    up
}

// Appends the messages of the words, after a Peer Up Notification of each peer.
fn put_drawn(
    out: &mut ByteList,
    alloc: Global,
    seed: u32,
    lane: u32,
    messages: u32,
) -> Result<(), NoMemory>
    ensures { OnOk result (Appends (λ bytes. AreParts (IsMessageAt seed lane) bytes (range_with_len 0 messages)) out.old out.new) }
{
    let mut words = Lcg64Xsh32::new(seed as u64, lane as u64);
    let mut up = [true; 4];
    for _ in 0..messages {
        let word = words.next_word();
        put_message(out, alloc, word, up[peer_of(word) as usize])?;
        up = turned(up, word);
    }
    Ok(())
}

/// The stream of a lane of a drill, with the messages of so many words after its opening. It follows from the seed, the
/// lane's number and the number of messages alone. `NoMemory` where it ran out of memory. Time and memory are linear in the
/// messages.
pub fn drill_stream(
    alloc: Global,
    seed: u32,
    lane: u32,
    messages: u32,
) -> Result<ByteList, NoMemory>
    ensures { IfOk result (λ bytes. IsDrillStream seed lane messages bytes) }
{
    let mut out = ByteList::new(alloc);
    put_name(&mut out, lane)?;
    put_ups(&mut out, alloc)?;
    put_drawn(&mut out, alloc, seed, lane, messages)?;
    Ok(out)
}
