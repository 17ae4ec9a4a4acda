ghost use Rattle.std.specs.Prelude.{◌≡◌, ◌++◌, ◌-◌, ◌<◌, ◌≤◌, ◌⊎◌, drop, length, slice_get, IfOk};
ghost use Rattle.std.specs.List.{AllZip};
ghost use Rattle.std.specs.Option.{option_copied};
ghost use Rattle.recent_ring.specs.Recent.{joined};

use crate::keep::Keep;
use circular_buffer::HeapCircularBuffer;
use std::alloc::Global;
use std::sync::Arc;
use wire_io::NoMemory;

/// Items that are shared by copies, and never changed.
pub(crate) type Piece<T> = Vec<T>;

/// The number of pieces at the front that can go where so many items are needed of the last ones.
pub(crate) fn not_needed<T>(pieces: &[Arc<Piece<T>>], items: usize) -> usize
    ensures within { result ≤ length pieces.now }
    ensures enough { (result ≡ 0) ⊎ (items ≤ length (joined (drop result pieces.now))) }
{
    let mut first = pieces.len();
    let mut left = items;
    while first > 0 && left > 0 {
        first -= 1;
        left = left.saturating_sub(pieces[first].as_slice().len());
    }
    first
}

/// A list of the same pieces, with memory for two more.
pub(crate) fn with_room_for_two<T: Drop>(
    alloc: Global,
    pieces: &[Arc<Piece<T>>],
) -> Result<Vec<Arc<Piece<T>>>, NoMemory>
    ensures { IfOk result (λ list. joined list.items ≡ joined pieces.now) }
{
    let mut list = Vec::with_capacity(alloc, pieces.len().saturating_add(2))?;
    for piece in pieces {
        let piece = Arc::try_clone(piece)?;
        list.push(piece)?;
    }
    Ok(list)
}

/// A list of the same pieces and one more.
pub(crate) fn and_one_more<T: Drop>(
    alloc: Global,
    pieces: &[Arc<Piece<T>>],
    piece: Piece<T>,
) -> Result<Vec<Arc<Piece<T>>>, NoMemory>
    ensures { IfOk result (λ list. joined list.items ≡ joined pieces.now ++ piece.items) }
{
    let mut list = with_room_for_two(alloc, pieces)?;
    list.push(Arc::new(alloc, piece)?)?;
    Ok(list)
}

/// A piece with items that are alike.
pub(crate) fn piece_of<T: Keep + Drop>(
    alloc: Global,
    items: &HeapCircularBuffer<T>,
) -> Result<Piece<T>, NoMemory>
    ensures { IfOk result (λ piece. AllZip T.alike items.now.items piece.items) }
{
    let mut piece = Vec::with_capacity(alloc, items.len())?;
    for place in 0..items.len() {
        if let Some(item) = items.get(place) {
            let kept = item.keep()?;
            piece.push(kept)?;
        }
    }
    Ok(piece)
}

/// The item at a place of the pieces, counted from the last one.
pub(crate) fn from_the_last<T>(pieces: &[Arc<Piece<T>>], back: usize) -> Option<&T>
    requires { back < length (joined pieces.now) }
    ensures { option_copied result ≡ slice_get (joined pieces.now) (length (joined pieces.now) - 1 - back) }
{
    let mut first = pieces.len();
    let mut left = back;
    while first > 0 {
        first -= 1;
        let piece = pieces[first].as_slice();
        if left < piece.len() {
            return Some(&piece[piece.len() - 1 - left]);
        }
        left -= piece.len();
    }
    None
}
