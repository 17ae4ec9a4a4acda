ghost use Rattle.std.specs.Prelude.{◌≡◌, ◌+◌, ◌-◌, ◌^◌, ◌<◌, ◌≤◌, ◌⊎◌, List, [], ◌∷◌, ◌++◌, length, min, IfOk, slice_get};
ghost use Rattle.std.specs.List.{AllZip};
ghost use Rattle.std.specs.Option.{option_copied};
ghost use Rattle.recent_ring.specs.Recent.{joined, last_items, recent, IsCopy};

use crate::keep::Keep;
use crate::pieces::{Piece, and_one_more, from_the_last, not_needed, piece_of, with_room_for_two};
use circular_buffer::HeapCircularBuffer;
use std::alloc::Global;
use std::marker::Model;
use std::sync::Arc;
use wire_io::NoMemory;

// How many items are kept.
const KEPT: usize = 1024;

// How many items make a piece.
const FEW: usize = 64;

/// The last items of a list, oldest first, and how many the list has.
#[derive(Drop)]
pub struct Recent<T> {
    // pieces that copies share
    older: Arc<Vec<Arc<Piece<T>>>>,

    // what was pushed since
    newer: HeapCircularBuffer<T>,

    total: u64,
}

impl<T> Model for Recent<T> {
    ghost use Rattle.std.specs.Prelude.{◌≡◌, ◌++◌, length, min};
    ghost use Rattle.std.specs.Arc.{arc_value};
    ghost use Rattle.recent_ring.specs.Recent.{RecentValue, joined, last_items};

    ghost Value = { RecentValue T };

    ghost view = { λ r. record { total = r.total; items = last_items (joined (arc_value r.older).items ++ r.newer.items) } };

    ghost invariant = { λ r. (r.newer.capacity ≡ 1024) × (length (last_items (joined (arc_value r.older).items ++ r.newer.items)) ≡ min r.total 1024) };
}

impl<T: Drop> Recent<T> {
    /// The ring of the empty list. It takes the memory for all that it will keep.
    pub fn new(alloc: Global) -> Result<Recent<T>, NoMemory>
        ensures { IfOk result (λ ring. ring ≡ recent []) }
    {
        Ok(Recent {
            older: Arc::new(alloc, Vec::new(alloc))?,
            newer: HeapCircularBuffer::with_capacity(alloc, KEPT)?,
            total: 0,
        })
    }

    /// Appends an item, and drops the oldest where 1,024 were kept. The total ends at 2^64 - 1.
    pub fn push(&mut self, item: T)
        ensures items { self.new.items ≡ last_items (self.old.items ++ item ∷ []) }
        ensures total { self.new.total ≡ min (self.old.total + 1) (2 ^ 64 - 1) }
        ensures list { (all : List T) → self.old ≡ recent all → self.new ≡ recent (all ++ item ∷ []) }
    {
        self.newer.push_back(item);
        self.total = self.total.saturating_add(1);
    }

    /// How many items there were in all, at most 2^64 - 1.
    pub fn total(&self) -> u64
        ensures total { result ≡ self.now.total }
        ensures kept { length self.now.items ≡ min self.now.total 1024 }
    {
        self.total
    }

    /// How many items are kept.
    pub fn len(&self) -> u64
        ensures len { result ≡ length self.now.items }
        ensures kept { length self.now.items ≡ min self.now.total 1024 }
    {
        self.total.min(KEPT as u64)
    }

    /// The item at a place, counted from the oldest kept; none where the place isn't below `len`.
    pub fn get(&self, place: u64) -> Option<&T>
        ensures { option_copied result ≡ slice_get self.now.items place }
    {
        let len = self.len();
        if len <= place {
            return None;
        }
        let back = (len - 1 - place) as usize;
        let newer = self.newer.len();
        if back < newer {
            self.newer.get(newer - 1 - back)
        } else {
            from_the_last(&self.older, back - newer)
        }
    }
}

impl<T: Keep + Drop> Recent<T> {
    /// An equal ring: the same total, and items that are alike. It shares the pieces of the older items. Of those that
    /// were pushed since, it takes each by `keep`; where these are 64 or more they are its own last piece, which its
    /// copies share: who copies often goes on with the copy.
    pub fn copy(&self) -> Result<Recent<T>, NoMemory>
        ensures { IfOk result (IsCopy T.alike self.now) }
    {
        if self.newer.len() < FEW {
            self.sharing()
        } else {
            self.with_a_piece()
        }
    }

    // A copy with the same pieces.
    fn sharing(&self) -> Result<Recent<T>, NoMemory>
        ensures { IfOk result (IsCopy T.alike self.now) }
    {
        let newer = copy_of(&self.newer)?;
        Ok(Recent {
            older: Arc::try_clone(&self.older)?,
            newer,
            total: self.total,
        })
    }

    // A copy with one piece more, and without those that have none of the last items.
    fn with_a_piece(&self) -> Result<Recent<T>, NoMemory>
        ensures { IfOk result (IsCopy T.alike self.now) }
    {
        let alloc = *self.newer.allocator();
        let piece = piece_of(alloc, &self.newer)?;
        let first = not_needed(&self.older, KEPT.saturating_sub(self.newer.len()));
        let older = and_one_more(alloc, &self.older[first..], piece)?;
        Ok(Recent {
            older: Arc::new(alloc, older)?,
            newer: HeapCircularBuffer::with_capacity(alloc, KEPT)?,
            total: self.total,
        })
    }

    /// A ring with more items: `passed` that aren't kept, and then `last`, which is a piece of its own as it is, with
    /// no item of it taken by `keep`. It shares the pieces of the older items that are still among the last 1,024. Where
    /// `last` has fewer than 1,024 items none can have been passed over, and `passed` isn't counted. Where these are
    /// few, `copy` and `push` make a ring that goes on in larger pieces.
    pub fn with_last(&self, passed: u64, last: Vec<T>) -> Result<Recent<T>, NoMemory>
        ensures items { IfOk result (λ ring. AllZip T.alike (last_items (self.now.items ++ last.items)) ring.items) }
        ensures total { 1024 ≤ length last.items → IfOk result (λ ring. ring.total ≡ min (self.now.total + passed + length last.items) (2 ^ 64 - 1)) }
        ensures short { length last.items < 1024 → IfOk result (λ ring. ring.total ≡ min (self.now.total + length last.items) (2 ^ 64 - 1)) }
        ensures list { IfOk result (λ ring. (all more : List T) → self.now ≡ recent all → length more ≡ passed → (passed ≡ 0) ⊎ (1024 ≤ length last.items)
            → IsCopy T.alike (recent (all ++ more ++ last.items)) ring) }
    {
        let alloc = *self.newer.allocator();
        let count = last.len();
        let total = more(self.total, passed, count);
        let mut older = self.in_pieces(alloc, KEPT.saturating_sub(count))?;
        older.push(Arc::new(alloc, last)?)?;
        Ok(Recent {
            older: Arc::new(alloc, older)?,
            newer: HeapCircularBuffer::with_capacity(alloc, KEPT)?,
            total,
        })
    }

    // Pieces with items that are alike: at least so many of the last ones, or all.
    fn in_pieces(&self, alloc: Global, items: usize) -> Result<Vec<Arc<Piece<T>>>, NoMemory>
        ensures { IfOk result (λ list. (more : List T) → 1024 ≤ items + length more → AllZip T.alike (last_items (self.now.items ++ more)) (last_items (joined list.items ++ more))) }
    {
        if items == 0 {
            return Ok(Vec::new(alloc));
        }
        let newer = self.newer.len();
        let first = not_needed(&self.older, items.saturating_sub(newer));
        if newer == 0 {
            let shared = with_room_for_two(alloc, &self.older[first..])?;
            return Ok(shared);
        }
        let piece = piece_of(alloc, &self.newer)?;
        let list = and_one_more(alloc, &self.older[first..], piece)?;
        Ok(list)
    }
}

// How many items there are in all with these more.
fn more(total: u64, passed: u64, count: usize) -> u64
    ensures total { 1024 ≤ count → result ≡ min (total + passed + count) (2 ^ 64 - 1) }
    ensures short { count < 1024 → result ≡ min (total + count) (2 ^ 64 - 1) }
{
    if count < KEPT {
        return total.saturating_add(count as u64);
    }
    total.saturating_add(passed).saturating_add(count as u64)
}

// A ring of the same room, with items that are alike.
fn copy_of<T: Keep + Drop>(items: &HeapCircularBuffer<T>) -> Result<HeapCircularBuffer<T>, NoMemory>
    ensures items { IfOk result (λ copy. AllZip T.alike items.now.items copy.items) }
    ensures room { IfOk result (λ copy. copy.capacity ≡ items.now.capacity) }
{
    let room = items.capacity();
    let mut copy = HeapCircularBuffer::with_capacity(*items.allocator(), room)?;
    for place in 0..items.len() {
        if let Some(item) = items.get(place) {
            let kept = item.keep()?;
            copy.push_back(kept);
        }
    }
    Ok(copy)
}
