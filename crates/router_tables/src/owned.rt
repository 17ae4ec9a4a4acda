ghost use Rattle.std.specs.Prelude.{◌≡◌, IfOk, OnOk};
ghost use Rattle.std.specs.Arc.{arc_value};

use peer_book::PeerBook;
use stats_book::StatsBook;
use std::alloc::Global;
use std::sync::Arc;
use wire_io::NoMemory;

// A book of which an equal one can be had.
pub(crate) trait Book {
    fn copy(&self) -> Result<Self, NoMemory>
    where
        Self: Sized,
        ensures { IfOk result (λ copy. copy ≡ self.now) };
}

impl Book for PeerBook {
    fn copy(&self) -> Result<PeerBook, NoMemory> {
        self.copy()
    }
}

impl Book for StatsBook {
    fn copy(&self) -> Result<StatsBook, NoMemory> {
        self.copy()
    }
}

// An equal book that nobody else holds, in the place of one that others hold too.
pub(crate) fn own<B: Book + Drop>(book: &mut Arc<B>, alloc: Global) -> Result<(), NoMemory>
    ensures { OnOk result (arc_value book.new ≡ arc_value book.old) }
{
    if Arc::strong_count(book) > 1 {
        let copy = book.copy()?;
        *book = Arc::new(alloc, copy)?;
    }
    Ok(())
}
