ghost use Rattle.std.specs.Prelude.{◌≡◌, ◌<◌, ◌≤◌, ◌==◌, ◌↔◌, [], ◌∷◌, ◌++◌, length, IfOk, OnOk, IfErr, OnErr, IsNone, option_to_list};
ghost use Rattle.as_path.specs.Numbers.{items_of};

use std::alloc::Global;
use std::marker::Model;
use wire_io::{NoMemory, Unplaced};

// How many numbers a list keeps in place: as many as make it no larger than the vector of those that have more.
const ROOM: usize = 6;

// For how many numbers a list takes memory as one more comes than it keeps in place.
const FIRST_ROOM: usize = 2 * ROOM;

// A few numbers, in place.
#[derive(Debug, Drop)]
pub(crate) struct Few {
    places: [u32; ROOM],
    len: u8,
}

impl Model for Few {
    ghost use Rattle.std.specs.Prelude.{List, ℕ, ◌≤◌, take};
    ghost use Rattle.as_path.specs.declared.numbers.TheConstants.{ROOM};

    ghost Value = { List ℕ };

    ghost view = { λ few. take few.len few.places };

    ghost invariant = { λ few. few.len ≤ ROOM };
}

impl Few {
    #[inline]
    fn new() -> Few
        ensures { result ≡ [] }
    {
        Few {
            places: [0; ROOM],
            len: 0,
        }
    }

    #[inline]
    fn is_full(&self) -> bool
        ensures full { result ≡ (length self.now == ROOM) }
        ensures bound { length self.now ≤ ROOM }
    {
        self.len as usize == ROOM
    }

    #[inline]
    fn push(&mut self, number: u32)
        requires { length self.old < ROOM }
        ensures { self.new ≡ self.old ++ number ∷ [] }
    {
        self.places[self.len as usize] = number;
        self.len += 1;
    }

    #[inline]
    fn pop(&mut self) -> Option<u32>
        ensures last { self.old ≡ self.new ++ option_to_list result }
        ensures none { IsNone result ↔ (self.old ≡ []) }
    {
        if self.len == 0 {
            return None;
        }
        self.len -= 1;
        Some(self.places[self.len as usize])
    }

    #[inline]
    fn as_slice(&self) -> &[u32]
        ensures { result.now ≡ self.now }
    {
        &self.places[..self.len as usize]
    }

    #[inline]
    fn from_slice(numbers: &[u32]) -> Few
        requires { length numbers.now ≤ ROOM }
        ensures { result ≡ numbers.now }
    {
        let mut places = [0; ROOM];
        places[..numbers.len()].copy_from_slice(numbers);
        Few {
            places,
            len: numbers.len() as u8,
        }
    }

    #[inline]
    fn copy(&self) -> Few
        ensures { result ≡ self.now }
    {
        Few {
            places: self.places,
            len: self.len,
        }
    }
}

// Where the numbers are.
#[derive(Debug, Drop)]
pub(crate) enum Items {
    // In place.
    Here(Few),

    // Any number of them.
    Many(Vec<u32>),
}

// The numbers in memory of their own, with one more.
#[cold]
fn spilled(alloc: Global, few: &Few, number: u32) -> Result<Vec<u32>, NoMemory>
    ensures { IfOk result (λ many. many.items ≡ few.now ++ number ∷ []) }
{
    let mut many = Vec::with_capacity(alloc, FIRST_ROOM)?;
    many.extend_from_slice(few.as_slice())?;
    many.push(number)?;
    Ok(many)
}

/// A list of numbers of 32 bits, such as AS numbers. It keeps its allocator.
///
/// It keeps up to six numbers in place, and takes memory where it has more.
#[derive(Debug, Drop)]
pub struct Numbers {
    alloc: Global,
    items: Items,
}

impl Model for Numbers {
    ghost use Rattle.std.specs.Prelude.{List, ℕ};
    ghost use Rattle.as_path.specs.Numbers.{items_of};

    ghost Value = { List ℕ };

    ghost view = { λ numbers. items_of numbers.items };
}

impl Numbers {
    /// The empty list. It takes no memory.
    #[inline]
    pub fn new(alloc: Global) -> Numbers
        ensures { result ≡ [] }
    {
        Numbers {
            alloc,
            items: Items::Here(Few::new()),
        }
    }

    /// The empty list, with memory for so many numbers, where they are more than six.
    #[inline]
    pub fn with_capacity(alloc: Global, count: usize) -> Result<Numbers, NoMemory>
        ensures { IfOk result (λ numbers. numbers ≡ []) }
    {
        if count <= ROOM {
            return Ok(Numbers::new(alloc));
        }
        Ok(Numbers {
            alloc,
            items: Items::Many(Vec::with_capacity(alloc, count)?),
        })
    }

    /// A list of these numbers, with memory for no more.
    #[inline]
    pub fn from_slice(alloc: Global, numbers: &[u32]) -> Result<Numbers, NoMemory>
        ensures { IfOk result (λ list. list ≡ numbers.now) }
    {
        let items = if numbers.len() <= ROOM {
            Items::Here(Few::from_slice(numbers))
        } else {
            Items::Many(Vec::from_slice(alloc, numbers)?)
        };
        Ok(Numbers { alloc, items })
    }

    /// Appends the number. Out of memory, the list is as before.
    #[inline(always)]
    pub fn push(&mut self, number: u32) -> Result<(), Unplaced<u32>>
        ensures ok { OnOk result (self.new ≡ self.old ++ number ∷ []) }
        ensures err { OnErr result (self.new ≡ self.old) }
        ensures handed_back { IfErr result (λ unplaced. unplaced ≡ Unplaced.NoMemory number) }
    {
        match &mut self.items {
            Items::Here(few) => {
                if !few.is_full() {
                    few.push(number);
                    return Ok(());
                }
                match spilled(self.alloc, few, number) {
                    Ok(many) => {
                        self.items = Items::Many(many);
                        Ok(())
                    }
                    Err(_) => Err(Unplaced::NoMemory { item: number }),
                }
            }
            Items::Many(many) => match many.push(number) {
                Ok(()) => Ok(()),
                Err(failed) => Err(Unplaced::NoMemory { item: failed.value }),
            },
        }
    }

    /// Takes out the last number. `None` exactly where the list is empty.
    #[inline]
    pub fn pop(&mut self) -> Option<u32>
        ensures last { self.old ≡ self.new ++ option_to_list result }
        ensures none { IsNone result ↔ (self.old ≡ []) }
    {
        match &mut self.items {
            Items::Here(few) => few.pop(),
            Items::Many(many) => many.pop(),
        }
    }

    /// Lends the numbers.
    #[inline]
    pub fn as_slice(&self) -> &[u32]
        ensures { result.now ≡ self.now }
    {
        match &self.items {
            Items::Here(few) => few.as_slice(),
            Items::Many(many) => many.as_slice(),
        }
    }

    /// An equal list, with memory for no more.
    #[inline]
    pub fn copy(&self) -> Result<Numbers, NoMemory>
        ensures { IfOk result (λ copy. copy ≡ self.now) }
    {
        let items = match &self.items {
            Items::Here(few) => Items::Here(few.copy()),
            Items::Many(many) => Items::Many(Vec::from_slice(self.alloc, many.as_slice())?),
        };
        Ok(Numbers {
            alloc: self.alloc,
            items,
        })
    }
}
