ghost use Rattle.std.specs.Prelude.{◌≡◌, ◌↔◌, [], ◌∷◌, ◌++◌, IfOk, OnOk, IfErr, OnErr, IsNone, option_to_list};
ghost use Rattle.std.specs.Fn.{CalledAt};
ghost use Rattle.std.specs.List.Retain.{IsFiltered};
ghost use Rattle.wire_io.specs.Items.{items_of};

use crate::{NoMemory, Unplaced};
use std::alloc::Global;
use std::marker::Model;
use std::{mem, slice};

/// A list that keeps its allocator. Contracts see it as the list of its items.
///
/// It keeps one item in place, and takes memory where it has more.
#[derive(Debug, Drop)]
pub struct List<T> {
    alloc: Global,
    items: Items<T>,
}

// Where the items are.
#[derive(Debug, Drop)]
pub(crate) enum Items<T> {
    // One item, in place.
    One([T; 1]),

    // Any number of items.
    Many(Vec<T>),
}

impl<T> Model for List<T> {
    ghost use Rattle.std.specs.Prelude.{List as Listed};
    ghost use Rattle.wire_io.specs.Items.{items_of};

    ghost Value = { Listed T };

    ghost view = { λ list. items_of list.items };
}

// For how many items a list takes memory as the second comes.
const FIRST_ROOM: usize = 4;

// The two items in memory of their own, or out of memory and the second handed back, with the first as it was.
#[cold]
fn spill<T: Drop>(alloc: Global, items: &mut Items<T>, item: T) -> Result<(), Unplaced<T>>
    ensures ok { OnOk result (items_of items.new ≡ items_of items.old ++ item ∷ []) }
    ensures err { OnErr result (items_of items.new ≡ items_of items.old) }
    ensures handed_back { IfErr result (λ unplaced. unplaced ≡ Unplaced.NoMemory item) }
{
    let Ok(room) = Vec::with_capacity(alloc, FIRST_ROOM) else {
        return Err(Unplaced::NoMemory { item });
    };
    let mut many = match mem::replace(items, Items::Many(Vec::new(alloc))) {
        Items::One([first]) => {
            let mut many = room;
            many.push_reserved(first);
            many
        }
        Items::Many(many) => many,
    };
    let result = match many.push(item) {
        Ok(()) => Ok(()),
        Err(failed) => Err(Unplaced::NoMemory { item: failed.value }),
    };
    *items = Items::Many(many);
    result
}

// Takes out the last item.
fn pop_last<T: Drop>(alloc: Global, items: &mut Items<T>) -> Option<T>
    ensures last { items_of items.old ≡ items_of items.new ++ option_to_list result }
    ensures none { IsNone result ↔ (items_of items.old ≡ []) }
{
    match items {
        Items::Many(items) => items.pop(),
        Items::One(_) => match mem::replace(items, Items::Many(Vec::new(alloc))) {
            Items::One([item]) => Some(item),
            Items::Many(many) => {
                let mut many = many;
                let last = many.pop();
                *items = Items::Many(many);
                last
            }
        },
    }
}

// The items as a vector, or the one item in place.
fn split<T>(items: Items<T>) -> Result<Vec<T>, T>
    ensures many { IfOk result (λ vec. vec.items ≡ items_of items) }
    ensures one { IfErr result (λ item. items_of items ≡ item ∷ []) }
{
    match items {
        Items::One([item]) => Err(item),
        Items::Many(many) => Ok(many),
    }
}

// The items at which the closure gives `true`.
fn kept<T: Drop, F: FnMut(&T) -> bool>(alloc: Global, items: Items<T>, mut keep: F) -> Items<T>
    requires { F.IsAlwaysCallable keep }
    ensures { IsFiltered (CalledAt F.FnMut) keep (items_of items) (items_of result) }
{
    match split(items) {
        Err(item) => {
            if keep(&item) {
                Items::One([item])
            } else {
                Items::Many(Vec::new(alloc))
            }
        }
        Ok(many) => {
            let mut many = many;
            many.retain(keep);
            Items::Many(many)
        }
    }
}

// The items as a vector.
fn vec_of<T: Drop>(alloc: Global, items: Items<T>) -> Result<Vec<T>, NoMemory>
    ensures { IfOk result (λ vec. vec.items ≡ items_of items) }
{
    match items {
        Items::One([item]) => {
            let mut vec = Vec::with_capacity(alloc, 1)?;
            vec.push_reserved(item);
            Ok(vec)
        }
        Items::Many(items) => Ok(items),
    }
}

impl<T> List<T> {
    /// The empty list. It takes no memory.
    #[inline]
    pub fn new(alloc: Global) -> List<T>
        ensures { result ≡ [] }
    {
        List {
            alloc,
            items: Items::Many(Vec::new(alloc)),
        }
    }

    /// The empty list, with memory for so many items, where they are more than one.
    #[inline]
    pub fn with_capacity(alloc: Global, count: usize) -> Result<List<T>, NoMemory>
        ensures { IfOk result (λ list. list ≡ []) }
    {
        let room = if count < 2 { 0 } else { count };
        Ok(List {
            alloc,
            items: Items::Many(Vec::with_capacity(alloc, room)?),
        })
    }

    /// Lends the items.
    #[inline]
    pub fn as_slice(&self) -> &[T]
        ensures { result.now ≡ self.now }
    {
        match &self.items {
            Items::One(items) => items.as_slice(),
            Items::Many(items) => items.as_slice(),
        }
    }

    /// The empty list on the same allocator, with memory for as many items, where they are more than one.
    pub fn as_large(&self) -> Result<List<T>, NoMemory>
        ensures { IfOk result (λ list. list ≡ []) }
    {
        List::with_capacity(self.alloc, self.as_slice().len())
    }
}

impl<T: Drop> List<T> {
    /// Appends the item. Out of memory, the list is as before.
    #[inline(always)]
    pub fn push(&mut self, item: T) -> Result<(), Unplaced<T>>
        ensures ok { OnOk result (self.new ≡ self.old ++ item ∷ []) }
        ensures err { OnErr result (self.new ≡ self.old) }
        ensures handed_back { IfErr result (λ unplaced. unplaced ≡ Unplaced.NoMemory item) }
    {
        match &mut self.items {
            Items::Many(items) => {
                if items.is_empty() && items.capacity() == 0 {
                    self.items = Items::One([item]);
                    return Ok(());
                }
                match items.push(item) {
                    Ok(()) => Ok(()),
                    Err(failed) => Err(Unplaced::NoMemory { item: failed.value }),
                }
            }
            Items::One(_) => spill(self.alloc, &mut self.items, item),
        }
    }

    /// Takes out the last item. `None` exactly where the list is empty.
    #[inline]
    pub fn pop(&mut self) -> Option<T>
        ensures last { self.old ≡ self.new ++ option_to_list result }
        ensures none { IsNone result ↔ (self.old ≡ []) }
    {
        pop_last(self.alloc, &mut self.items)
    }

    /// Keeps the items at which the closure, called once at each in turn, gives `true`. It takes no memory.
    pub fn retain<F: FnMut(&T) -> bool>(&mut self, keep: F)
        requires { F.IsAlwaysCallable keep }
        ensures { IsFiltered (CalledAt F.FnMut) keep self.old self.new }
    {
        let items = mem::replace(&mut self.items, Items::Many(Vec::new(self.alloc)));
        self.items = kept(self.alloc, items, keep);
    }

    /// The items as a vector. Out of memory, they are dropped.
    pub fn into_vec(self) -> Result<Vec<T>, NoMemory>
        ensures { IfOk result (λ vec. vec.items ≡ self) }
    {
        let List { alloc, items } = self;
        vec_of(alloc, items)
    }
}

impl<T: Copy> List<T> {
    /// A list of these items, with memory for no more.
    #[inline]
    pub fn from_slice(alloc: Global, items: &[T]) -> Result<List<T>, NoMemory>
        ensures { IfOk result (λ list. list ≡ items.now) }
    {
        let items = match items {
            [item] => Items::One([*item]),
            _ => Items::Many(Vec::from_slice(alloc, items)?),
        };
        Ok(List { alloc, items })
    }

    /// An equal list, with memory for no more.
    #[inline]
    pub fn copy(&self) -> Result<List<T>, NoMemory>
        ensures { IfOk result (λ copy. copy ≡ self.now) }
    {
        List::from_slice(self.alloc, self.as_slice())
    }
}
