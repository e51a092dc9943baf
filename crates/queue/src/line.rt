// The line itself.
ghost use Rattle.std.specs.Prelude.{◌≡◌, ◌≤◌, [], ◌++◌, length, is_some};
ghost use Rattle.std.specs.Option.{unwrap_or};
ghost use Rattle.std.specs.List.{slice_get};
ghost use Rattle.queue.specs.Line.{items, slots_of, turned, first, is_full, StandsFirst, Pushed, Popped};

use crate::QueueFault;
use crate::slots::{place, put};

/// A first-in-first-out line over lent slots.
// A start and a count, since the slots are the caller's. No ghost field: every value of `head` and `len` means
// something, so a line may be part of any struct.
#[derive(Drop)]
pub struct Queue<'a, T> {
    slots: &'a mut [T],
    head: usize,
    len: usize,
}

impl<'a, T: Copy> Queue<'a, T> {
    /// An empty line over the slots.
    pub fn new(slots: &'a mut [T]) -> Queue<'a, T>
        ensures holds { items result ≡ [] }
        ensures slots { slots_of result ≡ slots.old }
    {
        Queue {
            slots,
            head: 0,
            len: 0,
        }
    }

    /// How many items the line has room for.
    pub fn capacity(&self) -> usize
        ensures { result ≡ length (slots_of self.now) }
    {
        self.slots.len()
    }

    /// How many items the line holds.
    pub fn len(&self) -> usize
        ensures is { result ≡ length (items self.now) }
        ensures bound { result ≤ length (slots_of self.now) }
    {
        self.len.min(self.slots.len())
    }

    /// Whether every slot is taken.
    pub fn is_full(&self) -> bool
        ensures { result ≡ is_full self.now }
    {
        self.len() == self.slots.len()
    }

    /// The slots, to look at an item in place by its index.
    pub fn slots(&self) -> &[T]
        ensures { result.now ≡ slots_of self.now }
    {
        let slots: &[T] = self.slots;
        slots
    }

    /// Where the first item stands among the slots.
    pub fn front_index(&self) -> Option<usize>
        ensures { StandsFirst self.now result }
    {
        if self.len() == 0 {
            return None;
        }
        Some(place(self.start(), 0, self.slots.len()))
    }

    /// The items in place, the oldest first: those that stand up to the last slot, and those from
    /// the first slot on.
    #[tactic(auto, using(crate::proofs::Turns::items_two, crate::proofs::Turns::take_own))]
    pub fn as_slices(&self) -> (&[T], &[T])
        ensures { result.0.now ++ result.1.now ≡ items self.now }
    {
        let len = self.len();
        let head = self.start();
        let front = len.min(self.slots.len() - head);
        (&self.slots[head..head + front], &self.slots[..len - front])
    }

    /// The item at `i`, the oldest at 0.
    pub fn get(&self, i: usize) -> Option<T>
        ensures { result ≡ slice_get (items self.now) i }
    {
        if i >= self.len() {
            return None;
        }
        Some(self.slots[place(self.start(), i, self.slots.len())])
    }

    /// The oldest item.
    pub fn front(&self) -> Option<T>
        ensures { result ≡ first (items self.now) }
    {
        self.get(0)
    }

    /// Puts an item at the end.
    pub fn push(&mut self, item: T) -> Result<(), QueueFault>
        ensures { Pushed self.old item result self.new }
    {
        self.push_from(&item)
    }

    /// Puts a copy of an item at the end: one copy, however large the item.
    pub fn push_from(&mut self, item: &T) -> Result<(), QueueFault>
        ensures { Pushed self.old item.now result self.new }
    {
        let size = self.slots.len();
        let len = self.len();
        if len == size {
            return Err(QueueFault::Full);
        }
        let head = self.start();
        let end = place(head, len, size);
        put(self.slots, end, item);
        self.head = head;
        self.len = len + 1;
        Ok(())
    }

    /// Takes the oldest item.
    pub fn pop(&mut self) -> Option<T>
        ensures answer { result ≡ first (items self.old) }
        ensures popped { Popped self.old self.new }
    {
        let item = self.front();
        self.discard();
        item
    }

    /// Takes the oldest item into `item`, one copy; without one it answers false and leaves `item`.
    pub fn pop_into(&mut self, item: &mut T) -> bool
        ensures answer { result ≡ is_some (first (items self.old)) }
        ensures item { item.new ≡ unwrap_or (first (items self.old)) item.old }
        ensures popped { Popped self.old self.new }
    {
        let Some(front) = self.front_index() else {
            return false;
        };
        *item = self.slots[front];
        self.discard()
    }

    /// Drops the oldest item, if there is one, with no copy; answers whether there was.
    pub fn discard(&mut self) -> bool
        ensures answer { result ≡ is_some (first (items self.old)) }
        ensures popped { Popped self.old self.new }
    {
        let len = self.len();
        if len == 0 {
            return false;
        }
        let at = place(self.start(), 0, self.slots.len());
        self.head = at + 1;
        self.len = len - 1;
        true
    }

    /// Where the oldest item stands or, in an empty line, would stand.
    fn start(&self) -> usize
        ensures is { turned self.now.head (slots_of self.now) ≡ turned result (slots_of self.now) }
        ensures bound { result ≤ length (slots_of self.now) }
    {
        if self.head < self.slots.len() {
            self.head
        } else {
            0
        }
    }
}
