ghost use Rattle.std.specs.Prelude.{◌≡◌, ◌==◌, [], drop, length, slice_get};
ghost use Rattle.ring.specs.Rings.{items, emptied, is_full, put_in, taken, with_item};
ghost use Rattle.ring.specs.Refusals.{put_answer};

use crate::refusal::Refusal;
use crate::span::Span;
use std::marker::Model;

/// Items in the order in which they were put in, in memory that is lent to the ring.
/// An item is copied out of that memory, which goes on holding it: so items are `Copy`.
#[derive(Drop)]
pub struct Ring<'a, T> {
    memory: &'a mut [T],
    span: Span,
}

// Clauses see a ring as its memory and where the items lie in it.
impl<'a, T> Model for Ring<'a, T> {
    ghost use Rattle.std.specs.Prelude.{length};
    ghost use Rattle.ring.specs.Spans.{Fits};
    ghost use Rattle.ring.specs.Rings.{Held};

    ghost Value = { Held T };

    ghost view = { λ r. record { memory = r.memory.ghost_name; slots = r.memory.now; span = r.span } };

    ghost invariant = { λ r. Fits r.span (length r.memory.now) };
}

impl<'a, T: Copy> Ring<'a, T> {
    /// An empty ring over this memory. It has room for as many items as the memory has places; what these hold already does not matter.
    pub fn over(memory: &'a mut [T]) -> Ring<'a, T>
        ensures ring { result ≡ emptied memory.entry.ghost_name memory.old }
        ensures items { items result ≡ [] }
    {
        Ring {
            memory,
            span: Span { head: 0, count: 0 },
        }
    }

    /// How many items there are.
    #[tactic(auto, using(crate::proofs::Calls::count_is))]
    pub fn len(&self) -> usize
        ensures { result ≡ length (items self.now) }
    {
        self.span.count
    }

    /// Whether there are no items.
    pub fn is_empty(&self) -> bool
        ensures { result ≡ (length (items self.now) == 0) }
    {
        self.len() == 0
    }

    /// Whether `put` would refuse: the ring has as many items as its memory has places.
    #[tactic(auto, using(crate::proofs::Calls::count_is))]
    pub fn is_full(&self) -> bool
        ensures { result ≡ is_full self.now }
    {
        self.len() == self.memory.len()
    }

    /// The item that `take` would take out; it stays in the ring. None where the ring is empty.
    pub fn first(&self) -> Option<T>
        ensures { result ≡ slice_get (items self.now) 0 }
    {
        self.span.first(self.memory)
    }

    /// Puts an item behind the others. Refuses with 17 where the ring has as many items as its memory has places.
    pub fn put(&mut self, item: T) -> Result<(), Refusal>
        ensures answer { result ≡ put_answer self.old.span self.old.slots }
        ensures ring { self.new ≡ put_in item self.old }
        ensures items { items self.new ≡ with_item item self.old }
    {
        self.span.put(self.memory, item)
    }

    /// Takes the first item out and answers it. None where the ring is empty.
    pub fn take(&mut self) -> Option<T>
        ensures answer { result ≡ slice_get (items self.old) 0 }
        ensures ring { self.new ≡ taken self.old }
        ensures items { items self.new ≡ drop 1 (items self.old) }
    {
        let first = self.first();
        self.span.drop_first(self.memory.len());
        first
    }

    /// Ends the ring and hands its memory back, as it stands.
    pub fn into_memory(self) -> &'a mut [T]
        ensures slots { result.now ≡ self.entry.slots }
        ensures lent { result.ghost_name ≡ self.entry.memory }
    {
        let Ring { memory, span: _ } = self;
        memory
    }
}
