ghost use Rattle.std.specs.Prelude.{◌≡◌, ◌<◌, ◌≤◌, length, slice_get};
ghost use Rattle.ring.specs.Spans.{Fits, laid, place, put_span, put_slots, taken_span};
ghost use Rattle.ring.specs.Refusals.{put_answer};

use crate::refusal::Refusal;

// Which places of a memory hold the items of a ring: `count` places from `head` on, where the first place of the memory
// follows the last.
#[derive(Clone, Copy)]
pub(crate) struct Span {
    pub(crate) head: usize,
    pub(crate) count: usize,
}

impl Span {
    // The place that is `behind` places after the head, in a memory of `size` places, where the first place follows the last.
    fn place(self, behind: usize, size: usize) -> usize
        requires head { self.head < size }
        requires behind { behind ≤ size }
        ensures place { result ≡ place self behind size }
        ensures within { result < size }
    {
        let before_end = size - self.head;
        if behind < before_end {
            self.head + behind
        } else {
            behind - before_end
        }
    }

    // The first item; none where there are no items.
    #[tactic(auto, using(crate::proofs::Calls::none_first, crate::proofs::Calls::some_first))]
    pub(crate) fn first<T: Copy>(self, memory: &[T]) -> Option<T>
        requires { Fits self (length memory.now) }
        ensures { result ≡ slice_get (laid self memory.now) 0 }
    {
        if self.count == 0 {
            return None;
        }
        Some(memory[self.head])
    }

    // Puts an item behind the others. Refuses where the memory is full.
    #[tactic(auto, using(crate::proofs::Calls::count_is))]
    pub(crate) fn put<T: Copy>(&mut self, memory: &mut [T], item: T) -> Result<(), Refusal>
        requires { Fits self.old (length memory.old) }
        ensures answer { result ≡ put_answer self.old memory.old }
        ensures span { self.new ≡ put_span self.old memory.old }
        ensures memory { memory.new ≡ put_slots item self.old memory.old }
        ensures fits { Fits self.new (length memory.new) }
    {
        let size = memory.len();
        if self.count == size {
            return Err(Refusal::RingFull);
        }
        memory[self.place(self.count, size)] = item;
        self.count += 1;
        Ok(())
    }

    // Takes the first item out, in a memory of `size` places.
    pub(crate) fn drop_first(&mut self, size: usize)
        requires { Fits self.old size }
        ensures span { self.new ≡ taken_span self.old size }
        ensures fits { Fits self.new size }
    {
        if self.count > 0 {
            self.head = self.place(1, size);
            self.count -= 1;
        }
    }
}
