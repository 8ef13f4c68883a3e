ghost use Rattle.std.specs.Prelude.{◌≡◌};
ghost use Rattle.bank.specs.Bits.{place_of};

// How many bits a word has.
pub const WORD: usize = 64;

// The place of a bit in a list of words: which word, and which bit of it, both counted from 0.
#[derive(Clone, Copy)]
pub struct BitPlace {
    pub word: usize,
    pub bit: usize,
}

impl BitPlace {
    // Where the bit of register i lies.
    #[tactic(auto, unfolding(crate::specs::Bits::place_of))]
    pub fn of(i: usize) -> Self
        ensures { result ≡ place_of i }
    {
        BitPlace {
            word: i / WORD,
            bit: i % WORD,
        }
    }
}
