ghost use Rattle.std.specs.Prelude.{◌≡◌, ◌<◌, ◌≤◌};
ghost use Rattle.plantday.specs.Dice.{rolled, face};

// Numbers that look drawn by chance, the same for the same seed.
#[derive(Drop)]
pub struct Dice {
    state: u64,
}

impl Dice {
    pub fn new(seed: u64) -> Dice
        ensures { result.state ≡ seed }
    {
        Dice { state: seed }
    }

    // A number below `sides`; 0 where `sides` is 0.
    pub fn roll(&mut self, sides: usize) -> usize
        ensures state { self.new.state ≡ rolled self.old.state }
        ensures shown { result ≡ face (rolled self.old.state) sides }
        ensures below { 1 ≤ sides → result < sides }
    {
        self.state = self
            .state
            .wrapping_mul(6364136223846793005)
            .wrapping_add(1442695040888963407);
        if sides == 0 {
            return 0;
        }
        (self.state >> 33) as usize % sides
    }
}
