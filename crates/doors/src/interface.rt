ghost use Rattle.std.specs.Prelude.{◌≡◌, ℕ, ◌+◌, ◌*◌, ◌≤◌, ◌↔◌, IsTrue};
ghost use Rattle.gate_model.specs.Accesses.{ShowsAccesses};
ghost use Rattle.gate_model.specs.Doorways.{ShowsReads};
ghost use Rattle.gate_model.specs.Indexes.{ShowsIndexes};
ghost use Rattle.gate_model.specs.Law.{ShowsWay};
ghost use Rattle.gate_model.specs.Rules.{Phased, ShowsBits, ShowsRules};
ghost use Rattle.gate_model.specs.Table.{Table};

use gate_model::Phase;
use gate_model::access::Access;

/// A door, as the type of its positions: a gate keeps a position in the record of each arm.
///
/// Whoever writes a door gives its table, the code of the table, and shows the laws at the end.
/// How often an arm is passed follows from `phased` and `rules`; right of way and going inside a door shows by an argument of its own.
pub trait Door: Copy + Eq {
    // The table of the door; the code below is held to it.
    ghost table: { Table Self };

    /// Where an arm rests.
    fn idle() -> Self
        ensures { result ≡ table.idle };

    /// Where a begun visit starts.
    fn entry() -> Self
        ensures { result ≡ table.entry };

    /// Where an arm that leaves goes.
    fn exit() -> Self
        ensures { result ≡ table.exit };

    /// The phase that a position belongs to.
    fn phase(self) -> Phase
        ensures { result ≡ table.phase self };

    /// Whether the access here is the doorway's read of the bit.
    fn reads_bit(self) -> bool
        ensures { result ≡ table.reads_bit self };

    /// The arm that a waiting arm looks at, from 1; else 0.
    fn index(self) -> usize
        ensures { result ≡ table.index self };

    /// The one access that arm i, from 1, makes here with its side; 0 stands for a side that is missing.
    fn access(self, i: u8, side: u64) -> Access
        ensures { result ≡ table.access i side self };

    /// Moves the position of an arm with this side on to the next one, by the value that its access read, in a gate of n arms.
    /// 0 stands for a side that is missing, and for the value of an access that reads nothing.
    fn advance(&mut self, n: u8, side: u64, value: u64)
        ensures { self.new ≡ table.next n side value self.old };

    /// The least that a bank's highest value may be.
    fn needed() -> u64
        ensures { result ≡ table.needed };

    /// How many registers n arms take: one at least.
    fn room(n: u8) -> usize
        ensures is { result ≡ table.room n }
        ensures some { 1 ≤ result };

    /// What making writes to register i: `needed` at most, which every bank of a gate with arms takes.
    fn first(i: usize) -> u64
        ensures is { result ≡ table.first i }
        ensures fits { result ≤ table.needed };

    /// Within how many rounds a waiting arm is inside, in a gate of n arms: 8n + 20 at most.
    fn rounds(n: u8) -> usize
        ensures is { result ≡ table.rounds n }
        ensures few { result ≤ 8 * n + 20 };

    // An arm rests in I, a begun visit starts in D, and an arm that leaves goes to X.
    ghost phased: { Phased table };

    // The bit and the sides are 0 or 1.
    ghost bits: { ShowsBits table };

    // Each call keeps the rules.
    ghost rules: { ShowsRules table };

    // Two waiting arms are alike in right of way exactly if they read the same bit; each goes inside within `rounds`; and the
    // call `way` tells right of way.
    ghost way: { ShowsWay table };

    // Each accepted step accesses one of the registers that the arms take; what it writes is `needed` at most.
    ghost accesses: { ShowsAccesses table };

    // A step of a doorway reads the group exactly where the table says that the bit is read, and there the arm gets its side.
    ghost reads: { ShowsReads table };

    // The index of an arm is one of the gate's arms while it waits, else 0.
    ghost indexes: { ShowsIndexes table };

    // The group is one of the registers that the arms take.
    ghost some_room: { (n : ℕ) → 1 ≤ table.room n };

    // `==` tells any two positions apart.
    ghost told_apart: { (p q : Self) → IsTrue (Self.PartialEq.eq p q) ↔ p ≡ q };
}
