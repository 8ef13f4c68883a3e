ghost use Rattle.gate_model.specs.Doorways.{ShowsReads};
ghost use Rattle.gate_model.specs.Law.{PassingBound, ReadingBound};
ghost use Rattle.gate_model.specs.Rules.{Phased, ShowsRules};
ghost use Rattle.gate_model.specs.Table.{Table};
ghost use Rattle.gate_model.specs.Takes.{TakingBound};

/// How often an arm is passed, at any door with positions P: it follows from the rules, and from the phases in which an arm
/// rests, begins and leaves. The call does nothing; what it says is its contract.
pub fn passing_bound<P>()
    ensures { (door : Table P) → Phased door → ShowsRules door → PassingBound door }
{}

/// How often an arm takes what it takes at most once a visit and only while inside, such as a lock among the arms inside,
/// at any door with positions P. The call does nothing; what it says is its contract.
pub fn taking_bound<P>()
    ensures { (door : Table P) → Phased door → ShowsRules door → TakingBound door }
{}

/// That each doorway reads the bit exactly once, and that the side is this bit, at any door with positions P that shows what
/// its doorway accesses. The call does nothing; what it says is its contract.
pub fn reading_bound<P>()
    ensures { (door : Table P) → Phased door → ShowsRules door → ShowsReads door → ReadingBound door }
{}
