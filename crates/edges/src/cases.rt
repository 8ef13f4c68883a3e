ghost use Rattle.std.specs.Prelude.{◌≡◌, ◌+◌, length};
ghost use Rattle.edges.specs.EveryCase.{EveryCase};
ghost use Rattle.edges.specs.ThreeBitCases as T;
ghost use Rattle.edges.specs.FourValuedCases as V;

// Does nothing: it is there for its contract, that each edge case holds.
fn each_holds()
    ensures { EveryCase }
{}

// How many edge cases there are, of both doors. Each of them holds.
pub fn edge_cases() -> usize
    ensures count { result ≡ length T.table + length V.table }
    ensures each { EveryCase }
{
    each_holds();
    128
}
