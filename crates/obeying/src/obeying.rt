ghost use Rattle.std.specs.Prelude.{◌≡◌};
ghost use Rattle.obeying.specs.Obeying.{order_refusal, obeyed};

use bank::Bank;
use doors::Door;
use gate::Gate;
use gate_model::Refusal;
use schedule::Order;

/// Obeys one order and answers none, or answers why the gate refuses it. A leave order admits its arm and lets it leave;
/// it is refused as an admit is, with 1, 6 or 7.
#[inline]
pub fn obey<B: Bank, D: Door>(gate: &mut Gate<B, D>, order: Order) -> Option<Refusal>
    ensures answer { result ≡ order_refusal D.table gate.old order }
    ensures after { gate.new ≡ obeyed D.table gate.old order }
{
    match order {
        Order::Begin(arm) => gate.begin(usize::from(arm)).err(),
        Order::Step(arm) => gate.step(usize::from(arm)).err(),
        Order::Leave(arm) => gate.let_go(usize::from(arm)).err(),
    }
}
