//! The same host without a dispatcher: its loop makes the gate's own calls.
#![tactic(auto)]

use bank::{Bank, BitBank};
use dispatcher::Reading;
use doors::{Door, ThreeBits};
use gate::Gate;
use gate_model::{Phase, Refusal};
use ring::Ring;

// The radio's work with an arm that is inside.
fn measure(arm: usize) -> Reading {
    Reading { arm, tenths: -35 }
}

// Begins the arm at the head of the ring. It stays there while it is busy (2); begun, or refused with 1 or 5, it is taken off.
fn begin_asked<B: Bank, D: Door>(gate: &mut Gate<B, D>, asked: &mut Ring<usize>) {
    if let Some(arm) = asked.first() {
        match gate.begin(arm) {
            Err(Refusal::Busy) => {}
            Ok(_) | Err(_) => {
                let _ = asked.take();
            }
        }
    }
}

// The first arm not idle after the last one, around the end.
fn next_busy<B: Bank, D: Door>(gate: &Gate<B, D>, last: usize) -> Option<usize> {
    let n = gate.arm_count();
    let mut arm = last;
    for _ in 0..n {
        arm = if arm < n { arm + 1 } else { 1 };
        if matches!(gate.phase(arm), Ok(phase) if phase != Phase::I) {
            return Some(arm);
        }
    }
    None
}

// Makes the next step of an arm; one inside is refused with 4, and is let go. Answers whether it went inside.
fn serve<B: Bank, D: Door>(gate: &mut Gate<B, D>, arm: usize) -> bool {
    match gate.step(arm) {
        Ok(phase) => phase == Phase::F,
        Err(Refusal::Inside) => {
            let _ = gate.let_go(arm);
            false
        }
        Err(_) => false,
    }
}

fn main(rt: HostRuntime) -> anyhow::Result<()> {
    let mut arms = [0; 8];
    let mut delivered = [Reading { arm: 0, tenths: 0 }; 16];
    let mut asked = Ring::over(&mut arms);
    let mut readings = Ring::over(&mut delivered);
    let mut gate = Gate::<_, ThreeBits>::make(BitBank::new(), 7, 6);
    for arm in [3, 1, 6] {
        asked.put(arm)?; // 17: the ring is full
    }
    let mut last = 0;
    for _ in 0..400 {
        begin_asked(&mut gate, &mut asked);
        if let Some(arm) = next_busy(&gate, last) {
            last = arm;
            if serve(&mut gate, arm) {
                readings.put(measure(arm))?;
            }
        }
    }
    for _ in 0..readings.len() {
        if let Some(Reading { arm, tenths }) = readings.take() {
            println!(rt; "arm {arm}: {tenths} tenths of a degree")?;
        }
    }
    Ok(())
}
