//! A host of a dispatcher: it asks for three arms, makes moves, and delivers a reading of each arm that comes inside.
#![tactic(auto)]

use bank::BitBank;
use dispatcher::{Dispatcher, Reading};
use doors::ThreeBits;
use gate_model::Phase;
use ring::Ring;

// The radio's work with an arm that is inside.
fn measure(arm: usize) -> Reading {
    Reading { arm, tenths: -35 }
}

fn main(rt: HostRuntime) -> anyhow::Result<()> {
    let mut arms = [0; 8];
    let mut delivered = [Reading { arm: 0, tenths: 0 }; 16];
    let mut asked = Ring::over(&mut arms);
    let mut readings = Ring::over(&mut delivered);
    let mut dispatcher = Dispatcher::<_, ThreeBits>::new(BitBank::new(), 7, 6);
    for arm in [3, 1, 6] {
        asked.put(arm)?; // 17: the ring is full
    }
    for _ in 0..400 {
        let arm = dispatcher.make_move(&mut asked);
        if matches!(dispatcher.gate().phase(arm), Ok(Phase::F)) {
            readings.put(measure(arm))?;
        }
    }
    for _ in 0..readings.len() {
        if let Some(Reading { arm, tenths }) = readings.take() {
            println!(rt; "arm {arm}: {tenths} tenths of a degree")?;
        }
    }
    Ok(())
}
