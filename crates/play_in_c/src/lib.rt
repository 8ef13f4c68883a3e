//! A play for a host in C, through the three-bit door over bytes: a static library.
#![tactic(auto)]

ghost use Rattle.std.specs.Prelude.{◌≡◌, ℕ};
ghost use Rattle.play_in_c.specs.PlayedOver.{IsPlayedOver};

use bank::ByteBank;
use doors::ThreeBits;
use play::{Played, play};

// Plays a file over registers that are lent; answers the length of the report, or 0 where the file is not played, and hands the registers back.
fn play_over<'a>(
    file: &[u8],
    registers: &'a mut [u8],
    memory: &mut [u8],
    service: &mut u8,
) -> (usize, &'a mut [u8])
    ensures lent { result.1.ghost_name ≡ registers.entry.ghost_name }
    ensures played { IsPlayedOver registers.entry.ghost_name registers.old file.now memory.old result.0 result.1.now memory.new }
    ensures restored { service.new ≡ service.old }
{
    let Played { bank, answer, .. } = play::<_, ThreeBits>(
        file,
        ByteBank::new(registers),
        memory,
        service,
    );
    (answer.unwrap_or(0), bank.into_memory())
}

/// Plays a file, and answers the length of its report in bytes, or 0 where the file is not played. The memory is the host's, and
/// nothing else touches it meanwhile: a byte a register, at least 4,096 bytes for the report, and the service byte.
/// In C a slice is a pointer and a length, in two arguments.
#[unsafe(no_mangle)]
pub extern "C" fn play_file(
    file: &[u8],
    registers: &mut [u8],
    memory: &mut [u8],
    service: &mut u8,
) -> usize
    ensures played { (name : ℕ) × IsPlayedOver name registers.old file.now memory.old result registers.new memory.new }
    ensures restored { service.new ≡ service.old }
{
    play_over(file, registers, memory, service).0
}
