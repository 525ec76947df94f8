// The block of a step of the caption panel, made of a call's numbers, and what it comes to, as an outcome.
ghost use Rattle.std.specs.Prelude.{◌≡◌};
ghost use Rattle.replay_call.specs.Made.{block_of};

use crate::mixed::mixed;
use answer::Refusal;
use replay::outcome::Outcome;

// What a block holds before a step: the registers that a step reads, as their bytes, and one value for all the others.
#[derive(Clone, Copy)]
pub struct Registers {
    pub command: u8,
    pub status: u8,
    pub mask: u8,
    pub origin: u8,
    pub first: u32,
    pub second: u32,
    pub others: u8,
}

// The block, the inputs' highest bytes first.
pub fn block(r: Registers) -> [u8; 32]
    ensures { result ≡ block_of r }
{
    let mut bytes = [r.others; 32];
    bytes[0] = r.command;
    bytes[1] = r.status;
    bytes[2] = r.mask;
    bytes[4] = r.origin;
    bytes[8..12].copy_from_slice(&r.first.to_be_bytes());
    bytes[12..16].copy_from_slice(&r.second.to_be_bytes());
    bytes
}

// All bytes of a block: both results by themselves, and the others mixed.
pub fn of_block(answer: Result<(), Refusal>, block: &[u8; 32]) -> Outcome {
    let numbers = block.as_chunks::<8>().0;
    let number = |at: usize| u64::from_be_bytes(numbers[at]);
    Outcome {
        status: answer::status(answer),
        answers: [
            Some(mixed(number(0), number(1))),
            Some(number(2)),
            Some(number(3)),
        ],
    }
}
