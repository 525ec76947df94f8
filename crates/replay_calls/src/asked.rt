// Which call a record is of, and how much of each buffer it is lent.
ghost use Rattle.std.specs.Prelude.{◌≡◌, ◌∷◌, []};
ghost use Rattle.replay.specs.Record.{word_at};
ghost use Rattle.replay_calls.specs.declared.asked.Call.TheVariants.{Open};

use replay::record::Record;
use replay_sets::asked::lengths;
use set::sizes::{FACE_STORE, FRAME, SPHERE_STORE};

#[derive(Clone, Copy)]
pub enum Call {
    Open,
    Forward,
    Inverse,
    Place,
    Unplace,
}

// A call, and how many numbers of the frame, the face store and the sphere store it is lent.
#[derive(Clone, Copy)]
pub struct Asked {
    pub call: Call,
    pub lengths: [u64; 3],
}

// The numbers of open, and of any call on buffers of other lengths. The other calls are lent a whole set.
pub const OPEN: u8 = 5;

const LENT: u8 = 6;

// The numbers of the calls, as the lists store them. Open's is OPEN, and 0 on buffers of other lengths.
impl From<u64> for Call {
    fn from(number: u64) -> Self {
        match number {
            1 => Call::Forward,
            2 => Call::Inverse,
            3 => Call::Place,
            4 => Call::Unplace,
            _ => Call::Open,
        }
    }
}

impl Asked {
    // Open has the three lengths as its arguments. LENT has them after three arguments of the call, and then the call's number.
    pub fn of(record: &Record) -> Asked
        ensures call { «record».now.head.number ≡ 5 → result.call ≡ Open }
        ensures lengths { «record».now.head.number ≡ 5
            → result.lengths ≡ word_at «record».now.words 0 ∷ word_at «record».now.words 1 ∷ word_at «record».now.words 2 ∷ [] }
    {
        match record.head.number {
            OPEN => Asked {
                call: Call::Open,
                lengths: lengths(record, 0),
            },
            LENT => Asked {
                call: Call::from(record.word(6) % 5),
                lengths: lengths(record, 3),
            },
            number => Asked {
                call: Call::from(u64::from(number)),
                lengths: [FRAME as u64, FACE_STORE as u64, SPHERE_STORE as u64],
            },
        }
    }
}

// The origin's id after the two numbers. No id is above 255, so what does not fit is as one that there is not.
pub fn origin(record: &Record) -> u8 {
    u8::try_from(record.word(2)).unwrap_or(u8::MAX)
}
