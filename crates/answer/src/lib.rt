// Refusals and their numbers, and the checks of one number (document 01, "Calls and their numbers"); the bits of a number, and its bytes.
#![tactic(auto)]

pub mod big_endian;

ghost use Rattle.std.specs.Prelude.{◌≡◌};
ghost use Rattle.std.specs.Float.{binary64};
ghost use Rattle.std.specs.Float.Ieee.{to_bits};
ghost use Rattle.answer.specs.Given.{status};
ghost use Rattle.answer.specs.Answer.{number_of, given};
ghost use Rattle.answer.specs.Number.{is_finite, check_number};

// Why a call refuses, with its number: those of document 01's table in its order, and then document 02's.
#[derive(Clone, Copy, PartialEq, Eq)]
pub enum Refusal {
    // 1: the frame isn't 186 numbers
    FrameLength = 1,
    // 2: the face store isn't 210 numbers
    FaceStoreLength = 2,
    // 3: the sphere store isn't 3,120 numbers (Paper 6)
    SphereStoreLength = 3,
    // 4: the origin's id is above 11
    UnknownOrigin = 4,
    // 5: a number is infinite or NaN
    NotFinite = 5,
    // 6: a number is outside its range
    OutOfRange = 6,
    // 7: the frame that open makes hasn't 62 rows
    FrameRows = 7,
    // 8: a triangle that must be built has no vertex in the frame
    NoVertex = 8,
    // 9: the answer would have a number that isn't finite
    AnswerNotFinite = 9,
    // 10: show: the store has no such slot
    UnknownSlot = 10,
    // 11: strike program: the header is missing, wrong or short
    Header = 11,
    // 12: strike program: the kind isn't 1 or 2, or it is 1 and the origin byte isn't 0
    RecordKind = 12,
    // 13: strike program: the input ends inside a record
    CutOff = 13,
    // 14: lists, region: the lent places aren't as many as the positions (Papers 1 and 4)
    ResultCount = 14,
    // 15: region: there are no positions, or more than 256 (Paper 4)
    PositionCount = 15,
    // 16: region: two positions have different nearest origins (Paper 4)
    OriginsDiffer = 16,
    // 17: window: the minute is earlier than the last accepted one (Paper 5)
    EarlierMinute = 17,
    // 18: window: 4,096 strikes remain after the drop (Paper 5)
    WindowFull = 18,
    // 19: inverse, unplace: no corner is returned, and the angle from the area share is beyond ±64 (Paper 7)
    AngleOutside = 19,
    // 20: table file: the length, the mark or the version is wrong (Paper 10)
    TableFile = 20,
    // 21: table: a number isn't finite or is outside its range (Paper 10)
    TableNumber = 21,
    // 22: table: a row's quaternion is off unit length (Paper 10)
    TableQuaternion = 22,
    // 23: panel: the register block isn't 32 bytes (Paper 11)
    BlockLength = 23,
    // 24: turns: there aren't exactly 16 wishes (Paper 12)
    WishCount = 24,
    // 25: turns: there aren't exactly 16 grant places (Paper 12)
    GrantCount = 25,
    // 26: sheet: the page isn't 4,860 bytes (Paper 13)
    PageLength = 26,
}

impl Refusal {
    // The number of a refusal.
    pub fn number(self) -> u8
        ensures { result ≡ number_of self }
    {
        self as u8
    }
}

// What C is told of a call: 0 where it answered, and otherwise the number of its refusal.
pub fn status<T: Drop>(outcome: Result<T, Refusal>) -> u8
    ensures { result ≡ status (given outcome) }
{
    match outcome {
        Ok(_) => 0,
        Err(refusal) => refusal.number(),
    }
}

// Neither infinite nor a NaN.
pub fn is_finite(x: f64) -> bool
    ensures { result ≡ is_finite x }
{
    x.is_finite()
}

// 5, then 6: x is finite and lies in the range from -limit to limit, ends included.
#[tactic(auto, unfolding(crate::specs::Number::check_number))]
pub fn check_number(x: f64, limit: f64) -> Result<(), Refusal>
    ensures { given result ≡ check_number x limit }
{
    if !is_finite(x) {
        return Err(Refusal::NotFinite);
    }
    if -limit <= x && x <= limit {
        return Ok(());
    }
    Err(Refusal::OutOfRange)
}

// The bits of x; 7ff8000000000000 for every NaN. f64::to_bits is not defined there, so a NaN is met before it.
#[tactic(auto, using(crate::proofs::NanBits::nan_written))]
pub fn bits(x: f64) -> u64
    ensures { result ≡ to_bits binary64 x }
{
    if x.is_nan() {
        0x7ff8_0000_0000_0000
    } else {
        x.to_bits()
    }
}
