// What the pattern of an f64 says, for every pattern.
ghost use Rattle.std.specs.Prelude.{◌≡◌};
ghost use Rattle.elementary.specs.Parts.{digits, places};

// A finite value with no sign is m * 2^h of the smallest ones, 2^-1074. No generic pair with square_root's Wide and Number, though they
// are two words each: they count in other units, and no function is the same for two of them.
#[derive(Clone, Copy)]
pub struct Parts {
    pub m: u64,
    pub h: u64,
}

// The parts of a pattern. They say something of its value where it has no sign and is finite.
#[tactic(auto, unfolding(crate::specs::Parts::digits, crate::specs::Parts::places))]
pub fn split(b: u64) -> Parts
    ensures { (result.m ≡ digits b) × (result.h ≡ places b) }
{
    let e = b >> 52;
    let t = b % 0x10_0000_0000_0000;
    // a subnormal has no leading digit, and the exponent of the smallest normal ones
    if e == 0 {
        return Parts { m: t, h: 0 };
    }
    Parts {
        m: 0x10_0000_0000_0000 + t,
        h: e - 1,
    }
}
