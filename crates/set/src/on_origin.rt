// An origin, and a set with the origin that a call on it is on, where they have passed their tests.
ghost use Rattle.std.specs.Prelude.{◌≡◌, false};
ghost use Rattle.answer.specs.Given.{passed};
ghost use Rattle.elementary.specs.Sine.{beyond};
ghost use Rattle.coordinates.specs.Constants.{8·0};
ghost use Rattle.set.specs.Checks.{check_call};
ghost use Rattle.set.specs.Lent.{seen};

use crate::set::SetRef;
use origin::utils::Origin;

// An origin whose angle lies in ±8, as of a table that has passed its tests: with any polar angle less or more, sine takes it.
#[derive(Clone, Copy)]
pub struct SoundOrigin {
    pub origin: Origin,
    ghost small: { beyond 8·0 origin.angle.0 ≡ false },
}

// A set that has passed 1 to 4 for an origin's number, and that origin.
#[derive(Clone, Copy)]
pub struct OnOrigin<'a> {
    pub set: SetRef<'a>,
    pub origin: SoundOrigin,
    pub id: u8,
    ghost passes: { check_call (seen set) id ≡ passed },
}
