// The origin nearest to a point as a call, with the built-in table or one that is handed over.
ghost use Rattle.std.specs.Prelude.{◌≡◌};
ghost use Rattle.answer.specs.Answer.{given};
ghost use Rattle.arithmetic.specs.Arith.{ieee};
ghost use Rattle.nearest.specs.Calls.{nearest_given};

use crate::origins::Origins;
use answer::Refusal;
use coordinates::conversions::check_spherical;
use coordinates::spherical::Spherical;

// The lowest-numbered origin with the least haversine; or a table's 21 or 22, or theta's and then phi's 5 or 6.
#[tactic(auto, unfolding(crate::specs::Calls::nearest_given))]
pub fn nearest<O: Origins>(origins: O, point: Spherical) -> Result<u8, Refusal>
    ensures { given result ≡ nearest_given ieee (O.table origins) point }
{
    origins.check()?;
    check_spherical(point)?;
    Ok(origins.find_nearest_origin(point))
}
