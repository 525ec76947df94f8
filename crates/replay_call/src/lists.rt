// What a list of positions comes to, as an outcome.
ghost use Rattle.std.specs.Prelude.{◌≡◌, length};

use crate::mixed::mixed;
use answer::bits;
use place_list::PlaceResult;
use replay::outcome::Outcome;
use replay_lent::lists::{BLANK, Listed, MOST};

// The results before a call.
pub fn blank() -> [PlaceResult; MOST]
    ensures { length result ≡ 400 }
{
    [BLANK; MOST]
}

// All results, also those that no call may write.
fn mixed_results(results: &[PlaceResult]) -> u64 {
    results
        .iter()
        .flat_map(|placed| {
            [
                u64::from(placed.refusal),
                u64::from(placed.origin),
                bits(placed.x),
                bits(placed.y),
            ]
        })
        .fold(0, mixed)
}

// The status, and all results.
pub fn of_listed(listed: &Listed) -> Outcome {
    Outcome {
        status: answer::status(listed.answer),
        answers: [Some(mixed_results(&listed.results)), None, None],
    }
}
