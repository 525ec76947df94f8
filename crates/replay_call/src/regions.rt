// What a region comes to, as an outcome.
ghost use Rattle.std.specs.Prelude.{◌≡◌, length};

use crate::mixed::mixed;
use answer::bits;
use caption_box::CaptionBox;
use coordinates::coords::Face;
use replay::outcome::{Outcome, answered};
use replay_lent::regions::{BLANK, MOST, Outlined};

// The points before a call.
pub fn blank() -> [Face; MOST]
    ensures { length result ≡ 300 }
{
    [BLANK; MOST]
}

// All points, also those that no call may write.
fn mixed_points(points: &[Face]) -> u64 {
    points
        .iter()
        .flat_map(|point| [bits(point.0.x), bits(point.0.y)])
        .fold(0, mixed)
}

fn mixed_box(bounds: CaptionBox) -> u64 {
    let x = mixed(bits(bounds.least_x), bits(bounds.greatest_x));
    let y = mixed(bits(bounds.least_y), bits(bounds.greatest_y));
    mixed(mixed(x, y), u64::from(bounds.empty))
}

// The answer, and all points.
pub fn of_outlined(outlined: &Outlined) -> Outcome {
    let points = Some(mixed_points(&outlined.points));
    match outlined.answer {
        Ok(region) => answered([
            points,
            Some(u64::from(region.origin)),
            Some(mixed_box(region.bounds)),
        ]),
        Err(refusal) => Outcome {
            status: refusal.number(),
            answers: [points, None, None],
        },
    }
}
