// A region's answer as C is told of it: a number, and the origin and the box, which are written where it answered. Crate
// exports_region has the C functions.
#![tactic(auto)]

ghost use Rattle.answer.specs.Answer.{given};
ghost use Rattle.border.specs.Returns.{Returns, contents_of};
ghost use Rattle.region_border.specs.Regions.{origin_and_box};

use answer::Refusal;
use caption_box::CaptionBox;
use region_work::region::Region;

// What C is told of a region: 0, and the origin and the box are written to the places lent for them, or the number of the refusal, and
// nothing is written. Alike in `border::answers`, of another answer and other places: one for both would be lent what writes them.
pub fn put_region(outcome: Result<Region, Refusal>, origin: &mut u8, caption: &mut CaptionBox) -> u8
    ensures { Returns (given outcome) result (contents_of origin caption) origin_and_box }
{
    match outcome {
        Ok(region) => {
            *origin = region.origin;
            *caption = region.bounds;
            0
        }
        Err(refusal) => refusal.number(),
    }
}
