// `take_in` on a box of this program's own, so that the list is replayed by the call that is lent the box.
ghost use Rattle.answer.specs.Answer.{given};
ghost use Rattle.caption_box.specs.Sides.{TakesIn};

use answer::Refusal;
use caption_box::CaptionBox;
use coordinates::coords::Face;

// What `take_in` answers, and what it leaves in the box that is lent to it.
pub fn take_lent(caption: CaptionBox, point: Face) -> (Result<(), Refusal>, CaptionBox)
    ensures { TakesIn (given result.0) result.1 caption point }
{
    let mut kept = caption;
    let given = kept.take_in(point);
    (given, kept)
}
