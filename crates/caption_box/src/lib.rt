// The caption box (document 02, Paper 3): the smallest upright rectangle round the face points taken
// in so far.
#![tactic(auto)]

ghost use Rattle.std.specs.Prelude.{◌≡◌, cond};
ghost use Rattle.answer.specs.Answer.{given};
ghost use Rattle.caption_box.specs.Sides.{new_box, grown, TakesIn};

use answer::Refusal;
use coordinates::conversions::check_face;
use coordinates::coords::Face;

// The least and greatest coordinates taken in. Where it is empty the four sides mean nothing. C reads
// the struct as it lies: so a flag beside the sides, and no Option.
#[repr(C)]
#[derive(Clone, Copy)]
pub struct CaptionBox {
    pub least_x: f64,
    pub greatest_x: f64,
    pub least_y: f64,
    pub greatest_y: f64,
    pub empty: bool,
}

// A side, or the coordinate where it is strictly beyond the side. Not f64's min and max: those pass
// over a NaN, and may replace one zero by the other.
fn replaced(beyond: bool, side: f64, coordinate: f64) -> f64
    ensures { result ≡ cond beyond coordinate side }
{
    if beyond { coordinate } else { side }
}

impl CaptionBox {
    // An empty box. Its sides are 0.0, so that all of it is determined.
    pub fn new() -> CaptionBox
        ensures { result ≡ new_box }
    {
        CaptionBox {
            least_x: 0.0,
            greatest_x: 0.0,
            least_y: 0.0,
            greatest_y: 0.0,
            empty: true,
        }
    }

    // Takes one more point in, whatever its coordinates: nothing is refused. Paper 4's outlines take
    // their points in by it.
    #[tactic(auto, unfolding(crate::specs::Sides::grown, crate::specs::Sides::later_point))]
    pub fn grow(&mut self, point: Face)
        ensures { self.new ≡ grown self.old point }
    {
        let x = point.0.x;
        let y = point.0.y;
        if self.empty {
            *self = CaptionBox {
                least_x: x,
                greatest_x: x,
                least_y: y,
                greatest_y: y,
                empty: false,
            };
            return;
        }
        self.least_x = replaced(x < self.least_x, self.least_x, x);
        self.greatest_x = replaced(self.greatest_x < x, self.greatest_x, x);
        self.least_y = replaced(y < self.least_y, self.least_y, y);
        self.greatest_y = replaced(self.greatest_y < y, self.greatest_y, y);
    }

    // Takes one more point in, or refuses it and stays as it was: x, then y, each for 5 and then 6.
    #[tactic(auto, unfolding(crate::specs::Sides::taken))]
    pub fn take_in(&mut self, point: Face) -> Result<(), Refusal>
        ensures { TakesIn (given result) self.new self.old point }
    {
        check_face(point)?;
        self.grow(point);
        Ok(())
    }
}
