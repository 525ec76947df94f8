// The positions of an outline, and what a region leaves: their points and the box round them.
use answer::bits;
use caption_box::CaptionBox;
use coordinates::base::Degrees;
use coordinates::coords::Face;
use coordinates::lonlat::LonLat;
use coordinates::vec2::Vec2;
use replay::outcome::{Outcome, answered};
use replay::record::Record;
use replay_arguments::answers;
use replay_lent::regions::MOST;
use std::alloc::{AllocError, Global};

// A call is lent the first positions and the first points. The box is that of the last region that was answered.
#[derive(Drop)]
pub struct Outline {
    pub positions: Vec<LonLat>,
    pub points: Vec<Face>,
    pub bounds: CaptionBox,
}

impl Outline {
    // Room for the most positions and points of a region, on the heap: zeros before the first region, and in the box, which is then no
    // empty one.
    pub fn new(alloc: Global) -> Result<Outline, AllocError> {
        let origin = LonLat {
            longitude: Degrees(0.0),
            latitude: Degrees(0.0),
        };
        let point = Face(Vec2 { x: 0.0, y: 0.0 });
        Ok(Outline {
            positions: vec![in alloc; origin; MOST]?,
            points: vec![in alloc; point; MOST]?,
            bounds: CaptionBox {
                empty: false,
                ..CaptionBox::new()
            },
        })
    }

    // A point, also one that was not written.
    pub fn point(&self, record: &Record) -> Option<Outcome> {
        let point = self.points.get(record.word(0) as usize)?;
        Some(answers::face(*point))
    }

    // Half of the box: 0 for the sides of x, 1 for those of y; and whether it is empty.
    pub fn half(&self, record: &Record) -> Option<Outcome> {
        let bounds = self.bounds;
        let (least, greatest) = match record.word(0) {
            0 => (bounds.least_x, bounds.greatest_x),
            1 => (bounds.least_y, bounds.greatest_y),
            _ => return None,
        };
        Some(answered([
            Some(bits(least)),
            Some(bits(greatest)),
            Some(u64::from(bounds.empty)),
        ]))
    }
}
