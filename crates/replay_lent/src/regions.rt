// The points that are lent to `region`, and what such a call came to.
use answer::Refusal;
use coordinates::coords::Face;
use coordinates::vec2::Vec2;
use region_work::region::Region;

// How many positions and points there are.
pub const MOST: usize = 300;

// What a point holds before a call.
pub const BLANK: Face = Face(Vec2 { x: 0.5, y: -0.5 });

// What a call came to: its answer, and the points as it left them.
#[derive(Drop)]
pub struct Outlined {
    pub answer: Result<Region, Refusal>,
    pub points: [Face; MOST],
}
