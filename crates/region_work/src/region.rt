// What a region answers.
use caption_box::CaptionBox;
use coordinates::coords::Face;

// The origin on whose face all positions lie, and the box round their face points.
#[derive(Clone, Copy)]
pub struct Region {
    pub origin: u8,
    pub bounds: CaptionBox,
}

// An outline of n positions that answers: the region, and its face points, of which the first n count (an array: there is no heap).
#[derive(Clone, Copy)]
pub struct Outline {
    pub region: Region,
    pub points: [Face; 256],
}
