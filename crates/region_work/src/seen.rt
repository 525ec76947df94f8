// What is worked out of an outline's positions before anything is written.
ghost use Rattle.std.specs.Prelude.{◌≡◌};
ghost use Rattle.region_work.specs.Parts.{nothing_seen, seen_next};

use caption_box::CaptionBox;
use coordinates::coords::Face;
use dodecahedron::place::Place;

// What is known of the positions worked out so far: the first one's origin, whether another differs from it, whether a slot that
// one of them uses is empty, and the box round their face points.
#[derive(Clone, Copy)]
pub struct Seen {
    // It counts once the box is not empty. No Option: a region's origin is a number, so that `judge` would have to make one up for None.
    pub origin: u8,
    pub differ: bool,
    pub pending: bool,
    pub bounds: CaptionBox,
}

impl Seen {
    // Nothing is known before the first position.
    pub fn new() -> Seen
        ensures { result ≡ nothing_seen }
    {
        Seen {
            origin: 0,
            differ: false,
            pending: false,
            bounds: CaptionBox::new(),
        }
    }

    // Takes one more position in, which uses an empty slot or none.
    pub fn take_in(&mut self, place: Place, empty: bool)
        ensures { self.new ≡ seen_next self.old place empty }
    {
        if self.bounds.empty {
            self.origin = place.origin;
        }
        self.differ |= self.origin != place.origin;
        self.pending |= empty;
        self.bounds.grow(place.face);
    }
}

// All positions worked out: what is known of them, and their face points. An array, since there is no heap; and no generic struct for
// this and Outline: `seen` and `region` say what comes with the points, and nothing works on either alike.
#[derive(Clone, Copy)]
pub struct Found {
    pub seen: Seen,
    pub points: [Face; 256],
}
