// An answer at the C border: its number is returned, and the numbers that stand for it are written where they are lent for.
ghost use Rattle.answer.specs.Answer.{given};
ghost use Rattle.std.specs.Prelude.{◌≡◌};
ghost use Rattle.border.specs.Returns.{Returns, contents, contents_of};
ghost use Rattle.border.specs.Calls.{id as Calls·id, mark, part, angles, degrees, point, id_and_point};

use answer::Refusal;
use coordinates::coords::Face;
use coordinates::lonlat::LonLat;
use coordinates::spherical::Spherical;
use dodecahedron::place::Place;

// An answer that C is lent one place for: the numbers that stand for it there. A trait of its own, and not Into: the ghost member is the
// definition that C is told by, which Into has not.
pub trait Numbers: Copy {
    type Lent: Copy;

    ghost standing: { Self → Self.Lent };

    fn numbers(self) -> Self::Lent
        ensures { result ≡ standing self };
}

// An origin's id.
impl Numbers for u8 {
    type Lent = u8;

    ghost standing = { Calls·id };

    fn numbers(self) -> u8 {
        self
    }
}

// 1 for true, and 0 for false.
impl Numbers for bool {
    type Lent = u8;

    ghost standing = { mark };

    fn numbers(self) -> u8 {
        u8::from(self)
    }
}

// An offset, then a length.
impl Numbers for [usize; 2] {
    type Lent = [usize; 2];

    ghost standing = { part };

    fn numbers(self) -> [usize; 2] {
        self
    }
}

// x, then y.
impl Numbers for Face {
    type Lent = [f64; 2];

    ghost standing = { point };

    fn numbers(self) -> [f64; 2] {
        [self.0.x, self.0.y]
    }
}

// theta, then phi.
impl Numbers for Spherical {
    type Lent = [f64; 2];

    ghost standing = { angles };

    fn numbers(self) -> [f64; 2] {
        [self.theta.0, self.phi.0]
    }
}

// Longitude, then latitude.
impl Numbers for LonLat {
    type Lent = [f64; 2];

    ghost standing = { degrees };

    fn numbers(self) -> [f64; 2] {
        [self.longitude.0, self.latitude.0]
    }
}

// What C is told of a call that is lent one place for its answer: 0, and the answer's numbers are written there, or the number of the
// refusal, and nothing is written.
pub fn put<A: Numbers>(outcome: Result<A, Refusal>, to: &mut A::Lent) -> u8
    ensures { Returns (given outcome) result (contents to) A.standing }
{
    match outcome {
        Ok(answer) => {
            *to = answer.numbers();
            0
        }
        Err(refusal) => refusal.number(),
    }
}

// The same of a place, which is lent two: one for the origin's id, and one for the face point.
pub fn put_place(outcome: Result<Place, Refusal>, id: &mut u8, to: &mut [f64; 2]) -> u8
    ensures { Returns (given outcome) result (contents_of id to) id_and_point }
{
    match outcome {
        Ok(place) => {
            *id = place.origin;
            *to = place.face.numbers();
            0
        }
        Err(refusal) => refusal.number(),
    }
}
