// The caption box as C functions. The box is lent by a pointer to the struct that bindings/a5.h has as a5_box.
ghost use Rattle.std.specs.Prelude.{◌≡◌};
ghost use Rattle.caption_box.specs.Sides.{new_box};
ghost use Rattle.coordinates.specs.CoordinateTransforms.{face};
ghost use Rattle.exports_tools.specs.Boxes.{BoxTakes};

use caption_box::CaptionBox;
use coordinates::coords::Face;
use coordinates::vec2::Vec2;

// The face point of two numbers. It is this crate's own: what the other C functions share is in crate border, which this crate
// does not stand on.
fn face_point(x: f64, y: f64) -> Face
    ensures { result ≡ face x y }
{
    Face(Vec2 { x, y })
}

// Makes the box a new one, whatever it was.
#[unsafe(no_mangle)]
pub extern "C" fn a5_box_new(caption: &mut CaptionBox)
    ensures { caption.new ≡ new_box }
{
    *caption = CaptionBox::new();
}

// Takes one more face point in.
#[unsafe(no_mangle)]
pub extern "C" fn a5_box_take(caption: &mut CaptionBox, x: f64, y: f64) -> u8
    ensures { BoxTakes result caption.new caption.old (face x y) }
{
    answer::status(caption.take_in(face_point(x, y)))
}
