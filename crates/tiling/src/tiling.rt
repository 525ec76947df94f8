// The quintants of a face.
ghost use Rattle.std.specs.Prelude.{◌≡◌, ◌<◌};
ghost use Rattle.arithmetic.specs.Arith.{ieee};
ghost use Rattle.tiling.specs.Tiling.{get_quintant_vertices};

use coordinates::coords::Face;
use coordinates::vec2::Vec2;

// The centre of the face and the two corners of one of its five quintants. No FaceTriangle, though three points too: the
// Rust's name, and its fields say which point is which.
#[derive(Clone, Copy)]
pub struct QuintantVertices {
    pub center: Face,
    pub corner1: Face,
    pub corner2: Face,
}

// The five quintants: what the Rust computes once from the figure and five rotations. The centre is turned too, which makes
// -0 of two zeros.
const QUINTANTS: [QuintantVertices; 5] = [
    // quintant 0
    QuintantVertices {
        center: Face(Vec2 { x: 0.0, y: 0.0 }),
        corner1: Face(Vec2 {
            x: 0.6180339887498949,
            y: 0.4490279765795854,
        }),
        corner2: Face(Vec2 {
            x: 0.6180339887498949,
            y: -0.4490279765795854,
        }),
    },
    // quintant 1
    QuintantVertices {
        center: Face(Vec2 { x: 0.0, y: 0.0 }),
        corner1: Face(Vec2 {
            x: -0.23606797749978964,
            y: 0.7265425280053609,
        }),
        corner2: Face(Vec2 {
            x: 0.6180339887498949,
            y: 0.4490279765795854,
        }),
    },
    // quintant 2
    QuintantVertices {
        center: Face(Vec2 {
            x: -0.0, // the turned x of the centre
            y: 0.0,
        }),
        corner1: Face(Vec2 {
            x: -0.7639320225002104,
            y: 1.6653345369377348e-16,
        }),
        corner2: Face(Vec2 {
            x: -0.23606797749978964,
            y: 0.726542528005361,
        }),
    },
    // quintant 3
    QuintantVertices {
        center: Face(Vec2 {
            x: 0.0,
            y: -0.0, // the turned y of the centre
        }),
        corner1: Face(Vec2 {
            x: -0.23606797749978986,
            y: -0.7265425280053608,
        }),
        corner2: Face(Vec2 {
            x: -0.7639320225002104,
            y: 5.551115123125783e-17,
        }),
    },
    // quintant 4
    QuintantVertices {
        center: Face(Vec2 { x: 0.0, y: 0.0 }),
        corner1: Face(Vec2 {
            x: 0.6180339887498948,
            y: -0.4490279765795856,
        }),
        corner2: Face(Vec2 {
            x: -0.23606797749978983,
            y: -0.7265425280053609,
        }),
    },
];

// The centre and the two corners of quintant 0 to 4.
pub(crate) fn get_quintant_vertices(quintant: usize) -> QuintantVertices
    requires { quintant < 5 }
    ensures { result ≡ get_quintant_vertices ieee quintant }
{
    QUINTANTS[quintant]
}
