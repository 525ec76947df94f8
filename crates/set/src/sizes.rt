// How many numbers the buffers of a set have. A slot is a mark, and two or three coordinates of each
// of a triangle's three vertices a, b, c; a sphere slot has the three of b × c behind them.
pub const FRAME: usize = 62 * 3;

pub const FACE_SLOTS: usize = 30;

pub const FACE_COORDINATES: usize = 6;

pub const FACE_WIDTH: usize = 1 + FACE_COORDINATES;

pub const FACE_STORE: usize = FACE_SLOTS * FACE_WIDTH;

pub const SPHERE_SLOTS: usize = 240;

pub const SPHERE_COORDINATES: usize = 9;

// where b × c starts in a slot
pub const SPHERE_CROSS: usize = 1 + SPHERE_COORDINATES;

pub const SPHERE_WIDTH: usize = SPHERE_CROSS + 3;

pub const SPHERE_STORE: usize = SPHERE_SLOTS * SPHERE_WIDTH;
