// Places are counted over the three buffers of a set: the frame, then the face store, then the sphere store, each with one number
// more than a set has, so that one too many can be lent, and what lies behind is looked at.
pub const FRAME: usize = set::sizes::FRAME + 1;

pub const FACE_STORE: usize = set::sizes::FACE_STORE + 1;

pub const SPHERE_STORE: usize = set::sizes::SPHERE_STORE + 1;

pub const FACE_AT: usize = FRAME;

pub const SPHERE_AT: usize = FACE_AT + FACE_STORE;

// The notes: first what the set should hold, then the same places with what is copied there by its number.
pub const DEFINED_AT: usize = SPHERE_AT + SPHERE_STORE;
