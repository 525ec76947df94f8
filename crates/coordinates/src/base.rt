// Angles. Degrees and radians are types of their own, so that one is never given for the other.

// Laid out as in C, since a list of positions is lent by C programs too.
#[repr(C)]
#[derive(Clone, Copy)]
pub struct Degrees(pub f64);

#[derive(Clone, Copy)]
pub struct Radians(pub f64);
