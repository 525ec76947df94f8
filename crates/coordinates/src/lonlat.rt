use crate::base::Degrees;

// A position in degrees. Laid out as in C, where it is two doubles.
#[repr(C)]
#[derive(Clone, Copy)]
pub struct LonLat {
    pub longitude: Degrees,
    pub latitude: Degrees,
}
