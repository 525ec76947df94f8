// The changes between degrees and radians, longitude and latitude, the sphere, space and the plane of a face, the authalic latitude, vectors,
// and the two conversions between longitude/latitude and the sphere as calls. Why an angle that is not outside is of no type,
// `sine::inside` says.
#![tactic(auto)]

pub mod authalic;
pub mod conversions;
pub mod coordinate_transforms;
pub mod geographic;
pub mod gnomonic;
pub mod plane;
pub mod vector;
