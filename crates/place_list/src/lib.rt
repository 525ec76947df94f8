// Radar lists in one go (document 02, Paper 1): what is given for a position, with the definitions of the call and what holds of
// them. Every position of a list is placed, from first to last, and its result filled. Crate list_calls has the
// functions.
#![tactic(auto)]

// What place gives for one position of a list: the number of its refusal, which is 0 where it answered, and the origin
// and the face point, which are 0 and 0.0 twice where it refused. No Result: it is a5_result of C, four plain fields.
#[repr(C)]
#[derive(Clone, Copy)]
pub struct PlaceResult {
    pub refusal: u8,
    pub origin: u8,
    pub x: f64,
    pub y: f64,
}
