// What the calls work out.
use stores::used::Used;

// An answer, and the slots that it uses with the sphere triangle that was taken.
#[derive(Clone, Copy)]
pub struct Work<T> {
    pub answer: T,
    pub used: Used,
}
