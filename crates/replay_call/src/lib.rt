// A call that is lent the set, with its other arguments, and what calls come to, as outcomes.
#![tactic(auto)]

pub mod lists;
mod mixed;
pub mod nearby;
pub mod regions;
pub mod steps;

use crate::nearby::Nearby;
use crate::steps::Registers;
use answer::bits;
use coordinates::coords::Face;
use coordinates::lonlat::LonLat;
use coordinates::spherical::Spherical;
use replay::outcome::{Outcome, answered, whole};
use stores::show::StoreKind;

// A call, without the table that it takes.
#[derive(Clone, Copy)]
pub enum Call {
    Open,
    Forward(Spherical, u8),
    Inverse(Face, u8),
    Place(LonLat),
    Unplace(Face, u8),
    List(Nearby),
    Region(Nearby),
    Step(Registers),
    Show(StoreKind, usize),
    Ask(StoreKind, usize),
}

// How many coordinates a part has, and the first and the last of them.
pub fn part(part: &[f64]) -> Outcome {
    match (part.first(), part.last()) {
        (Some(first), Some(last)) => answered([
            Some(part.len() as u64),
            Some(bits(*first)),
            Some(bits(*last)),
        ]),
        _ => whole(0),
    }
}

// 1 for filled, 0 for empty.
pub fn state(filled: bool) -> Outcome {
    whole(u64::from(filled))
}
