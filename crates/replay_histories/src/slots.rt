// What show and its companion must come to, from the stores that gather what was written.
use crate::buffers::Set;
use answer::Refusal;
use replay::outcome::{Outcome, refused};
use set::sizes::{FACE_COORDINATES, FACE_WIDTH, SPHERE_COORDINATES, SPHERE_WIDTH};
use stores::show::StoreKind;

// The numbers of a slot, where the store has it. By the sizes, and not by `show`'s and `stores`' functions, which are what is compared.
fn numbers(set: &Set, kind: StoreKind, slot: usize) -> Option<&[f64]> {
    let (store, width): (&[f64], usize) = match kind {
        StoreKind::Face => (&set.face, FACE_WIDTH),
        StoreKind::Sphere => (&set.sphere, SPHERE_WIDTH),
    };
    let start = slot.checked_mul(width)?;
    store.get(start..start.checked_add(width)?)
}

// Whether a slot's numbers begin with the mark.
fn is_filled(numbers: &[f64]) -> bool {
    numbers.first().is_some_and(|mark| *mark == 1.0)
}

// The companion on a slot.
pub fn state(set: &Set, kind: StoreKind, slot: usize) -> Outcome {
    match numbers(set, kind, slot) {
        Some(numbers) => replay_call::state(is_filled(numbers)),
        None => refused(Refusal::UnknownSlot.number()),
    }
}

// Show on a slot: the coordinates of a filled one, of a sphere slot nine without the b × c behind them, and else an empty part.
pub fn part(set: &Set, kind: StoreKind, slot: usize) -> Outcome {
    let count = match kind {
        StoreKind::Face => FACE_COORDINATES,
        StoreKind::Sphere => SPHERE_COORDINATES,
    };
    match numbers(set, kind, slot) {
        Some(numbers) if is_filled(numbers) && count < numbers.len() => {
            replay_call::part(&numbers[1..1 + count])
        }
        _ => replay_call::part(&[]),
    }
}
