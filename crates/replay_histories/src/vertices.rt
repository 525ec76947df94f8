// The vertices of a slot's triangle, as show hands them back, and b × c, as it stands in the sphere store, at a record's
// whole numbers.
use crate::buffers::Set;
use replay::outcome::{Outcome, nowhere, three, two};
use replay::record::Record;
use set::sizes::{SPHERE_CROSS, SPHERE_WIDTH};
use stores::show::{StoreKind, show, slot_state};

// A number of a record as a place.
fn place(record: &Record, argument: usize) -> Option<usize> {
    usize::try_from(record.word(argument)).ok()
}

// The numbers of a vertex, so many, among the coordinates of a slot.
fn vertex<'a>(set: &'a Set, kind: StoreKind, record: &Record, count: usize) -> Option<&'a [f64]> {
    let part = show(&set.face, &set.sphere, kind, place(record, 0)?);
    let start = place(record, 1)?.checked_mul(count)?;
    part.get(start..start.checked_add(count)?)
}

// What stands behind the coordinates of a filled slot, which show does not hand back.
fn cross_product<'a>(set: &'a Set, record: &Record) -> Option<&'a [f64]> {
    let slot = place(record, 0)?;
    if slot_state(&set.face, &set.sphere, StoreKind::Sphere, slot) != Ok(true) {
        return None;
    }
    let start = slot.checked_mul(SPHERE_WIDTH)?.checked_add(SPHERE_CROSS)?;
    set.sphere.get(start..start.checked_add(3)?)
}

// The numbers that a record asks for, as its outcome: none are there of an empty slot. A record's number is its function's place in
// main's list, in which three alone have records: so there is a match, and no table of what each function comes to.
pub(crate) fn of_record(set: &Set, record: &Record) -> Outcome {
    let numbers = match record.head.number {
        1 => vertex(set, StoreKind::Face, record, 2),
        2 => vertex(set, StoreKind::Sphere, record, 3),
        _ => cross_product(set, record),
    };
    match numbers {
        Some([x, y]) => two(*x, *y),
        Some([x, y, z]) => three(*x, *y, *z),
        _ => nowhere(),
    }
}
