// The list of the origins, the face triangles, a set that open has just written, nearest, and the functions on triangles.
mod ask;
mod buffers;
mod tables;

use crate::figure::buffers::FOREIGN;
use nearest::call::nearest;
use nearest::origins::BuiltIn;
use replay::function::Function;
use replay::outcome::{Outcome, nowhere, one, told, whole};
use replay::record::Record;
use replay_arguments::spherical;
use replay_tally::Tally;
use set::open::open;
use set::sizes::{FACE_STORE, FRAME, SPHERE_STORE};
use std::io;
use std::io::{Read, Write};

// The buffers of an opened set. `replay_histories` has a `Set` like it: one for both would bring in all calls for three arrays.
#[derive(Drop)]
struct Set {
    frame: [f64; FRAME],
    face: [f64; FACE_STORE],
    sphere: [f64; SPHERE_STORE],
}

// The outcome of a record's function, on an opened set. None where a record asks for a place that there is not. The numbers are those of
// the list below, and no table as in `replay_tally::table`, whose functions can't be lent the set.
fn outcome(set: &Set, record: &Record) -> Option<Outcome> {
    match record.head.number {
        1 => tables::number_of_origin(record),
        2 => tables::corner_of_triangle(record),
        3 => buffers::row(&set.frame, record),
        4 => buffers::row(&set.face, record),
        5 => buffers::row(&set.sphere, record),
        6 => buffers::outcome(record),
        7 => buffers::changes(record),
        8 => Some(told(
            nearest(BuiltIn, spherical(record, 0)),
            |id| whole(u64::from(id)),
        )),
        9 => Some(told(ask::haversine(record), one)),
        10 => Some(ask::turned(record)),
        11 => Some(ask::get_face_triangle_index(record)),
        12 => Some(ask::normalize_gamma(record)),
        _ => Some(ask::should_reflect(record)),
    }
}

// Runs the list, and reports.
pub(crate) fn run_list<R: Read, W: Write>(from: &mut R, to: &mut W) -> io::Result<()> {
    let functions = [
        Function::new("get_origin", 2),
        Function::new("face_triangle", 2),
        Function::new("frame", 1),
        Function::new("face_store", 1),
        Function::new("sphere_store", 1),
        Function::new("open", 3),
        Function::new("open_changes", 3),
        Function::new("nearest", 2),
        Function::new("haversine", 4),
        Function::new("transform_quat", 7),
        Function::new("get_face_triangle_index", 2),
        Function::new("normalize_gamma", 1),
        Function::new("should_reflect", 2),
    ];
    let mut set = Set {
        frame: [FOREIGN; FRAME],
        face: [FOREIGN; FACE_STORE],
        sphere: [FOREIGN; SPHERE_STORE],
    };
    // Where it is not opened, the rows differ.
    let _given = open(BuiltIn, &mut set.frame, &mut set.face, &mut set.sphere);
    Tally::new(&functions).run(from, to, |record| {
        outcome(&set, record).unwrap_or(nowhere())
    })
}
