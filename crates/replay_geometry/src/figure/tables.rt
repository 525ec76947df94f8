// The origins and the face triangles, a part at a record's whole numbers. None where there is no such part.
use origin::origin::get_origin;
use replay::outcome::{Outcome, one};
use replay::record::Record;
use replay_arguments::answers;
use tiling::face_triangles::face_triangle;

// One number of an origin: axis theta, phi, quaternion x, y, z, w, angle.
pub fn number_of_origin(record: &Record) -> Option<Outcome> {
    let id = u8::try_from(record.word(0)).ok()?;
    if id > 11 {
        return None;
    }
    let origin = get_origin(id);
    Some(one(match record.word(1) {
        0 => origin.axis.theta.0,
        1 => origin.axis.phi.0,
        2 => origin.quat.x,
        3 => origin.quat.y,
        4 => origin.quat.z,
        5 => origin.quat.w,
        6 => origin.angle.0,
        _ => return None,
    }))
}

// A corner of the triangle of a slot.
pub fn corner_of_triangle(record: &Record) -> Option<Outcome> {
    let slot = record.word(0) as usize;
    if slot > 29 {
        return None;
    }
    let triangle = face_triangle(slot);
    Some(answers::face(match record.word(1) {
        0 => triangle.a,
        1 => triangle.b,
        2 => triangle.c,
        _ => return None,
    }))
}
