// Nearest and the functions on rotations and triangles, each at a record's arguments.
use answer::Refusal;
use origin::quaternion::transform_quat;
use origin::utils::Quat;
use replay::outcome::{Outcome, one, whole};
use replay::record::Record;
use replay_arguments::{answers, cartesian, inside, polar, radians, spherical};

// From a point to an axis.
pub fn haversine(record: &Record) -> Result<f64, Refusal> {
    let point = spherical(record, 0);
    let axis = spherical(record, 2);
    inside(point.theta)?;
    inside(point.phi)?;
    inside(axis.theta)?;
    inside(axis.phi)?;
    Ok(nearest::haversine(point, axis))
}

// A vector turned by the quaternion behind it.
pub fn turned(record: &Record) -> Outcome {
    let turn = Quat {
        x: record.argument(3),
        y: record.argument(4),
        z: record.argument(5),
        w: record.argument(6),
    };
    answers::cartesian(transform_quat(cartesian(record, 0), turn))
}

// The number of the triangle that a point belongs to.
pub fn get_face_triangle_index(record: &Record) -> Outcome {
    whole(u64::from(tiling::triangle_index::get_face_triangle_index(polar(record))))
}

// A gamma as the angle from its quintant's bisector.
pub fn normalize_gamma(record: &Record) -> Outcome {
    one(tiling::triangle_index::normalize_gamma(radians(record)).0)
}

// 1 for reflected, 0 for not.
pub fn should_reflect(record: &Record) -> Outcome {
    whole(u64::from(tiling::triangle_index::should_reflect(polar(record))))
}
