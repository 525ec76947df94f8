// The functions of crate transforms, each at a record's arguments.
use answer::Refusal;
use coordinates::base::Radians;
use coordinates::coords::{Cartesian, Face};
use coordinates::polar::Polar;
use replay::outcome::{Outcome, one, three};
use replay::record::Record;
use replay_arguments::{
    answers, barycentric, cartesian, face, inside, polar, radians, spherical, triangle,
};
use transforms::{coordinate_transforms, gnomonic};

// A face point in the coordinates of a triangle.
pub fn face_to_barycentric(record: &Record) -> Outcome {
    let b = transforms::plane::face_to_barycentric(face(record, 0), triangle(record, 2));
    three(b.u, b.v, b.w)
}

// And back.
pub fn barycentric_to_face(record: &Record) -> Outcome {
    answers::face(transforms::plane::barycentric_to_face(barycentric(record), triangle(record, 3)))
}

// A polar point on the face.
pub fn to_face(record: &Record) -> Result<Face, Refusal> {
    let point = polar(record);
    inside(point.gamma)?;
    Ok(transforms::plane::to_face(point))
}

// A spherical point in space.
pub fn to_cartesian(record: &Record) -> Result<Cartesian, Refusal> {
    let point = spherical(record, 0);
    inside(point.theta)?;
    inside(point.phi)?;
    Ok(coordinate_transforms::to_cartesian(point))
}

// A latitude on the authalic sphere.
pub fn authalic_forward(record: &Record) -> Result<Radians, Refusal> {
    let phi = radians(record);
    inside(phi)?;
    Ok(transforms::authalic::forward(phi))
}

// And back.
pub fn authalic_inverse(record: &Record) -> Result<Radians, Refusal> {
    let phi = radians(record);
    inside(phi)?;
    Ok(transforms::authalic::inverse(phi))
}

// A spherical point on the tangent plane.
pub fn gnomonic_forward(record: &Record) -> Result<Polar, Refusal> {
    let point = spherical(record, 0);
    inside(point.phi)?;
    Ok(gnomonic::forward(point))
}

// The triple product of three vectors.
pub fn triple_product(record: &Record) -> Outcome {
    let a = cartesian(record, 0);
    let b = cartesian(record, 3);
    one(transforms::vector::triple_product(a, b, cartesian(record, 6)))
}

// The distance of two points.
pub fn vec3_distance(record: &Record) -> Outcome {
    one(transforms::vector::vec3_distance(cartesian(record, 0), cartesian(record, 3)))
}
