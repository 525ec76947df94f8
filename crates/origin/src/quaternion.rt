// Rotations by unit quaternions.
ghost use Rattle.std.specs.Prelude.{◌≡◌};
ghost use Rattle.arithmetic.specs.Arith.{ieee};
ghost use Rattle.origin.specs.Quaternion.{quat_conjugate, transform_quat};

use crate::utils::Quat;
use coordinates::coords::Cartesian;
use coordinates::vec3::Vec3;

// The rotation back, for a unit quaternion.
pub fn quat_conjugate(q: Quat) -> Quat
    ensures { result ≡ quat_conjugate q }
{
    Quat {
        x: -q.x,
        y: -q.y,
        z: -q.z,
        w: q.w,
    }
}

// q v q^-1, for a unit quaternion q.
pub fn transform_quat(v: Cartesian, q: Quat) -> Cartesian
    ensures { result ≡ transform_quat ieee v q }
{
    let vx = v.0.x;
    let vy = v.0.y;
    let vz = v.0.z;
    let qx = q.x;
    let qy = q.y;
    let qz = q.z;
    let qw = q.w;
    // q^-1, since q is a unit quaternion
    let conj = quat_conjugate(q);
    let qconj_x = conj.x;
    let qconj_y = conj.y;
    let qconj_z = conj.z;
    let qconj_w = conj.w;

    // q v
    let t1_x = qw * vx + qy * vz - qz * vy;
    let t1_y = qw * vy + qz * vx - qx * vz;
    let t1_z = qw * vz + qx * vy - qy * vx;
    let t1_w = -qx * vx - qy * vy - qz * vz;

    // (q v) q^-1
    Cartesian(Vec3 {
        x: t1_w * qconj_x + t1_x * qconj_w + t1_y * qconj_z - t1_z * qconj_y,
        y: t1_w * qconj_y + t1_y * qconj_w + t1_z * qconj_x - t1_x * qconj_z,
        z: t1_w * qconj_z + t1_z * qconj_w + t1_x * qconj_y - t1_y * qconj_x,
    })
}
