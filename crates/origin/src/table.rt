// A table of twelve origins: 84 numbers, a row an origin, in final order: axis theta, axis phi, quaternion
// x, y, z, w, angle. What its numbers must be, and the origin of a row.
ghost use Rattle.std.specs.Prelude.{◌≡◌, ◌<◌, true};
ghost use Rattle.answer.specs.Answer.{given};
ghost use Rattle.arithmetic.specs.Arith.{ieee};
ghost use Rattle.origin.specs.Origins.{origin_at};
ghost use Rattle.origin.specs.Table.{within, row_sound, numbers_sound, is_unit, check_table};

use crate::utils::{Origin, Quat};
use answer::Refusal;
use coordinates::base::Radians;
use coordinates::spherical::Spherical;

// A table whose numbers are finite and in their ranges, as 21 asks.
#[derive(Clone, Copy)]
pub struct SoundTable<'a> {
    pub rows: &'a [f64; 84],
    ghost sound: { numbers_sound rows.now ≡ true },
}

// The origin with the number id in a table. A table is 84 numbers in a row, as the file and C have them, and no array of rows. An id is C's
// byte: a type for one below 12 would be built by each caller from the proof that this clause asks.
pub fn origin_in(table: &[f64; 84], id: u8) -> Origin
    requires { id < 12 }
    ensures { result ≡ origin_at table.now id }
{
    let [theta, phi, x, y, z, w, angle] = table.as_chunks::<7>().0[usize::from(id)];
    Origin {
        axis: Spherical {
            theta: Radians(theta),
            phi: Radians(phi),
        },
        quat: Quat { x, y, z, w },
        angle: Radians(angle),
    }
}

// From -limit to limit, ends included.
fn within(limit: f64, x: f64) -> bool
    ensures { result ≡ within limit x }
{
    (-limit <= x) & (x <= limit)
}

// The seven numbers of a row are finite and in their ranges. All seven are tested at once: a table
// that fails is rare.
fn row_sound(origin: Origin) -> bool
    ensures { result ≡ row_sound origin }
{
    let theta = within(8.0, origin.axis.theta.0);
    let phi = within(8.0, origin.axis.phi.0);
    let x = within(1.0, origin.quat.x);
    let y = within(1.0, origin.quat.y);
    let z = within(1.0, origin.quat.z);
    let w = within(1.0, origin.quat.w);
    let angle = within(8.0, origin.angle.0);
    theta & phi & x & y & z & w & angle
}

// The squares of the quaternion's numbers add up to 1, to 1e-12.
fn is_unit(q: Quat) -> bool
    ensures { result ≡ is_unit ieee q }
{
    within(1e-12, q.x * q.x + q.y * q.y + q.z * q.z + q.w * q.w - 1.0)
}

// 21 over all rows from first to last, then 22 over all rows.
pub fn check_rows(table: &[f64; 84]) -> Result<(), Refusal>
    ensures { given result ≡ check_table ieee table.now }
{
    if !(0..12).all(|k| row_sound(origin_in(table, k))) {
        return Err(Refusal::TableNumber);
    }
    if !(0..12).all(|k| is_unit(origin_in(table, k).quat)) {
        return Err(Refusal::TableQuaternion);
    }
    Ok(())
}
