// The tables that opens bring, from the generator: the built-in one, turned ones, and some that open refuses.
ghost use Rattle.std.specs.Prelude.{◌<◌};

use crate::draw::{Generator, around};
use answer::big_endian::value;
use coordinates::coords::Cartesian;
use coordinates::vec3::Vec3;
use origin::origin::built_in;
use origin::quaternion::transform_quat;
use origin::utils::Quat;
use square_root::root::sqrt;
use transforms::coordinate_transforms::to_spherical;

// The rotation q and then p.
fn product(p: Quat, q: Quat) -> Quat {
    Quat {
        x: p.w * q.x + p.x * q.w + p.y * q.z - p.z * q.y,
        y: p.w * q.y + p.y * q.w + p.z * q.x - p.x * q.z,
        z: p.w * q.z + p.z * q.w + p.x * q.y - p.y * q.x,
        w: p.w * q.w - p.x * q.x - p.y * q.y - p.z * q.z,
    }
}

// At unit length.
fn unit(q: Quat) -> Quat {
    let length = sqrt(q.x * q.x + q.y * q.y + q.z * q.z + q.w * q.w);
    Quat {
        x: q.x / length,
        y: q.y / length,
        z: q.z / length,
        w: q.w / length,
    }
}

// The built-in table, turned: the quaternions, and the axes, which are where they take the pole. The angles stay.
fn turned(turn: Quat) -> [f64; 84] {
    let mut table = built_in();
    for row in table.as_chunks_mut::<7>().0 {
        let [_, _, x, y, z, w, angle] = *row;
        let q = unit(product(turn, Quat { x, y, z, w }));
        let pole = Cartesian(Vec3 {
            x: 0.0,
            y: 0.0,
            z: 1.0,
        });
        let axis = to_spherical(transform_quat(pole, q));
        *row = [axis.theta.0, axis.phi.0, q.x, q.y, q.z, q.w, angle];
    }
    table
}

// Turned by any rotation.
fn turned_anyhow(generator: &mut Generator) -> [f64; 84] {
    turned(Quat {
        x: around(generator.next()),
        y: around(generator.next()),
        z: around(generator.next()),
        w: around(generator.next()),
    })
}

// A row, whatever the number.
fn row(r: u64) -> usize
    ensures { result < 12 }
{
    (r % 12) as usize
}

// Two rows exchanged: the same solid, its origins in another order.
fn exchanged(table: [f64; 84], first: usize, second: usize) -> [f64; 84]
    requires { (first < 12) × (second < 12) }
{
    let mut exchanged = table;
    exchanged.as_chunks_mut::<7>().0.swap(first, second);
    exchanged
}

// With another number in one place of a row.
fn with(table: [f64; 84], row: usize, column: usize, number: f64) -> [f64; 84] {
    let mut other = table;
    if let Some(numbers) = other.as_chunks_mut::<7>().0.get_mut(row)
        && let Some(place) = numbers.get_mut(column)
    {
        *place = number;
    }
    other
}

// Mostly a turned table, or one with rows exchanged. Else the built-in one; one with an axis elsewhere, of whose face no
// triangle is found; or one that open refuses: with 7 for an angle that no face has, with 21 for a number beyond its range, or
// with 22 for a quaternion off unit length. Any float at all in a quaternion gives 21 or 22.
pub(crate) fn draw(generator: &mut Generator) -> [f64; 84] {
    let kind = generator.next() % 16;
    let table = turned_anyhow(generator);
    let first = row(generator.next());
    // each number that is drawn stands for one sort of table
    match kind {
        0 => built_in(),
        1 => with(built_in(), first, 1, 0.25),
        2 => with(built_in(), first, 6, 1.0),
        3 => with(table, first, 6, 1.0),
        4 => with(table, first, 2, value(generator.next())),
        5 => with(table, first, 0, 8.5),
        6 => with(table, first, 5, 0.25),
        7 => exchanged(table, first, row(generator.next())),
        _ => table,
    }
}
