// The frame's rows, three numbers each, and the lookup of a vertex.
ghost use Rattle.std.specs.Prelude.{◌≡◌, ◌++◌, ◌+◌, ◌≤◌, length, take, drop};
ghost use Rattle.answer.specs.Answer.{given};
ghost use Rattle.arithmetic.specs.Arith.{ieee};
ghost use Rattle.crs.specs.Frame.{near, find_vertex, add_row, frame_rows};

use crate::candidates::candidate;
use answer::Refusal;
use coordinates::coords::Cartesian;
use coordinates::vec3::Vec3;
use origin::table::SoundTable;
use transforms::vector::{dot, subtract};

// Strictly nearer than 1e-5: the square of the distance is below 1e-10, so that no root is taken.
fn near(point: Cartesian, vertex: Cartesian) -> bool
    ensures { result ≡ near ieee point vertex }
{
    let d = subtract(point, vertex);
    dot(d, d) < 1e-10
}

// The first row of a frame that is near the point, or 8.
#[tactic(auto, unfolding(crate::specs::Frame::find_vertex))]
pub fn get_vertex(frame: &[f64], point: Cartesian) -> Result<Cartesian, Refusal>
    ensures { given result ≡ find_vertex ieee frame.now point }
{
    for &[x, y, z] in frame.as_chunks::<3>().0 {
        let row = Cartesian(Vec3 { x, y, z });
        if near(point, row) {
            return Ok(row);
        }
    }
    Err(Refusal::NoVertex)
}

// The first numbers of `rows`, `used` many, are rows. A point that is near none of them becomes,
// normalised, the next row. How many numbers are used then. Three numbers, each written by its name: an array of them would be made to be
// copied. `rows` is an array with a count beside it, since there is no heap.
fn add(rows: &mut [f64], used: usize, point: Cartesian) -> usize
    requires { used + 3 ≤ length rows.old }
    ensures rows { take result rows.new ≡ add_row ieee (take used rows.old) point }
    ensures behind { drop result rows.new ≡ drop result rows.old }
    ensures used { (used ≤ result) × (result ≤ used + 3) }
{
    let row = transforms::vector::normalize(point);
    if get_vertex(&rows[..used], row).is_ok() {
        return used;
    }
    rows[used] = row.0.x;
    rows[used + 1] = row.0.y;
    rows[used + 2] = row.0.z;
    used + 3
}

// Writes the rows of a table's frame to the front of `rows`, which has room for every candidate: an array, since there is no heap. How many
// numbers they are.
pub fn build_frame(table: SoundTable<'_>, rows: &mut [f64; 396]) -> usize
    ensures used { result ≡ length (frame_rows ieee table.entry.rows.now) }
    ensures rows { rows.new ≡ frame_rows ieee table.entry.rows.now ++ drop result rows.old }
{
    let mut used: usize = 0;
    for k in 0..132 {
        used = add(rows, used, candidate(table, k));
    }
    used
}
