// Open and nearest with a table of origins as C functions. A table is a pointer and a length in C: one that isn't 84 numbers long is
// refused with 20 before anything else is tried, and the 84 numbers are then handed to the call by value. C has a function for each
// table: its interface is fixed.
ghost use Rattle.std.specs.Prelude.{◌≡◌};
ghost use Rattle.arithmetic.specs.Arith.{ieee};
ghost use Rattle.nearest.specs.Calls.{nearest_given};
ghost use Rattle.set.specs.Outcome.{lent_mut, Becomes};
ghost use Rattle.set.specs.Open.{open_on};
ghost use Rattle.answer.specs.Given.{status};
ghost use Rattle.border.specs.Returns.{Returns, contents};
ghost use Rattle.border.specs.Calls.{id as Calls·id, spherical};
ghost use Rattle.border.specs.Tables.{with_table, with_table_on};

use border::answers::put;
use border::arguments;
use border::rows::rows_or_20;

// Open with a table: writes the frame and fills both stores with 0.0.
#[unsafe(no_mangle)]
pub extern "C" fn a5_open_with(
    table: &[f64],
    frame: &mut [f64],
    face_store: &mut [f64],
    sphere_store: &mut [f64],
) -> u8
    ensures answer { result ≡ status (with_table_on (open_on ieee) table.now (lent_mut frame face_store sphere_store).entry).answer }
    ensures left { Becomes (lent_mut frame face_store sphere_store) (λ s. (with_table_on (open_on ieee) table.now s).set) }
{
    let rows = match rows_or_20(table) {
        Ok(rows) => rows,
        Err(refusal) => return refusal.number(),
    };
    let opened = set::open::open(rows, frame, face_store, sphere_store);
    answer::status(opened)
}

// Nearest with a table: the number of its origin nearest to a position, in radians, goes to id.
#[unsafe(no_mangle)]
pub extern "C" fn a5_nearest_with(table: &[f64], theta: f64, phi: f64, id: &mut u8) -> u8
    ensures { Returns (with_table (λ t. nearest_given ieee t (spherical theta phi)) table.now) result (contents id) Calls·id }
{
    let rows = match rows_or_20(table) {
        Ok(rows) => rows,
        Err(refusal) => return refusal.number(),
    };
    let nearest = nearest::call::nearest(rows, arguments::spherical(theta, phi));
    put(nearest, id)
}
