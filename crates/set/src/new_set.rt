// A new set, where all checks have passed: the frame written, and both stores emptied.
ghost use Rattle.std.specs.Prelude.{◌≡◌};
ghost use Rattle.arithmetic.specs.Arith.{ieee};
ghost use Rattle.answer.specs.Given.{passed};
ghost use Rattle.answer.specs.Answer.{given};
ghost use Rattle.set.specs.Checks.{check_with};
ghost use Rattle.set.specs.Outcome.{lent_mut, Leaves};
ghost use Rattle.set.specs.Set.{set_of};
ghost use Rattle.set.specs.Open.{open_on};

use crate::sizes::FRAME;
use answer::Refusal;
use crs::frame::build_frame;
use origin::table::SoundTable;

// Opens a set where all checks have passed: writes the frame of the table and empties both stores, or
// refuses with 7. The frame is built apart, so that a refusal leaves what was lent as it was. Since it is written here, the
// buffers are lent one by one and are no `Set`, as in open.
pub fn open_checked(
    table: &[f64; 84],
    frame: &mut [f64],
    face_store: &mut [f64],
    sphere_store: &mut [f64],
) -> Result<(), Refusal>
    requires { check_with ieee table.now (set_of frame.old face_store.old sphere_store.old) ≡ passed }
    ensures { Leaves (lent_mut frame face_store sphere_store) (given result) (open_on ieee table.now) }
{
    // room for every candidate: there is no heap
    let mut rows = [0.0; 396];
    let sound = SoundTable { rows: table };
    let used = build_frame(sound, &mut rows);
    if used != FRAME {
        return Err(Refusal::FrameRows);
    }
    frame.copy_from_slice(&rows[..FRAME]);
    face_store.fill(0.0);
    sphere_store.fill(0.0);
    Ok(())
}
