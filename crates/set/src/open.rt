// Open as a call, with the built-in table or one that is handed over.
ghost use Rattle.arithmetic.specs.Arith.{ieee};
ghost use Rattle.set.specs.Outcome.{lent_mut, Leaves};
ghost use Rattle.answer.specs.Answer.{given};
ghost use Rattle.set.specs.Open.{open_on};

use crate::checks::check_with;
use crate::new_set::open_checked;
use crate::set::SetRef;
use answer::Refusal;
use nearest::origins::Origins;

// Opens a set, or refuses with 1, 2, 3, 21, 22 or 7. The frame is written here alone, and every other call has it to be read: so
// the buffers are lent one by one, and are no `Set`.
pub fn open<O: Origins>(
    origins: O,
    frame: &mut [f64],
    face_store: &mut [f64],
    sphere_store: &mut [f64],
) -> Result<(), Refusal>
    ensures { Leaves (lent_mut frame face_store sphere_store) (given result) (open_on ieee (O.table origins)) }
{
    check_with(
        &origins,
        SetRef {
            frame,
            face_store,
            sphere_store,
        },
    )?;
    open_checked(&origins.rows(), frame, face_store, sphere_store)
}
