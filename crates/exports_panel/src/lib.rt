// A step of the caption panel as C functions: with the built-in table, and with a table, which is a pointer and a length in C. What
// crate exports says of pointers, lengths and tables holds here too; all go into one library. C has a function for each table, and the
// three buffers one by one: its interface is fixed.
#![tactic(auto, using(crate::proofs::Panel::tables))]

ghost use Rattle.arithmetic.specs.Arith.{ieee};
ghost use Rattle.origin.specs.Origins.{ORIGINS};
ghost use Rattle.set.specs.Outcome.{lent};
ghost use Rattle.strike_records.specs.Writes.{lent_bytes};
ghost use Rattle.panel.specs.Step.{step_on};
ghost use Rattle.exports_panel.specs.Panel.{StepsInC, step_with};

use border::rows::rows_or_20;
use nearest::origins::BuiltIn;
use set::set::Set;

// One step: carries out the command in the block, and writes there what it comes to.
#[unsafe(no_mangle)]
pub extern "C" fn a5_panel_step(
    frame: &[f64],
    face_store: &mut [f64],
    sphere_store: &mut [f64],
    block: &mut [u8],
) -> u8
    ensures { StepsInC (lent frame face_store sphere_store) (lent_bytes block) result (step_on ieee ORIGINS) }
{
    let mut set = Set {
        frame,
        face_store,
        sphere_store,
    };
    let stepped = panel_step::step(BuiltIn, &mut set, block);
    answer::status(stepped)
}

// One step with a table: one that isn't 84 numbers long is refused with 20 before anything else is tried.
#[unsafe(no_mangle)]
pub extern "C" fn a5_panel_step_with(
    table: &[f64],
    frame: &[f64],
    face_store: &mut [f64],
    sphere_store: &mut [f64],
    block: &mut [u8],
) -> u8
    ensures { StepsInC (lent frame face_store sphere_store) (lent_bytes block) result (step_with ieee table.now) }
{
    let rows = match rows_or_20(table) {
        Ok(rows) => rows,
        Err(refusal) => return refusal.number(),
    };
    let mut set = Set {
        frame,
        face_store,
        sphere_store,
    };
    let stepped = panel_step::step(rows, &mut set, block);
    answer::status(stepped)
}
