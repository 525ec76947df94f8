// A step of the panel on a set, with the built-in table or one that is handed over; the registers are `registers`.
#![tactic(auto)]

mod registers;

ghost use Rattle.std.specs.Prelude.{Some};
ghost use Rattle.answer.specs.Given.{answered};
ghost use Rattle.answer.specs.Answer.{given};
ghost use Rattle.arithmetic.specs.Arith.{ieee};
ghost use Rattle.set.specs.Lent.{SameBuffers, between};
ghost use Rattle.strike_records.specs.Writes.{lent_bytes};
ghost use Rattle.panel.specs.Step.{command_in, carried_out, step_on};
ghost use Rattle.panel.specs.Results.{Carries, Steps};

use crate::registers::{asked, write_interrupt, write_lon_lat, write_place, write_refusal};
use answer::Refusal;
use calls::{place, unplace};
use coordinates::coords::Face;
use coordinates::lonlat::LonLat;
use nearest::origins::Origins;
use panel::registers::BLOCK;
use set::checks::check_with;
use set::set::Set;
use strike_records::record::Request;

// Command 1: place. It and `carry_unplace` are a match of two lines each: a trait of what is written, with its clause in each impl,
// is longer than both.
fn carry_place<O: Origins>(origins: &O, set: &mut Set<'_>, lonlat: LonLat, block: &mut [u8; BLOCK])
    ensures same { SameBuffers set.old set.new }
    ensures carries { Carries (between set.old set.new) (lent_bytes block)
        (λ s b. carried_out ieee (O.table origins.now) s b (answered (Some (Request.Place lonlat)))) }
{
    match place(*origins, set, lonlat) {
        Ok(p) => write_place(block, p),
        Err(refusal) => write_refusal(block, refusal.number()),
    }
}

// Command 2: unplace.
fn carry_unplace<O: Origins>(
    origins: &O,
    set: &mut Set<'_>,
    point: Face,
    origin: u8,
    block: &mut [u8; BLOCK],
)
    ensures same { SameBuffers set.old set.new }
    ensures carries { Carries (between set.old set.new) (lent_bytes block)
        (λ s b. carried_out ieee (O.table origins.now) s b (answered (Some (Request.Unplace point origin)))) }
{
    match unplace(*origins, set, point, origin) {
        Ok(l) => write_lon_lat(block, l),
        Err(refusal) => write_refusal(block, refusal.number()),
    }
}

// The command, whatever it is.
fn carry_out<O: Origins>(origins: &O, set: &mut Set<'_>, block: &mut [u8; BLOCK])
    ensures same { SameBuffers set.old set.new }
    ensures carries { Carries (between set.old set.new) (lent_bytes block)
        (λ s b. carried_out ieee (O.table origins.now) s b (command_in ieee b)) }
{
    match asked(block) {
        Ok(None) => write_interrupt(block),
        Ok(Some(Request::Place(p))) => carry_place(origins, set, p, block),
        Ok(Some(Request::Unplace(f, o))) => carry_unplace(origins, set, f, o, block),
        Err(unknown) => write_refusal(block, unknown.number()),
    }
}

// One step: carries out the command in the block, and writes there what it comes to. 23, 1, 2, 3, and 21 and 22 of a table
// that is handed over, refuse the step itself, and then nothing is written.
pub fn step<O: Origins>(origins: O, set: &mut Set<'_>, block: &mut [u8]) -> Result<(), Refusal>
    ensures same { SameBuffers set.old set.new }
    ensures steps { Steps (between set.old set.new) (lent_bytes block) (given result) (step_on ieee (O.table origins)) }
{
    let Some(registers) = block.as_mut_array::<BLOCK>() else {
        return Err(Refusal::BlockLength);
    };
    check_with(&origins, set.view())?;
    carry_out(&origins, set, registers);
    Ok(())
}
