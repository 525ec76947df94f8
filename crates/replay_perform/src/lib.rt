// What a call comes to on a set, with the built-in table or one that is handed over.
#![tactic(auto)]

mod lists;
mod regions;
mod steps;

ghost use Rattle.set.specs.Outcome.{lent_mut, Becomes};
ghost use Rattle.replay_call.specs.Performed.{performed};

use crate::lists::listed;
use crate::regions::outlined;
use crate::steps::stepped;
use calls::{forward, inverse, place, unplace};
use nearest::origins::Origins;
use replay::outcome::{Outcome, done, told};
use replay_arguments::answers;
use replay_call::{Call, part, state};
use set::open::open;
use set::set::Set;
use stores::show::{show, slot_state};

// The call on a set, with the table that is handed over, or with the built-in one: open brings it, and every other call that takes
// one takes it. It leaves the set as the theorem about every list has it.
#[tactic(auto, using(histories::proofs::Left::alone_left))]
pub fn perform<O: Origins>(
    origins: O,
    frame: &mut [f64],
    face_store: &mut [f64],
    sphere_store: &mut [f64],
    call: Call,
) -> Outcome
    ensures { Becomes (lent_mut frame face_store sphere_store) (λ s. performed (O.table origins) s call) }
{
    // Open, which writes the frame, takes the buffers one by one, and show and its companion read the stores alone.
    let mut set = Set {
        frame,
        face_store,
        sphere_store,
    };
    match call {
        Call::Open => told(open(origins, frame, face_store, sphere_store), done),
        Call::Forward(p, o) => told(forward(origins, &mut set, p, o), answers::face),
        Call::Inverse(f, o) => told(inverse(origins, &mut set, f, o), answers::spherical),
        Call::Place(p) => told(place(origins, &mut set, p), |place| {
            answers::placed(place.origin, place.face)
        }),
        Call::Unplace(f, o) => told(unplace(origins, &mut set, f, o), answers::lon_lat),
        Call::List(near) => listed(origins, &mut set, near),
        Call::Region(near) => outlined(origins, &mut set, near),
        Call::Step(registers) => stepped(origins, &mut set, registers),
        Call::Show(kind, slot) => part(show(face_store, sphere_store, kind, slot)),
        Call::Ask(kind, slot) => told(slot_state(face_store, sphere_store, kind, slot), state),
    }
}
