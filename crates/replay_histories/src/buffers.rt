// A set's buffers: that on which a list is run, and that which gathers what is due after it.
use answer::{Refusal, bits};
use nearest::origins::Origins;
use replay::outcome::Outcome;
use replay_call::Call;
use replay_numbers::unlike;
use replay_perform::perform;
use set::open::open;
use set::sizes::{FACE_STORE, FRAME, SPHERE_STORE};

// What a set holds before open: a number that is no mark, and that no call writes.
pub const FOREIGN: f64 = 7.5;

// The numbers of a frame and of both stores.
#[derive(Drop)]
pub struct Set {
    pub frame: [f64; FRAME],
    pub face: [f64; FACE_STORE],
    pub sphere: [f64; SPHERE_STORE],
}

impl Set {
    // A set that holds one number everywhere.
    pub fn filled_with(number: f64) -> Set {
        Set {
            frame: [number; FRAME],
            face: [number; FACE_STORE],
            sphere: [number; SPHERE_STORE],
        }
    }

    // Opens it.
    pub fn open<O: Origins>(&mut self, origins: O) -> Result<(), Refusal> {
        open(origins, &mut self.frame, &mut self.face, &mut self.sphere)
    }

    // A call on it.
    pub fn perform<O: Origins>(&mut self, origins: O, call: Call) -> Outcome {
        perform(
            origins,
            &mut self.frame,
            &mut self.face,
            &mut self.sphere,
            call,
        )
    }

    // Takes over what one call has written into the stores of a set that was newly opened.
    pub fn gather(&mut self, new: &Set) {
        gather(&mut self.face, &new.face);
        gather(&mut self.sphere, &new.sphere);
    }

    // An answered open leaves 0.0 everywhere in the stores.
    pub fn clear_stores(&mut self) {
        self.face.fill(0.0);
        self.sphere.fill(0.0);
    }

    // Whether every number is that of a second set. By their bits: `==` tells no zero from the other, and no NaN equals itself.
    pub fn is(&self, due: &Set) -> bool {
        unlike(&self.frame, &due.frame, 0) == 0
            && unlike(&self.face, &due.face, 0) == 0
            && unlike(&self.sphere, &due.sphere, 0) == 0
    }
}

// A number that open left is +0.0, and any other was written.
fn gather(store: &mut [f64], new: &[f64]) {
    for (number, written) in store.iter_mut().zip(new) {
        if bits(*written) != 0 {
            *number = *written;
        }
    }
}
