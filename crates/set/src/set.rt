// A set is three lent buffers: the frame, the face store and the sphere store.
ghost use Rattle.std.specs.Prelude.{◌≡◌};
ghost use Rattle.answer.specs.Answer.{given};
ghost use Rattle.set.specs.Set.{check_set};
ghost use Rattle.set.specs.Lent.{seen, held};

use crate::sizes::{FACE_STORE, FRAME, SPHERE_STORE};
use answer::Refusal;

// A set that is lent to be read.
#[derive(Clone, Copy)]
pub struct SetRef<'a> {
    pub frame: &'a [f64],
    pub face_store: &'a [f64],
    pub sphere_store: &'a [f64],
}

// A set that is lent to a call: the frame to be read, and the stores to be written. It is lent as `&mut Set`, whose buffers could be exchanged
// for others: so each contract says that they are the same. Handed over by value, a set would be made again for each call.
#[derive(Drop)]
pub struct Set<'a> {
    pub frame: &'a [f64],
    pub face_store: &'a mut [f64],
    pub sphere_store: &'a mut [f64],
}

impl SetRef<'_> {
    // 1, 2, 3: the lengths of the three buffers.
    pub fn check(self) -> Result<(), Refusal>
        ensures { given result ≡ check_set (seen self.entry) }
    {
        if self.frame.len() != FRAME {
            return Err(Refusal::FrameLength);
        }
        if self.face_store.len() != FACE_STORE {
            return Err(Refusal::FaceStoreLength);
        }
        if self.sphere_store.len() != SPHERE_STORE {
            return Err(Refusal::SphereStoreLength);
        }
        Ok(())
    }
}

impl Set<'_> {
    // The set as it stands, to be read.
    pub fn view(&self) -> SetRef<'_>
        ensures { seen result ≡ held self.now }
    {
        SetRef {
            frame: self.frame,
            face_store: self.face_store,
            sphere_store: self.sphere_store,
        }
    }
}
