// Open on buffers of any length, and the rows of a buffer that it has written. None where a buffer has no such place.
use answer::Refusal;
use nearest::origins::BuiltIn;
use replay::outcome::{Outcome, answered, done, three, told};
use replay::record::Record;
use replay_numbers::unlike;
use set::open::open;
use set::sizes::{FACE_STORE, FRAME, SPHERE_STORE};

// Room for a buffer and one number more, so that one too many can be lent, and what lies behind is looked at.
const FRAME_ROOM: usize = FRAME + 1;

const FACE_ROOM: usize = FACE_STORE + 1;

const SPHERE_ROOM: usize = SPHERE_STORE + 1;

// What every buffer holds before open: a number that open never writes. `replay_histories` has one of its own.
pub const FOREIGN: f64 = 7.5;

// The three numbers of a row.
pub fn row(buffer: &[f64], record: &Record) -> Option<Outcome> {
    let [x, y, z] = *buffer.as_chunks::<3>().0.get(record.word(0) as usize)?;
    Some(three(x, y, z))
}

// What open gives on the first numbers of three foreign buffers, as many of each as a record says, and how many numbers it
// changed in each. What lies behind is looked at too.
fn opened(record: &Record) -> Option<(Result<(), Refusal>, [usize; 3])> {
    let before = [FOREIGN; SPHERE_ROOM];
    let mut frame = [FOREIGN; FRAME_ROOM];
    let mut face = [FOREIGN; FACE_ROOM];
    let mut sphere = [FOREIGN; SPHERE_ROOM];
    let given = open(
        BuiltIn,
        frame.get_mut(..record.word(0) as usize)?,
        face.get_mut(..record.word(1) as usize)?,
        sphere.get_mut(..record.word(2) as usize)?,
    );
    let changed = [
        unlike(&frame, &before, 0),
        unlike(&face, &before, 0),
        unlike(&sphere, &before, 0),
    ];
    Some((given, changed))
}

// The refusal, if there is one. An opened set is given nothing else.
pub fn outcome(record: &Record) -> Option<Outcome> {
    let (given, _) = opened(record)?;
    Some(told(given, done))
}

// How many numbers of each buffer open changed.
pub fn changes(record: &Record) -> Option<Outcome> {
    let (_, changed) = opened(record)?;
    Some(answered(changed.map(|count| Some(count as u64))))
}
