// A record's call on a set with notes, for both lists: forward, inverse, place, unplace or open, with the built-in table or
// with one that is handed over.
ghost use Rattle.std.specs.Prelude.{◌≡◌, slice_index, take, IfSome};
ghost use Rattle.answer.specs.Given.{status};
ghost use Rattle.arithmetic.specs.Arith.{ieee};
ghost use Rattle.replay.specs.Record.{word_at};
ghost use Rattle.replay_calls.specs.declared.asked.Call.TheVariants.{Open};
ghost use Rattle.set.specs.Open.{open_given};
ghost use Rattle.set.specs.Set.{set_of};

use crate::asked::{Asked, Call, OPEN, origin};
use calls::{forward, inverse, place, unplace};
use nearest::origins::Origins;
use replay::outcome::{Outcome, done, told};
use replay::record::Record;
use replay_arguments::{answers, face, lon_lat, spherical};
use replay_sets::noted::{Lent, Set};
use set::open::open;

// The call, at a record's arguments. None where a buffer has fewer numbers than are lent.
fn made<O: Origins>(asked: Asked, origins: O, set: &mut Set, record: &Record) -> Option<Outcome>
    ensures { asked.call ≡ Open → IfSome result (λ outcome. outcome.status ≡ status (open_given ieee (O.table origins) (set_of
        (take (slice_index asked.lengths 0) set.old.frame)
        (take (slice_index asked.lengths 1) set.old.face)
        (take (slice_index asked.lengths 2) set.old.sphere)))) }
{
    let lengths = asked.lengths;
    let id = origin(record);
    Some(match asked.call {
        Call::Open => {
            let Lent {
                frame,
                face,
                sphere,
            } = set.lend(lengths)?;
            told(open(origins, frame, face, sphere), done)
        }
        Call::Forward => told(
            forward(
                origins,
                &mut set.lend_set(lengths)?,
                spherical(record, 0),
                id,
            ),
            answers::face,
        ),
        Call::Inverse => told(
            inverse(origins, &mut set.lend_set(lengths)?, face(record, 0), id),
            answers::spherical,
        ),
        Call::Place => told(
            place(origins, &mut set.lend_set(lengths)?, lon_lat(record)),
            |place| { answers::placed(place.origin, place.face) },
        ),
        Call::Unplace => told(
            unplace(origins, &mut set.lend_set(lengths)?, face(record, 0), id),
            answers::lon_lat,
        ),
    })
}

// A record's call on the first numbers of the three buffers, as many as it is lent. Before an open that should answer, it is
// noted what it should leave: the frame that the notes have from a place on. None where a place that it names is not there. Of an open
// it is said what it comes to. Of the other calls nothing is, since their outcomes are what the programs compare with the stored ones.
pub fn called<O: Origins>(
    origins: O,
    set: &mut Set,
    frame_at: Option<usize>,
    record: &Record,
) -> Option<Outcome>
    ensures { «record».now.head.number ≡ 5 → IfSome result (λ outcome. outcome.status ≡ status (open_given ieee (O.table origins) (set_of
        (take (word_at «record».now.words 0) set.old.frame)
        (take (word_at «record».now.words 1) set.old.face)
        (take (word_at «record».now.words 2) set.old.sphere)))) }
{
    if record.head.number == OPEN && record.head.status == 0 {
        set.opened(frame_at)?;
    }
    made(Asked::of(record), origins, set, record)
}
