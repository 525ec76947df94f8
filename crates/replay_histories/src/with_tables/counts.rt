// Where a call is counted.
ghost use Rattle.std.specs.Prelude.{◌≡◌, ◌<◌, false};

use replay::outcome::Outcome;
use replay_call::Call;
use replay_tally::Tally;

// The names stand in this order. A call is counted there refused or not; but a refused open is counted one place on, and so is a
// refused companion of show, which takes no table, nor does show.
fn place_of(call: Call, refused: bool) -> usize
    ensures not_refused { refused ≡ false → result < 13 }
    ensures within { result < 14 }
{
    match call {
        Call::Open if refused => 3,
        Call::Open => 2,
        Call::Forward(_, _) => 4,
        Call::Inverse(_, _) => 5,
        Call::Place(_) => 6,
        Call::Unplace(_, _) => 7,
        Call::List(_) => 8,
        Call::Region(_) => 9,
        Call::Step(_) => 10,
        Call::Show(_, _) => 11,
        Call::Ask(_, _) if refused => 13,
        Call::Ask(_, _) => 12,
    }
}

// Counts one more that was compared, and whether it differs.
pub(crate) fn count_outcome(call: Call, given: Outcome, due: Outcome, tally: &mut Tally) {
    tally.count(place_of(call, due.status > 0), given == due);
}
