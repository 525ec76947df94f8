// Where a call is counted.
ghost use Rattle.std.specs.Prelude.{◌<◌};

use replay::outcome::Outcome;
use replay_call::Call;
use replay_tally::Tally;

// Where a call is counted: the names stand in this order. A refused one is counted seven places on.
fn place_of(call: Call) -> u8
    ensures { result < 22 }
{
    match call {
        Call::Forward(_, _) => 5,
        Call::Inverse(_, _) => 6,
        Call::Place(_) => 7,
        Call::Unplace(_, _) => 8,
        Call::Ask(_, _) => 9,
        Call::List(_) => 10,
        Call::Region(_) => 11,
        Call::Open => 19,
        Call::Show(_, _) => 20,
        Call::Step(_) => 21,
    }
}

// Counts one more that was compared, and whether it differs.
pub(crate) fn count_outcome(call: Call, given: Outcome, due: Outcome, tally: &mut Tally) {
    let place = usize::from(place_of(call));
    let place = if due.status > 0 { place + 7 } else { place };
    tally.count(place, given == due);
}
