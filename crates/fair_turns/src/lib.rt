// Fair turns: a turn's place calls handed out to sixteen channels by what each wishes for.
#![tactic(auto)]

ghost use Rattle.std.specs.Prelude.{◌≡◌, ◌≤◌, length};
ghost use Rattle.answer.specs.Answer.{given};
ghost use Rattle.turns.specs.Turns.{CALLS as the_calls, CHANNELS as the_channels, sum, capped, round, turns_given, grants_after};
ghost use Rattle.turns.specs.Levels.{short_of, LastLevel};

use answer::Refusal;
use turns::still_short;

// The channels of a turn.
pub const CHANNELS: usize = 16;

// The place calls of a turn.
pub const CALLS: u16 = 256;

// What a channel gets first, if it wishes for so many.
pub const SHARE: u16 = 16;

// The calls handed out when each channel has the smaller of its wish and the level.
fn handed_out(wishes: &[u16], level: u16) -> u16
    requires { sum (capped level wishes.now) ≤ the_calls }
    ensures { result ≡ sum (capped level wishes.now) }
{
    wishes.iter().map(|wish| (*wish).min(level)).sum()
}

// How many channels wish for more than the level. That there are 16 wishes is asked of a slice, here and below, and is no array's: the call is
// lent slices, and tests their lengths in its order.
fn short_of(wishes: &[u16], level: u16) -> u16
    requires { length wishes.now ≡ the_channels }
    ensures { result ≡ short_of level wishes.now }
{
    wishes.iter().map(|wish| still_short(*wish, level)).sum()
}

// The level at which whole rounds end. As many rounds as what remains allows are taken at once, so
// that each time a channel is no longer short or the last whole round is over.
fn last_level(wishes: &[u16]) -> u16
    requires { length wishes.now ≡ the_channels }
    ensures { LastLevel wishes.now result }
{
    let mut level = SHARE;
    let mut left = CALLS - handed_out(wishes, level);
    let mut short = short_of(wishes, level);
    while 0 < short && short <= left {
        level += left / short;
        left = CALLS - handed_out(wishes, level);
        short = short_of(wishes, level);
    }
    level
}

// Each channel gets the smaller of its wish and the level; then one round hands out so many calls. The grants are written by
// an index: what a zip with `iter_mut` has written, no proof knows.
fn last_round(wishes: &[u16], level: u16, calls: u16, grants: &mut [u16])
    requires { length grants.old ≡ length wishes.now }
    ensures { grants.new ≡ round calls wishes.now (capped level wishes.now) }
{
    let mut left = calls;
    for (i, wish) in wishes.iter().enumerate() {
        let grant = (*wish).min(level);
        let one = left.min(still_short(*wish, grant));
        grants[i] = grant + one;
        left -= one;
    }
}

// Hands out a turn's calls: first the smaller of its wish and 16 to each channel, then what remains
// singly in channel order, round after round, to those still short. Refuses with 24 unless there are
// 16 wishes, and then with 25 unless there are 16 grants; the grants are then as they were.
pub fn fair_turns(wishes: &[u16], grants: &mut [u16]) -> Result<(), Refusal>
    ensures answer { given result ≡ turns_given wishes.now grants.old }
    ensures grants { grants.new
        ≡ grants_after (turns_given wishes.now grants.old) wishes.now grants.old }
{
    if wishes.len() != CHANNELS {
        return Err(Refusal::WishCount);
    }
    if grants.len() != CHANNELS {
        return Err(Refusal::GrantCount);
    }
    let level = last_level(wishes);
    let left = CALLS - handed_out(wishes, level);
    last_round(wishes, level, left, grants);
    Ok(())
}
