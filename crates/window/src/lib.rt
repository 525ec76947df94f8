// Paper 5: a window of strikes. It keeps those whose minute is less than 180 behind that of the last one accepted, at most
// 4,096, in a ring, and counts them by origin. `add_to_parts` is an addition, on the arrays and a small state; `add` is that to
// a window which is lent. No function has a `requires`: whatever a window holds, an addition ends.
#![tactic(auto)]

mod ring;

ghost use Rattle.std.specs.Prelude.{◌≡◌, Err};
ghost use Rattle.window.specs.Window.{window_of, empty_window};
ghost use Rattle.window.specs.Addition.{AddedTo};

use crate::ring::{ORIGINS, PLACES, lower_counts, raise_count, remaining};
use answer::Refusal;

// The most strikes that a window keeps: one in each place of the ring.
const MOST: u32 = PLACES as u32;

// The last of the origins' ids.
const LAST_ORIGIN: u8 = ORIGINS as u8 - 1;

// What a window knows beside its strikes and counts: the place of the oldest strike, how many are kept, and the minute of
// the last one accepted.
#[repr(C)]
#[derive(Clone, Copy)]
pub struct State {
    pub first: u32,
    pub kept: u32,
    pub last: u32,
}

// The kept strikes lie in the first two arrays from place `first` on, oldest first, and place 0 follows place 4,095.
// `counts` has how many of them each origin has. C reads the struct as it lies: so two arrays side by side, and no array of
// strikes.
#[repr(C)]
#[derive(Drop)]
pub struct Window {
    pub minutes: [u32; PLACES],
    pub origins: [u8; PLACES],
    pub counts: [u32; ORIGINS],
    pub state: State,
}

impl Window {
    // A new window, which is empty.
    pub fn new() -> Window
        ensures { result ≡ empty_window }
    {
        Window {
            minutes: [0; PLACES],
            origins: [0; PLACES],
            counts: [0; ORIGINS],
            state: State {
                first: 0,
                kept: 0,
                last: 0,
            },
        }
    }

    // One addition: strikes 180 minutes or more behind it are dropped, and it is kept; or it is refused with 4, 17 or 18, and
    // the window is as it was. Nothing is written before the last refusal was tried, and no array is copied.
    pub fn add(&mut self, minute: u32, origin: u8) -> Result<(), Refusal>
        ensures { AddedTo self.old minute origin result self.new }
    {
        let step = add_to_parts(
            &mut self.minutes,
            &mut self.origins,
            &mut self.counts,
            self.state,
            minute,
            origin,
        );
        self.state = step.state;
        step.answer
    }
}

// The answer of an addition, and the state after it.
#[derive(Clone, Copy)]
pub struct Step {
    pub answer: Result<(), Refusal>,
    pub state: State,
}

// A refused addition leaves the state as it was.
fn refused(refusal: Refusal, state: State) -> Step
    ensures { result ≡ record { answer = Err refusal; state = state } }
{
    Step {
        answer: Err(refusal),
        state,
    }
}

// One addition, on the parts of a window, which the caller keeps. Nothing is written before the last refusal was tried.
pub fn add_to_parts(
    minutes: &mut [u32; PLACES],
    origins: &mut [u8; PLACES],
    counts: &mut [u32; ORIGINS],
    state: State,
    minute: u32,
    origin: u8,
) -> Step
    ensures { AddedTo (window_of minutes.old origins.old counts.old state) minute origin
        result.answer (window_of minutes.new origins.new counts.new result.state) }
{
    if origin > LAST_ORIGIN {
        return refused(Refusal::UnknownOrigin, state);
    }
    if minute < state.last {
        return refused(Refusal::EarlierMinute, state);
    }
    let first = state.first;
    let n = state.kept.min(MOST);
    let k = remaining(minutes, minute, n, first);
    if k >= MOST {
        return refused(Refusal::WindowFull, state);
    }
    let gone = n.saturating_sub(k);
    lower_counts(origins, counts, gone, first);
    raise_count(counts, origin);
    let oldest = ((first as usize) + (gone as usize)) % PLACES;
    let at = (oldest + (k as usize)) % PLACES;
    minutes[at] = minute;
    origins[at] = origin;
    Step {
        answer: Ok(()),
        state: State {
            first: oldest as u32,
            kept: k + 1,
            last: minute,
        },
    }
}
