// Paper 5: strikes in a ring. They lie in arrays of 4,096 places from one place on, oldest first, and place 0 follows place
// 4,095. Here those that are too old are counted, and the twelve counts lowered and raised.
// They are arrays and not std's VecDeque: a window has no heap, and C reads it as it lies.
ghost use Rattle.std.specs.Prelude.{◌≡◌, ◌%◌};
ghost use Rattle.window.specs.Ring.{lower, raise, remain, lowered};

// The places of the ring: a window has at most as many strikes.
pub const PLACES: usize = 4096;

// A strike that is as many minutes or more behind the last one is dropped.
const SPAN: u32 = 180;

// The origins, each of which has a count.
pub const ORIGINS: usize = 12;

// Counts one less for an origin. It and `raise_count` share a test alone: one function that takes the
// step as a closure, with its clauses, is longer than both.
#[tactic(auto, unfolding(crate::specs::Ring::lower))]
fn lower_count(counts: &mut [u32; ORIGINS], origin: u8)
    ensures { counts.new ≡ lower counts.old origin }
{
    let k = usize::from(origin);
    if k < ORIGINS {
        counts[k] = counts[k].saturating_sub(1);
    }
}

// Counts one more for an origin.
#[tactic(auto, unfolding(crate::specs::Ring::raise))]
pub fn raise_count(counts: &mut [u32; ORIGINS], origin: u8)
    ensures { counts.new ≡ raise counts.old origin }
{
    let k = usize::from(origin);
    if k < ORIGINS {
        counts[k] = counts[k].wrapping_add(1);
    }
}

// How many of n strikes from a place on are left when, from the oldest on, those are dropped that are 180 minutes or more
// behind `minute`. In both loops the place is counted beside them: it goes from a place to the next, as the definitions do.
pub fn remaining(minutes: &[u32; PLACES], minute: u32, n: u32, from: u32) -> u32
    ensures { result ≡ remain minutes.now minute n (from % 4096) }
{
    let mut at = (from as usize) % PLACES;
    for gone in 0..n {
        if minute.saturating_sub(minutes[at]) < SPAN {
            return n - gone;
        }
        at = (at + 1) % PLACES;
    }
    0
}

// Counts one less for the origin of each of n strikes from a place on.
pub fn lower_counts(origins: &[u8; PLACES], counts: &mut [u32; ORIGINS], n: u32, from: u32)
    ensures { counts.new ≡ lowered origins.now n (from % 4096) counts.old }
{
    let mut at = (from as usize) % PLACES;
    for _gone in 0..n {
        lower_count(counts, origins[at]);
        at = (at + 1) % PLACES;
    }
}
