// Runs of numbers in a buffer: whether they are there, and whether they are those of another.
#![tactic(auto)]

ghost use Rattle.std.specs.Prelude.{◌≡◌, ◌+◌, ◌≤◌, false, length};
ghost use Rattle.replay_numbers.specs.Alike.{AlikeFrom};

use answer::bits;

// Whether a buffer does not have so many numbers from a place on.
pub fn lacks(buffer: &[f64], at: usize, count: usize) -> bool
    ensures { result ≡ false → at + count ≤ length buffer.now }
{
    buffer.get(at..).is_none_or(|rest| rest.len() < count)
}

// How many numbers of a buffer are not those of another from a place on, bit for bit: none only where each is. Counted by a loop: tried
// `zip`, `filter` and `count`, but the check then leaves open that none differs at any place.
pub fn unlike(buffer: &[f64], wanted: &[f64], at: usize) -> usize
    ensures { result ≡ 0 → AlikeFrom buffer.now wanted.now at }
{
    if lacks(wanted, at, buffer.len()) {
        return 1;
    }
    let mut count: usize = 0;
    for (i, number) in buffer.iter().enumerate() {
        if bits(*number) != bits(wanted[at + i]) {
            count += 1;
        }
    }
    count
}
