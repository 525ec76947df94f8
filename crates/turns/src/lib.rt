// Fair turns: the numbers of one channel. A turn's calls are handed out in crate `fair_turns`.
#![tactic(auto)]

ghost use Rattle.std.specs.Prelude.{◌≡◌};
ghost use Rattle.turns.specs.Turns.{still_short};

// 1 for a channel with less than its wish, else 0.
pub fn still_short(wish: u16, grant: u16) -> u16
    ensures { result ≡ still_short wish grant }
{
    u16::from(grant < wish)
}
