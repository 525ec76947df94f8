// A few positions, made of a call's one.
ghost use Rattle.std.specs.Prelude.{◌≡◌, ◌≤◌};
ghost use Rattle.arithmetic.specs.Arith.{ieee};
ghost use Rattle.replay_call.specs.Made.{further as Made·further, corner as Made·corner, nearby};

use coordinates::base::Degrees;
use coordinates::lonlat::LonLat;

// How many positions near a first one, how far they lie apart, and how many results or points are lent with them: the numbers that
// a call is drawn by, from which `positions` makes the list.
#[derive(Clone, Copy)]
pub struct Nearby {
    pub start: LonLat,
    pub stride: LonLat,
    pub count: u8,
    pub room: u8,
}

// The position that lies so far on.
#[tactic(auto, unfolding(crate::specs::Made::further))]
fn further(p: LonLat, by: LonLat) -> LonLat
    ensures { result ≡ Made·further ieee p by }
{
    LonLat {
        longitude: Degrees(p.longitude.0 + by.longitude.0),
        latitude: Degrees(p.latitude.0 + by.latitude.0),
    }
}

// The longitude of one position with the latitude of another.
fn corner(p: LonLat, q: LonLat) -> LonLat
    ensures { result ≡ Made·corner p q }
{
    LonLat {
        longitude: p.longitude,
        latitude: q.latitude,
    }
}

// So many positions: eight about the first, and the first again for all behind them.
#[tactic(auto, unfolding(crate::specs::Made::nearby))]
pub fn positions<const N: usize>(p: LonLat, by: LonLat) -> [LonLat; N]
    requires { 8 ≤ N }
    ensures { result ≡ nearby ieee N p by }
{
    let q = further(p, by);
    let r = further(q, by);
    let mut positions = [p; N];
    positions[..8].copy_from_slice(&[
        p,
        corner(q, p),
        q,
        corner(p, q),
        r,
        corner(r, q),
        corner(q, r),
        corner(r, p),
    ]);
    positions
}
