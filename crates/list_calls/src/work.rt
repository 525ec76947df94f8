// The region call but for the points that are lent: its refusals, the survey, and the stores, which are written only where it answers.
ghost use Rattle.std.specs.Prelude.{◌≡◌, length};
ghost use Rattle.answer.specs.Answer.{given};
ghost use Rattle.arithmetic.specs.Arith.{ieee};
ghost use Rattle.set.specs.Lent.{seen, held, SameBuffers};
ghost use Rattle.place_list.specs.Lists.{placed_in_turn};
ghost use Rattle.region_work.specs.Region.{check_positions};
ghost use Rattle.region_work.specs.Parts.{check_region, judged, outlined, region_worked};

use crate::results::check_counts;
use crate::survey::survey;
use answer::Refusal;
use calls::place;
use coordinates::lonlat::LonLat;
use nearest::origins::Origins;
use region_work::region::{Outline, Region};
use region_work::seen::Seen;
use set::checks::check_with;
use set::set::{Set, SetRef};

// 15: there is a position, and there are no more than 256.
#[tactic(auto, unfolding(region_work::specs::Region::check_positions))]
fn check_positions(n: usize) -> Result<(), Refusal>
    ensures { given result ≡ check_positions n }
{
    if n == 0 || 256 < n {
        return Err(Refusal::PositionCount);
    }
    Ok(())
}

// The refusals that no position is needed for: 1, 2, 3, 21, 22, 15, 14.
#[tactic(auto, unfolding(region_work::specs::Parts::check_region))]
fn check_region<O: Origins>(origins: &O, set: SetRef<'_>, n: usize, m: usize) -> Result<(), Refusal>
    ensures { given result ≡ check_region ieee (O.table origins.now) (seen set.entry) n m }
{
    check_with(origins, set)?;
    check_positions(n)?;
    check_counts(n, m)
}

// 16, or the answer.
fn judge(seen: Seen) -> Result<Region, Refusal>
    ensures { given result ≡ judged seen }
{
    if seen.differ {
        return Err(Refusal::OriginsDiffer);
    }
    Ok(Region {
        origin: seen.origin,
        bounds: seen.bounds,
    })
}

// Places the positions in turn. What place answers was looked at before.
#[tactic(auto, using(region_work::proofs::Loops::keep_goes))]
fn keep<O: Origins>(origins: &O, set: &mut Set<'_>, positions: &[LonLat])
    ensures same { SameBuffers set.old set.new }
    ensures left { held set.new
        ≡ (placed_in_turn ieee (O.table origins.now) (held set.old) positions.now).set }
{
    for position in positions {
        let _ = place(*origins, set, *position);
    }
}

// A region: the positions are the outline, and m point places are lent.
pub fn work<O: Origins>(
    origins: &O,
    set: &mut Set<'_>,
    positions: &[LonLat],
    m: usize,
) -> Result<Outline, Refusal>
    ensures same { SameBuffers set.old set.new }
    ensures worked { outlined (given result) (length positions.now) (held set.new)
        ≡ region_worked ieee (O.table origins.now) (held set.old) positions.now (length positions.now) m }
{
    let view = set.view();
    check_region(origins, view, positions.len(), m)?;
    let found = survey(origins, view, positions)?;
    let seen = found.seen;
    let region = judge(seen)?;
    // where no slot that they use is empty, placing them would write nothing
    if seen.pending {
        keep(origins, set, positions);
    }
    let points = found.points;
    Ok(Outline { region, points })
}
