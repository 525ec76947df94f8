// Radar lists in one go (document 02, Paper 1): the call `place_list`, with the built-in table or one that is handed over. Every
// position of a list is placed, from first to last, and its result filled. Functions on one position and on
// lengths do it; `place_list`, which is lent the positions and the results, is a thin loop over them. Crate place_list has the definitions.
// And the other call on positions, `region::region` (Paper 4), with `work`, `survey` and `copies` beneath it; its definitions are crate
// region_work's.
#![tactic(auto)]

mod copies;
pub mod region;
mod results;
mod survey;
mod work;

ghost use Rattle.std.specs.Prelude.{◌≡◌};
ghost use Rattle.answer.specs.Answer.{given};
ghost use Rattle.arithmetic.specs.Arith.{ieee};
ghost use Rattle.set.specs.Lent.{seen, held, SameBuffers};
ghost use Rattle.place_list.specs.Lists.{step, placed_one, check_list, called, place_list_on};

use crate::results::{check_counts, result};
use answer::Refusal;
use coordinates::lonlat::LonLat;
use nearest::origins::Origins;
use place_list::PlaceResult;
use set::checks::check_with;
use set::set::{Set, SetRef};

// Places one position.
fn place_one<O: Origins>(origins: &O, set: &mut Set<'_>, position: LonLat) -> PlaceResult
    ensures same { SameBuffers set.old set.new }
    ensures stepped { step result (held set.new) ≡ placed_one ieee (O.table origins.now) (held set.old) position }
{
    result(calls::place(*origins, set, position))
}

// 1, 2, 3, 21, 22, 14.
#[tactic(auto, unfolding(place_list::specs::Lists::check_list))]
fn check_list<O: Origins>(
    origins: &O,
    set: SetRef<'_>,
    positions: usize,
    results: usize,
) -> Result<(), Refusal>
    ensures { given result ≡ check_list ieee (O.table origins.now) (seen set.entry) positions results }
{
    check_with(origins, set)?;
    check_counts(positions, results)
}

// Places a list of positions, from first to last, and fills a result for each. A position that is refused has the number
// in its result, and the next one follows; 1, 2, 3, 21, 22 and 14 refuse the list itself, and then nothing is written.
pub fn place_list<O: Origins>(
    origins: O,
    set: &mut Set<'_>,
    positions: &[LonLat],
    results: &mut [PlaceResult],
) -> Result<(), Refusal>
    ensures same { SameBuffers set.old set.new }
    ensures listed { called (given result) results.new (held set.new)
        ≡ place_list_on ieee (O.table origins) (held set.old) positions.now results.old }
{
    check_list(&origins, set.view(), positions.len(), results.len())?;
    // The results by index: what is written through the zip of an iter_mut, no proof knows once the loop is over (tried).
    for (i, position) in positions.iter().enumerate() {
        results[i] = place_one(&origins, set, *position);
    }
    Ok(())
}
