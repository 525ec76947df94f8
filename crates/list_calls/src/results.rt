// What a position of a list is answered with (document 02, Paper 1): its result; and 14, which a region tries too.
ghost use Rattle.std.specs.Prelude.{◌≡◌};
ghost use Rattle.answer.specs.Answer.{given};
ghost use Rattle.place_list.specs.Lists.{result_of, check_counts};

use answer::Refusal;
use dodecahedron::place::Place;
use place_list::PlaceResult;

// What place gave, as a result. No From: it would have to stand in PlaceResult's crate, which has the definitions and no function.
pub fn result(outcome: Result<Place, Refusal>) -> PlaceResult
    ensures { result ≡ result_of (given outcome) }
{
    match outcome {
        Ok(p) => PlaceResult {
            refusal: 0,
            origin: p.origin,
            x: p.face.0.x,
            y: p.face.0.y,
        },
        Err(refusal) => PlaceResult {
            refusal: refusal.number(),
            origin: 0,
            x: 0.0,
            y: 0.0,
        },
    }
}

// 14: there is a result for each position.
pub fn check_counts(positions: usize, results: usize) -> Result<(), Refusal>
    ensures { given result ≡ check_counts positions results }
{
    if positions != results {
        return Err(Refusal::ResultCount);
    }
    Ok(())
}
