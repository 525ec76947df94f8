// The positions that are placed, and their results.
use answer::bits;
use coordinates::base::Degrees;
use coordinates::lonlat::LonLat;
use place_list::PlaceResult;
use replay::outcome::Outcome;
use replay::record::Record;
use replay_lent::lists::MOST;
use std::alloc::{AllocError, Global};

// A call is lent the first of each.
#[derive(Drop)]
pub struct Lists {
    pub positions: Vec<LonLat>,
    pub results: Vec<PlaceResult>,
}

impl Lists {
    // Room for the most positions and results of a list, on the heap: zeros before the first list.
    pub fn new(alloc: Global) -> Result<Lists, AllocError> {
        let origin = LonLat {
            longitude: Degrees(0.0),
            latitude: Degrees(0.0),
        };
        let nothing = PlaceResult {
            refusal: 0,
            origin: 0,
            x: 0.0,
            y: 0.0,
        };
        Ok(Lists {
            positions: vec![in alloc; origin; MOST]?,
            results: vec![in alloc; nothing; MOST]?,
        })
    }

    // All four fields of a result, also where it is refused.
    pub fn result(&self, record: &Record) -> Option<Outcome> {
        let result = self.results.get(record.word(0) as usize)?;
        Some(Outcome {
            status: result.refusal,
            answers: [
                Some(u64::from(result.origin)),
                Some(bits(result.x)),
                Some(bits(result.y)),
            ],
        })
    }
}
