// The results that are lent to `place_list`, and what such a call came to.
use answer::Refusal;
use place_list::PlaceResult;

// How many positions and results there are.
pub const MOST: usize = 400;

// What a result holds before a call.
pub const BLANK: PlaceResult = PlaceResult {
    refusal: 165,
    origin: 90,
    x: 0.5,
    y: -0.5,
};

// What a call came to: its answer, and the results as it left them, by value, so that a contract speaks of them. `regions` and the crates
// of both calls are alike: what comes with the two differs in type, number, blank and call, and one of each would be handed all four.
#[derive(Drop)]
pub struct Listed {
    pub answer: Result<(), Refusal>,
    pub results: [PlaceResult; MOST],
}
