// How much of each buffer a record's call is lent.
ghost use Rattle.std.specs.Prelude.{◌≡◌, ◌+◌, ◌∷◌, []};
ghost use Rattle.replay.specs.Record.{word_at};

use replay::record::Record;

// Three lengths, from a place on.
pub fn lengths(record: &Record, place: u8) -> [u64; 3]
    ensures { result ≡ word_at «record».now.words place
        ∷ word_at «record».now.words (place + 1)
        ∷ word_at «record».now.words (place + 2) ∷ [] }
{
    let at = usize::from(place);
    [record.word(at), record.word(at + 1), record.word(at + 2)]
}
