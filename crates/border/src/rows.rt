// The numbers of a table that is lent with a length, as the array that the calls take.
ghost use Rattle.std.specs.Prelude.{◌≡◌, length};
ghost use Rattle.answer.specs.Answer.{given};
ghost use Rattle.border.specs.Tables.{rows_given};

use answer::Refusal;

// The 84 numbers of a table, in their order.
pub fn rows(table: &[f64]) -> [f64; 84]
    requires { length table.now ≡ 84 }
    ensures { result ≡ table.now }
{
    let mut copied = [0.0; 84];
    copied.copy_from_slice(table);
    copied
}

// The 84 numbers of a table, in their order; 20 for a table of another length. A C function matches on this: it returns a number, so that
// `?` has nothing to return, and a function for each call that takes the rows as a Result is longer than the match.
pub fn rows_or_20(table: &[f64]) -> Result<[f64; 84], Refusal>
    ensures { given result ≡ rows_given table.now }
{
    <[f64; 84]>::try_from(table).or(Err(Refusal::TableFile))
}
