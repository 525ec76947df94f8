// A number in decimal, written into columns. What holds of its digits stands in specs/ and proofs/.
#![tactic(auto)]

ghost use Rattle.std.specs.Prelude.{◌≡◌, cond, ◌%◌, ◌<◌, eqb, length};
ghost use Rattle.decimal.specs.Bytes.{SPACE};
ghost use Rattle.decimal.specs.Columns.{right_aligned};
ghost use Rattle.decimal.specs.Decimal.{digit, decimal};

// The last digit of what is left of a number, and a space where nothing is left.
fn column(rest: u64) -> u8
    ensures { result ≡ cond (eqb rest 0) SPACE (digit (rest % 10)) }
{
    if rest == 0 {
        return b' ';
    }
    b'0' + (rest % 10) as u8
}

// A number, right-aligned in the columns that are lent. The digits are written by hand: the memory is fixed, and std's Display
// says what it writes of a String alone, which needs a heap. By the place, which the invariant speaks of: with
// `columns[..last].iter_mut().rev()` it would have to speak of the places that are lent.
pub fn write_number(columns: &mut [u8], n: u64)
    requires { 0 < length columns.old }
    ensures { columns.new ≡ right_aligned (length columns.old) (decimal n) }
{
    let last = columns.len() - 1;
    columns[last] = b'0' + (n % 10) as u8;
    let mut rest = n / 10;
    for at in (0..last).rev() {
        columns[at] = column(rest);
        rest /= 10;
    }
}
