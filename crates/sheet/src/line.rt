// Paper 13: a line of the as-run sheet, by its place on the page. A line is lent as a slice and not as an array: `first_chunk_mut`
// and `as_mut_array` of a part of the page were tried, and it stayed open that the page holds then what was written to the array.
ghost use Rattle.std.specs.Prelude.{◌≡◌, [], ◌<◌, length, get_or, take};
ghost use Rattle.decimal.specs.Decimal.{decimal};
ghost use Rattle.window.specs.EveryList.{sum};
ghost use Rattle.sheet.specs.Page.{TITLE, ALL, line as Page·line, right_aligned, numbered, lines_of};

use crate::text::{write_blank, write_text};
use decimal::write_number;

// The sum of the twelve counts. A u64 holds it.
fn total(counts: &[u32; 12]) -> u64
    ensures { result ≡ sum (take 12 counts.now) }
{
    counts.iter().map(|count| u64::from(*count)).sum()
}

// The first line.
fn write_title(line: &mut [u8])
    requires { length line.old ≡ 81 }
    ensures { line.new ≡ Page·line TITLE [] }
{
    write_blank(line);
    write_text(line, b"STORM COUNTS");
}

// The row of an origin: its number, and its count.
fn write_row(line: &mut [u8], origin: u64, count: u64)
    requires { length line.old ≡ 81 }
    ensures { line.new ≡ numbered (right_aligned 2 (decimal origin)) count }
{
    write_blank(line);
    write_number(&mut line[0..2], origin);
    write_number(&mut line[70..80], count);
}

// The line of the sum.
fn write_all(line: &mut [u8], all: u64)
    requires { length line.old ≡ 81 }
    ensures { line.new ≡ numbered ALL all }
{
    write_blank(line);
    write_text(line, b"ALL");
    write_number(&mut line[70..80], all);
}

// A line of the page, by its place, counted from 0.
pub fn write_line(line: &mut [u8], place: usize, counts: &[u32; 12])
    requires { (length line.old ≡ 81) × (place < 60) }
    ensures { line.new ≡ get_or (lines_of counts.now) place [] }
{
    match place {
        0 => write_title(line),
        2..=13 => {
            let k = place - 2;
            write_row(line, k as u64, u64::from(counts[k]));
        }
        14 => write_all(line, total(counts)),
        _ => write_blank(line),
    }
}
