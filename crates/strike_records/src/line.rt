// The lines of answers and refusals. Each function writes from a place on, and returns the place
// behind what it wrote. The digits are written by hand, here and in crate decimal: the memory is fixed, and std's
// Display says what it writes of a String alone, which needs a heap.
ghost use Rattle.std.specs.Prelude.{◌≡◌, [], ◌∷◌, ◌+◌, ◌≤◌, ◌<◌, length};
ghost use Rattle.strike_records.specs.Line.{SPACE, LINE as the_line, digit as Line·digit, hex, decimal, bits_of, fields, place_line, lon_lat_line, refusal_line};
ghost use Rattle.strike_records.specs.Writes.{Writes, lent_bytes};

use answer::bits;
use coordinates::lonlat::LonLat;
use decimal::write_number;
use dodecahedron::place::Place;

// Room for any line. Those that write a line, here and in crate strike_session, ask for it: what they write is counted by the place
// that they return, which a struct of the slice and the place would have to hand back all the same.
pub const LINE: usize = 40;

// The letter of a digit below 16.
fn digit(d: u8) -> u8
    requires { d < 16 }
    ensures { result ≡ Line·digit d }
{
    if d < 10 { b'0' + d } else { b'a' - 10 + d }
}

// The sixteen digits of a number, the last one first. By the place, which the invariant speaks of: with `run.iter_mut().rev()` it would have
// to speak of the places that are lent, from the end. A slice of 16: a part of the line is lent.
fn write_hex(run: &mut [u8], bits: u64)
    requires { length run.old ≡ 16 }
    ensures { run.new ≡ hex 16 bits }
{
    let mut rest = bits;
    for i in (0..16).rev() {
        run[i] = digit((rest % 16) as u8);
        rest /= 16;
    }
}

// A space and the digits of a float's bits. No answer is a NaN.
fn write_bits(out: &mut [u8], at: usize, x: f64) -> usize
    requires { at + 17 ≤ length out.old }
    ensures { Writes (lent_bytes out) at (SPACE ∷ bits_of x) result }
{
    out[at] = b' ';
    write_hex(&mut out[at + 1..at + 17], bits(x));
    at + 17
}

// How many digits a number has in decimal.
#[tactic(auto, unfolding(crate::specs::Line::decimal))]
fn digits(n: u8) -> usize
    ensures count { result ≡ length (decimal n) }
    ensures few { (0 < result) × (result ≤ 3) }
{
    match n {
        0..=9 => 1,
        10..=99 => 2,
        _ => 3,
    }
}

// A space and a decimal number.
fn write_decimal(out: &mut [u8], at: usize, n: u8) -> usize
    requires { at + 4 ≤ length out.old }
    ensures { Writes (lent_bytes out) at (SPACE ∷ decimal n) result }
{
    let end = at + 1 + digits(n);
    out[at] = b' ';
    write_number(&mut out[at + 1..end], u64::from(n));
    end
}

// Two floats, and the end of the line.
fn write_pair(out: &mut [u8], at: usize, x: f64, y: f64) -> usize
    requires { at + 35 ≤ length out.old }
    ensures { Writes (lent_bytes out) at (fields (bits_of x ∷ bits_of y ∷ [])) result }
{
    let second = write_bits(out, at, x);
    let end = write_bits(out, second, y);
    out[end] = b'\n';
    end + 1
}

// Place's answer: P, the origin's id, x and y.
pub fn write_place(out: &mut [u8], at: usize, place: Place) -> usize
    requires { at + the_line ≤ length out.old }
    ensures { Writes (lent_bytes out) at (place_line place) result }
{
    out[at] = b'P';
    let point = write_decimal(out, at + 1, place.origin);
    write_pair(out, point, place.face.0.x, place.face.0.y)
}

// Unplace's answer: U, longitude and latitude.
pub fn write_lon_lat(out: &mut [u8], at: usize, lonlat: LonLat) -> usize
    requires { at + the_line ≤ length out.old }
    ensures { Writes (lent_bytes out) at (lon_lat_line lonlat) result }
{
    out[at] = b'U';
    write_pair(out, at + 1, lonlat.longitude.0, lonlat.latitude.0)
}

// A refusal: R and its number. A number, not a Refusal: the clause holds for every number, and a narrower type would
// ask more of a caller.
pub fn write_refusal(out: &mut [u8], at: usize, number: u8) -> usize
    requires { at + the_line ≤ length out.old }
    ensures { Writes (lent_bytes out) at (refusal_line number) result }
{
    out[at] = b'R';
    let end = write_decimal(out, at + 1, number);
    out[end] = b'\n';
    end + 1
}
