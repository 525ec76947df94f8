// A record's answer on a set, as its line, and the answers of records one after the other. Each
// function writes from a place on, and returns the place behind what it wrote.
ghost use Rattle.std.specs.Prelude.{◌+◌, ◌*◌, ◌≤◌, length};
ghost use Rattle.answer.specs.Given.{answered};
ghost use Rattle.arithmetic.specs.Arith.{ieee};
ghost use Rattle.origin.specs.Origins.{ORIGINS};
ghost use Rattle.set.specs.Lent.{SameBuffers, between};
ghost use Rattle.strike_records.specs.Line.{LINE};
ghost use Rattle.strike_records.specs.Writes.{lent_bytes};
ghost use Rattle.strike_records.specs.Reply.{reply_to, reply, replies};
ghost use Rattle.strike_session.specs.Replies.{Replies};

use coordinates::coords::Face;
use coordinates::lonlat::LonLat;
use nearest::origins::BuiltIn;
use set::set::Set;
use strike_records::line::{write_lon_lat, write_place, write_refusal};
use strike_records::record::{Request, decode};

// A record that asks for place. It and `answer_unplace` are a match of two lines each: a trait of what is written, with its clauses in each
// impl, is longer than both.
fn answer_place(set: &mut Set<'_>, lonlat: LonLat, out: &mut [u8], at: usize) -> usize
    requires { at + LINE ≤ length out.old }
    ensures same { SameBuffers set.old set.new }
    ensures replies { Replies (between set.old set.new) (lent_bytes out) at result
        (λ s. reply_to ieee ORIGINS s (answered (Request.Place lonlat))) }
{
    match calls::place(BuiltIn, set, lonlat) {
        Ok(place) => write_place(out, at, place),
        Err(refusal) => write_refusal(out, at, refusal.number()),
    }
}

// A record that asks for unplace.
fn answer_unplace(set: &mut Set<'_>, point: Face, origin: u8, out: &mut [u8], at: usize) -> usize
    requires { at + LINE ≤ length out.old }
    ensures same { SameBuffers set.old set.new }
    ensures replies { Replies (between set.old set.new) (lent_bytes out) at result
        (λ s. reply_to ieee ORIGINS s (answered (Request.Unplace point origin))) }
{
    match calls::unplace(BuiltIn, set, point, origin) {
        Ok(lonlat) => write_lon_lat(out, at, lonlat),
        Err(refusal) => write_refusal(out, at, refusal.number()),
    }
}

// A record, whatever it asks for.
fn answer_record(set: &mut Set<'_>, bytes: &[u8; 10], out: &mut [u8], at: usize) -> usize
    requires { at + LINE ≤ length out.old }
    ensures same { SameBuffers set.old set.new }
    ensures replies { Replies (between set.old set.new) (lent_bytes out) at result (λ s. reply ieee ORIGINS s bytes.now) }
{
    match decode(bytes) {
        Ok(Request::Place(lonlat)) => { answer_place(set, lonlat, out, at) }
        Ok(Request::Unplace(point, origin)) => { answer_unplace(set, point, origin, out, at) }
        Err(refusal) => write_refusal(out, at, refusal.number()),
    }
}

// The first records of the input. Counted here: records cut by the caller would take `count` out of `replies`.
pub fn answer_records(set: &mut Set<'_>, input: &[u8], out: &mut [u8], count: usize) -> usize
    requires { (count * 10 ≤ length input.now) × (count * LINE ≤ length out.old) }
    ensures same { SameBuffers set.old set.new }
    ensures replies { Replies (between set.old set.new) (lent_bytes out) 0 result
        (λ s. replies ieee ORIGINS s input.now count) }
{
    let records = input.as_chunks::<10>().0;
    let mut written: usize = 0;
    for bytes in &records[..count] {
        written = answer_record(set, bytes, out, written);
    }
    written
}
