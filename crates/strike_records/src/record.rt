// The header and a record of ten bytes.
ghost use Rattle.std.specs.Prelude.{◌≡◌, ◌+◌, ◌≤◌, length};
ghost use Rattle.answer.specs.Answer.{given};
ghost use Rattle.arithmetic.specs.Arith.{ieee};
ghost use Rattle.strike_records.specs.Record.{headed, four_at, signed, lon_lat_in, face_in, request_in};

use answer::Refusal;
use coordinates::base::Degrees;
use coordinates::coords::Face;
use coordinates::lonlat::LonLat;
use coordinates::vec2::Vec2;

// What a record asks for: place, or unplace on an origin.
#[derive(Clone, Copy)]
pub enum Request {
    Place(LonLat),
    Unplace(Face, u8),
}

// The mark EAD and the version 1.
pub fn is_header(input: &[u8]) -> bool
    requires { 5 ≤ length input.now }
    ensures { result ≡ headed input.now }
{
    input.starts_with(b"EAD\0\x01")
}

// Four bytes from a place on as a signed number, the highest first.
fn signed(bytes: &[u8], at: usize) -> f64
    requires { at + 4 ≤ length bytes.now }
    ensures { result ≡ signed ieee (four_at bytes.now at) }
{
    let mut four = [0; 4];
    four.copy_from_slice(&bytes[at..at + 4]);
    f64::from(i32::from_be_bytes(four))
}

// The two numbers from a place on as a longitude and a latitude. The bound is asked for as an index's is.
pub fn lon_lat(bytes: &[u8], at: usize) -> LonLat
    requires { at + 8 ≤ length bytes.now }
    ensures { result ≡ lon_lat_in ieee bytes.now at }
{
    LonLat {
        longitude: Degrees(signed(bytes, at) / 10000000.0),
        latitude: Degrees(signed(bytes, at + 4) / 10000000.0),
    }
}

// The two numbers from a place on as a face point.
pub fn face(bytes: &[u8], at: usize) -> Face
    requires { at + 8 ≤ length bytes.now }
    ensures { result ≡ face_in ieee bytes.now at }
{
    Face(Vec2 {
        x: signed(bytes, at) / 1000000000.0,
        y: signed(bytes, at + 4) / 1000000000.0,
    })
}

// What a record of ten bytes asks for: kind 1 is place and needs the origin byte 0, kind 2 is unplace.
pub fn decode(bytes: &[u8; 10]) -> Result<Request, Refusal>
    ensures { given result ≡ request_in ieee bytes.now }
{
    match (bytes[0], bytes[1]) {
        (1, 0) => Ok(Request::Place(lon_lat(bytes, 2))),
        (2, origin) => Ok(Request::Unplace(face(bytes, 2), origin)),
        _ => Err(Refusal::RecordKind),
    }
}
