// A read of the strike program, behind the bytes that are kept; what reads come to is in specs/Steps. A read that fails counts as the
// input's end.
ghost use Rattle.std.specs.Prelude.{◌≡◌, ◌+◌, ◌≤◌, ◌<◌, length, take, drop};
ghost use Rattle.std.specs.Io.KnownBytes.{Consumes};

use std::io::Read;

// How many bytes a read brought; none at the input's end, since there is room for some.
fn read<R: Read>(from: &mut R, space: &mut [u8]) -> usize
    requires { 0 < length space.old }
    ensures result_in_bounds { result ≤ length space.new }
    ensures bytes { Consumes (R.remaining from.old) (R.remaining from.new) (take result space.new) }
{
    from.read(space).unwrap_or(0)
}

// The same behind the bytes that are kept, which stay.
pub fn read_behind<R: Read>(from: &mut R, buffer: &mut [u8], kept: usize) -> usize
    requires { kept < length buffer.old }
    ensures result_in_bounds { kept + result ≤ length buffer.new }
    ensures bytes { Consumes (R.remaining from.old) (R.remaining from.new) (take result (drop kept buffer.new)) }
    ensures buffer_unchanged { take kept buffer.new ≡ take kept buffer.old }
{
    read(from, &mut buffer[kept..])
}
