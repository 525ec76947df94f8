// A double as eight bytes, the highest first, and the double of bits.
ghost use Rattle.std.specs.Prelude.{◌≡◌, ◌++◌, ◌+◌, ◌≤◌, length, take, drop};
ghost use Rattle.std.specs.Float.{binary64};
ghost use Rattle.std.specs.Float.Ieee.{of_bits, nan_bits};
ghost use Rattle.answer.specs.BigEndian.{double_in, double_bytes};

// Whether the bits are a NaN's: without the sign they lie above infinity's.
fn is_nan(bits: u64) -> bool
    ensures { result ≡ nan_bits binary64 bits }
{
    bits % 0x8000_0000_0000_0000 > 0x7ff0_0000_0000_0000
}

// The double with these bits. f64::from_bits is not defined at a NaN, so each NaN is met before it.
pub fn value(bits: u64) -> f64
    ensures { result ≡ of_bits binary64 bits }
{
    if is_nan(bits) {
        f64::NAN
    } else {
        f64::from_bits(bits)
    }
}

// The double in the eight bytes from a place on. The bound is asked for as an index's is: each call reads another place, so that a
// struct of bytes and place would be made for each number.
pub fn read_double(bytes: &[u8], at: usize) -> f64
    requires { at + 8 ≤ length bytes.now }
    ensures { result ≡ double_in (take 8 (drop at bytes.now)) }
{
    let mut eight = [0; 8];
    eight.copy_from_slice(&bytes[at..at + 8]);
    value(u64::from_be_bytes(eight))
}

// Writes a double's eight bytes from a place on.
pub fn write_double(bytes: &mut [u8], at: usize, x: f64)
    requires { at + 8 ≤ length bytes.old }
    ensures { bytes.new ≡ take at bytes.old ++ double_bytes x ++ drop (at + 8) bytes.old }
{
    let eight = crate::bits(x).to_be_bytes();
    bytes[at..at + 8].copy_from_slice(&eight);
}
