// The table file: the mark EAT, version 1, and the 84 numbers of a table of twelve origins.
#![tactic(auto)]

ghost use Rattle.std.specs.Prelude.{◌≡◌, length};
ghost use Rattle.arithmetic.specs.Arith.{ieee};
ghost use Rattle.table_file.specs.TableFile.{SIZE as the_size, headed, table_in, file_of, table_given, file_given, Gives};

use answer::Refusal;
use origin::table::check_rows;

// The bytes of a file.
pub const SIZE: usize = 677;

// The mark EAT, and the version 1 in sixteen bits.
const HEADER: &[u8; 5] = b"EAT\0\x01";

// The length, the mark and the version.
fn is_headed(bytes: &[u8]) -> bool
    ensures { result ≡ headed bytes.now }
{
    bytes.len() == SIZE && bytes.starts_with(HEADER)
}

// The 84 numbers behind the header. Each is read at its place: what chunks and a zip with `iter_mut` have written, no proof knows.
fn numbers(bytes: &[u8]) -> [f64; 84]
    requires { length bytes.now ≡ the_size }
    ensures { result ≡ table_in bytes.now }
{
    let mut table = [0.0; 84];
    for i in 0..84 {
        table[i] = answer::big_endian::read_double(bytes, 5 + 8 * i);
    }
    table
}

// Reads a table file: writes its 84 numbers to the lent table, or refuses with 20, 21 or 22 and leaves
// the table as it was.
pub fn load(bytes: &[u8], table: &mut [f64; 84]) -> Result<(), Refusal>
    ensures { Gives (table_given ieee bytes.now) result table.old table.new }
{
    if !is_headed(bytes) {
        return Err(Refusal::TableFile);
    }
    let read = numbers(bytes);
    check_rows(&read)?;
    *table = read;
    Ok(())
}

// The whole file, each number at its place, for the same reason.
fn write(table: &[f64; 84], bytes: &mut [u8])
    requires { length bytes.old ≡ the_size }
    ensures { bytes.new ≡ file_of table.now }
{
    bytes[..5].copy_from_slice(HEADER);
    for (i, number) in table.iter().enumerate() {
        answer::big_endian::write_double(bytes, 5 + 8 * i, *number);
    }
}

// Writes a table's file, which load reads back, to the lent bytes. It refuses with 20 where they aren't
// 677, and with 21 or 22 a table that load would refuse, and then leaves them as they were.
pub fn save(table: [f64; 84], bytes: &mut [u8]) -> Result<(), Refusal>
    ensures { Gives (file_given ieee table (length bytes.old)) result bytes.old bytes.new }
{
    if bytes.len() != SIZE {
        return Err(Refusal::TableFile);
    }
    check_rows(&table)?;
    write(&table, bytes);
    Ok(())
}
