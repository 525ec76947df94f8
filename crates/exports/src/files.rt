// The table file as C functions.
ghost use Rattle.arithmetic.specs.Arith.{ieee};
ghost use Rattle.std.specs.Prelude.{length};
ghost use Rattle.border.specs.Returns.{Returns, contents};
ghost use Rattle.table_file.specs.TableFile.{table_given, file_given};
ghost use Rattle.border.specs.Tables.{with_table};
ghost use Rattle.exports.specs.Files.{whole};

use border::rows::rows_or_20;

// Load: the 84 numbers of a table file go to table.
#[unsafe(no_mangle)]
pub extern "C" fn a5_table_load(bytes: &[u8], table: &mut [f64; 84]) -> u8
    ensures { Returns (table_given ieee bytes.now) result (contents table) whole }
{
    let loaded = table_file::load(bytes, table);
    answer::status(loaded)
}

// Save: the file of a table goes to the 677 bytes lent.
#[unsafe(no_mangle)]
pub extern "C" fn a5_table_save(table: &[f64], bytes: &mut [u8]) -> u8
    ensures { Returns (with_table (λ t. file_given ieee t (length bytes.old)) table.now) result (contents bytes) whole }
{
    let rows = match rows_or_20(table) {
        Ok(rows) => rows,
        Err(refusal) => return refusal.number(),
    };
    let saved = table_file::save(rows, bytes);
    answer::status(saved)
}
