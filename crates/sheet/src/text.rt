// Paper 13: what a line of the as-run sheet is written of beside its numbers: a text, a line of spaces. Why a line is a slice, `line` says.
ghost use Rattle.std.specs.Prelude.{◌≡◌, ◌++◌, ◌≤◌, length, drop};
ghost use Rattle.sheet.specs.Line.{blank};

// A text from the first column on.
pub fn write_text(line: &mut [u8], text: &[u8])
    requires { length text.now ≤ length line.old }
    ensures { line.new ≡ text.now ++ drop (length text.now) line.old }
{
    line[..text.len()].copy_from_slice(text);
}

// A line of spaces.
pub fn write_blank(line: &mut [u8])
    requires { length line.old ≡ 81 }
    ensures { line.new ≡ blank }
{
    line.fill(b' ');
    line[80] = b'\n';
}
