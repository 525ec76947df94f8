// Lists whose records have no heads of a function: a program reads each by itself, and says under which line it is counted.
use crate::Tally;
use replay::function::Function;
use replay::report;
use std::io;
use std::io::{Read, Write};

// What became of the next record: there is none, the list ends inside it, or it was compared. No `Result` in a `Result`: `?` is for the
// reader's error alone.
#[derive(Clone, Copy)]
pub enum Replayed {
    Ended,
    CutOff,
    Compared { line: usize, agrees: bool },
}

// Replays each record, and names those that differ by their numbers in the list. Nothing says that the input ends, so no more
// than so many records are read.
pub fn run<R: Read, W: Write, F: FnMut(&mut R) -> io::Result<Replayed>>(
    from: &mut R,
    to: &mut W,
    lines: &[Function],
    mut replay: F,
) -> io::Result<()>
    requires { F.IsAlwaysCallable replay }
{
    let mut tally = Tally::new(lines);
    for number in 0..u32::MAX {
        match replay(from)? {
            Replayed::Ended => return tally.report(to, None),
            Replayed::CutOff => {
                report::cut_off(to)?;
                return tally.report(to, None);
            }
            Replayed::Compared { line, agrees } => {
                tally.count(line, agrees);
                if !agrees {
                    writeln!(to, "record {number} differs")?;
                }
            }
        }
    }
    report::too_long(to)?;
    tally.report(to, None)
}
