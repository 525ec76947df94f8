// What a program writes of records.
use crate::outcome::Outcome;
use crate::record::{Head, Record};
use std::io::Write;
use std::{fmt, io};

// A record's arguments, as their bits.
#[derive(Clone, Copy)]
struct Arguments<'a>(&'a Record);

impl fmt::Display for Arguments<'_> {
    fn fmt<W: fmt::Write>(&self, f: &mut fmt::Formatter<W>) -> fmt::Result {
        let count = usize::from(self.0.head.arguments);
        for word in self.0.words.iter().take(count) {
            let bits = u64::from_be_bytes(*word);
            write!(f, " {bits:016x}")?;
        }
        Ok(())
    }
}

// A record that differs: its function, its arguments, the stored outcome and the one that was given.
pub fn difference<W: Write>(
    to: &mut W,
    name: &str,
    record: &Record,
    stored: Outcome,
    given: Outcome,
) -> io::Result<()> {
    let arguments = Arguments(record);
    writeln!(to, "{name} at{arguments} stored{stored} given{given}")
}

// A record that no function has: its number, and how many arguments and answers it has.
pub fn unknown<W: Write>(to: &mut W, head: Head) -> io::Result<()> {
    let Head {
        number,
        arguments,
        answers,
        ..
    } = head;
    writeln!(
        to,
        "malformed list: function {number} with {arguments} arguments and {answers} answers"
    )
}

// A list that ends inside a record.
pub fn cut_off<W: Write>(to: &mut W) -> io::Result<()> {
    writeln!(to, "malformed list: cut off inside a record")
}

// A list that is longer than the program reads.
pub fn too_long<W: Write>(to: &mut W) -> io::Result<()> {
    writeln!(to, "malformed list: too long")
}
