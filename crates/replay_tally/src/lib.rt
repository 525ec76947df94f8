// Outcomes compared with those that the oracle's records store: how many of each function were compared, and how many
// differ. A function's number is its place in the counts.
#![tactic(auto)]

ghost use Rattle.std.specs.Prelude.{◌≡◌};
ghost use Rattle.replay_tally.specs.Compared.{same, stored_in};
ghost use Rattle.replay_tally.specs.Tally.{compared_by, counted, none_counted};

pub mod lines;
pub mod table;

use replay::function::{Function, numbered};
use replay::outcome::Outcome;
use replay::record::Record;
use replay::{record, report};
use std::io::{Read, Write};
use std::{fmt, io};

// How many outcomes were compared, and how many of them differ.
#[derive(Clone, Copy)]
pub struct Count {
    pub compared: u64,
    pub differ: u64,
}

impl Count {
    // Nothing is counted yet.
    pub const NONE: Count = Count {
        compared: 0,
        differ: 0,
    };

    // One more that was compared, and one more that differs where it doesn't agree.
    pub fn and(self, agrees: bool) -> Count
        ensures { result ≡ compared_by agrees self }
    {
        let Count { compared, differ } = self;
        Count {
            compared: compared.wrapping_add(1),
            differ: if agrees {
                differ
            } else {
                differ.wrapping_add(1)
            },
        }
    }
}

impl fmt::Display for Count {
    fn fmt<W: fmt::Write>(&self, f: &mut fmt::Formatter<W>) -> fmt::Result {
        let Count { compared, differ } = *self;
        write!(f, "{compared} compared, {differ} differ")
    }
}

// A list's functions, and what was counted of each, by its number. A head's number is below 32. The functions
// are lent: a count in each would need an array of as many.
#[derive(Clone, Copy)]
pub struct Tally<'a> {
    pub functions: &'a [Function],
    pub counts: [Count; 32],
}

// The outcome that a record has.
fn stored(record: &Record) -> Outcome
    ensures { result ≡ stored_in «record».now }
{
    let place = usize::from(record.head.arguments);
    let answer = |k: u8| (k < record.head.answers).then(|| record.word(place + usize::from(k)));
    Outcome {
        status: record.head.status,
        answers: [answer(0), answer(1), answer(2)],
    }
}

impl<'a> Tally<'a> {
    // Nothing is counted yet.
    pub fn new(functions: &'a [Function]) -> Tally<'a>
        ensures { result.counts ≡ none_counted }
    {
        Tally {
            functions,
            counts: [Count::NONE; 32],
        }
    }

    // Counts one more that was compared, and whether it differs. A number beyond the counts is not counted.
    // By its place: tried `get_mut`, but the check then leaves open what the counts are.
    pub fn count(&mut self, number: usize, agrees: bool)
        ensures { self.new.counts ≡ counted agrees number self.old.counts }
    {
        if number < self.counts.len() {
            self.counts[number] = self.counts[number].and(agrees);
        }
    }

    // Counts the outcome that was given, and whether it differs from the record's. Of each function the first three records
    // that differ are shown.
    pub fn compare<W: Write>(
        &mut self,
        to: &mut W,
        record: &Record,
        given: Outcome,
    ) -> io::Result<()>
        ensures { self.new.counts ≡ counted (same given (stored_in «record».now)) «record».now.head.number self.old.counts }
    {
        let due = stored(record);
        let agrees = given == due;
        let number = usize::from(record.head.number);
        self.count(number, agrees);
        if !agrees
            && self
                .counts
                .get(number)
                .is_some_and(|count| count.differ <= 3)
            && let Some(function) = numbered(self.functions, record.head.number)
        {
            report::difference(to, function.name, record, due, given)?;
        }
        Ok(())
    }

    // A line for each function, up to and with the last that is named.
    pub fn report<W: Write>(&self, to: &mut W, last: Option<u8>) -> io::Result<()> {
        let most = last.map_or(self.functions.len(), usize::from);
        let counts = self.counts[1..].iter().take(most);
        for (function, count) in self.functions.iter().zip(counts) {
            let name = function.name;
            writeln!(to, "{name} {count}")?;
        }
        Ok(())
    }

    // Replays a list: asks for the outcome at each record, compares it with the stored one, and reports. Nothing says that the
    // input ends, so no more than so many records are read.
    pub fn run<R: Read, W: Write, F: FnMut(&Record) -> Outcome>(
        mut self,
        from: &mut R,
        to: &mut W,
        mut ask: F,
    ) -> io::Result<()>
        requires { F.IsAlwaysCallable ask }
    {
        for _ in 0..u32::MAX {
            let Some(record) = record::read(from, to, self.functions)? else {
                return self.report(to, None);
            };
            let given = ask(&record);
            self.compare(to, &record, given)?;
        }
        report::too_long(to)?;
        self.report(to, None)
    }
}
