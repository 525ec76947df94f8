// Lists of calls on a set, and of records that set it up.
use crate::noted::Set;
use replay::function::Function;
use replay::outcome::{Outcome, nowhere, whole};
use replay::record::{Head, Record};
use replay::{record, report};
use replay_tally::Tally;
use std::io;
use std::io::{Read, Write};

// The kinds of a list's records, by their numbers: the calls, then a number that no record has, under which it is counted
// whether the set is as noted after each call, and the others. Up to and with the last, each has a line of the report.
#[derive(Clone, Copy)]
pub struct Kinds<'a> {
    pub functions: &'a [Function],
    pub buffers: u8,
    pub last: u8,
}

// As a record: that no number of the set is wrong.
fn none_wrong(buffers: u8) -> Record {
    Record {
        head: Head {
            number: buffers,
            status: 0,
            arguments: 0,
            answers: 1,
        },
        words: [[0; 8]; 12],
    }
}

// Replays a list: asks for the outcome at each record, none where a place that it names is not there, and compares it with the
// stored one, and after a call the set with its notes. Nothing says that the input ends, so no more than so many are read. The loop is
// its own, and not `Tally::run`'s with a step behind each record: that step counts too, and a tally that runs would have to be lent to it.
pub fn run<R: Read, W: Write, F: FnMut(&mut Set, &Record) -> Option<Outcome>>(
    from: &mut R,
    to: &mut W,
    kinds: Kinds<'_>,
    set: &mut Set,
    mut ask: F,
) -> io::Result<()>
    requires { F.IsAlwaysCallable ask }
{
    let mut tally = Tally::new(kinds.functions);
    for _ in 0..u32::MAX {
        let Some(record) = record::read(from, to, kinds.functions)? else {
            return tally.report(to, Some(kinds.last));
        };
        let given = ask(set, &record).unwrap_or(nowhere());
        tally.compare(to, &record, given)?;
        if record.head.number < kinds.buffers {
            let wrong = whole(set.wrong() as u64);
            tally.compare(to, &none_wrong(kinds.buffers), wrong)?;
        }
    }
    report::too_long(to)?;
    tally.report(to, Some(kinds.last))
}
