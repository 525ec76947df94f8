// Reads the oracle's list (oracle/README.md) from standard input, asks the crates of the elementary steps at each stored
// argument, and compares the answers bit for bit. It writes a line for each function: how many answers were compared, and
// how many differ. It shows the first three records of each function that differ, and says so where the list is
// malformed.
#![tactic(auto)]

use arctangent::core_step::core;
use arctangent::{atan, atan2};
use elementary::remainder::remainder;
use elementary::signs::{abs, max_zero};
use elementary::whole::{floor, round};
use replay::outcome::{one, told, two, whole};
use replay_tally::table::{Entry, run};
use sine::{cos, sin, sin_cos, tan};
use square_root::root::{sqrt, sqrt_rounds};
use std::io;

fn main(rt: HostRuntime) -> io::Result<()> {
    let table = [
        Entry::new("abs", 1, |record| one(abs(record.argument(0)))),
        Entry::new("max_zero", 1, |record| one(max_zero(record.argument(0)))),
        Entry::new("floor", 1, |record| one(floor(record.argument(0)))),
        Entry::new("round", 1, |record| one(round(record.argument(0)))),
        Entry::new("sqrt", 1, |record| one(sqrt(record.argument(0)))),
        Entry::new("sin", 1, |record| told(sin(record.argument(0)), one)),
        Entry::new("cos", 1, |record| told(cos(record.argument(0)), one)),
        Entry::new("tan", 1, |record| told(tan(record.argument(0)), one)),
        Entry::new("core", 1, |record| one(core(record.argument(0)))),
        Entry::new("atan", 1, |record| one(atan(record.argument(0)))),
        Entry::new(
            "atan2",
            2,
            |record| one(atan2(record.argument(0), record.argument(1))),
        ),
        Entry::new("sin_cos", 1, |record| {
            told(sin_cos(record.argument(0)), |both| two(both.sin, both.cos))
        }),
        Entry::new(
            "remainder",
            2,
            |record| one(remainder(record.argument(0), record.argument(1))),
        ),
        Entry::new("sqrt_rounds", 1, |record| {
            whole(u64::from(sqrt_rounds(record.argument(0))))
        }),
    ];
    run(rt.alloc(), &mut rt.stdin(), &mut rt.stdout(), &table)
}
