// Replays the oracle's stored lists of calls on a set, without a table and with one. After each call the whole set is compared with what
// it should hold. oracle/README.md has the records.
#![tactic(auto)]

mod asked;
mod built_in;
mod set_calls;
mod with_tables;

use replay::section::section;
use std::io;

fn main(rt: HostRuntime) -> io::Result<()> {
    let mut from = rt.stdin();
    let mut to = rt.stdout();
    built_in::run_list(rt.alloc(), &mut section(&mut from)?, &mut to)?;
    with_tables::run_list(rt.alloc(), &mut section(&mut from)?, &mut to)
}
