// Replays the oracle's stored lists of positions and regions, with a table and without one. oracle/README.md has the records.
#![tactic(auto)]

mod lists;
mod regions;

use replay::section::section;
use std::io;

fn main(rt: HostRuntime) -> io::Result<()> {
    let mut from = rt.stdin();
    let mut to = rt.stdout();
    lists::run_list(rt.alloc(), &mut section(&mut from)?, &mut to)?;
    regions::run_list(rt.alloc(), &mut section(&mut from)?, &mut to)
}
