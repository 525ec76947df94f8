// Reads the oracle's lists (oracle/README.md) from standard input, of the origins, the face figure, the frame and nearest, and of the
// changes of coordinates, asks the crates at each stored argument, and compares the outcomes bit for bit. It writes a line for each
// function: how many outcomes were compared, and how many differ. It shows the first three records of each function that differ, and
// says so where a list is malformed.
#![tactic(auto)]

mod changes;
mod figure;

use replay::section::section;
use std::io;

fn main(rt: HostRuntime) -> io::Result<()> {
    let mut from = rt.stdin();
    let mut to = rt.stdout();
    figure::run_list(&mut section(&mut from)?, &mut to)?;
    changes::run_list(rt.alloc(), &mut section(&mut from)?, &mut to)
}
