// Reads the oracle's lists (oracle/README.md) from standard input, of the as-run sheet's pages, of table files, of fair turns and of windows,
// and asks the crates at each record. It writes a line for each function or status: how many outcomes were compared, and how many differ.
// It names the records that differ, and says so where a list is malformed.
#![tactic(auto)]

mod files;
mod pages;
mod shares;
mod windows;

use replay::section::section;
use std::io;

fn main(rt: HostRuntime) -> io::Result<()> {
    let mut from = rt.stdin();
    let mut to = rt.stdout();
    pages::run_list(&mut section(&mut from)?, &mut to)?;
    files::run_list(&mut section(&mut from)?, &mut to)?;
    shares::run_list(&mut section(&mut from)?, &mut to)?;
    windows::run_list(&mut section(&mut from)?, &mut to)
}
