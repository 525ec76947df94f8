// The list of additions to windows: each is made, and what it gives is compared, and where the list asks for it the counts, the number kept
// and single strikes of the ring.
use replay::function::Function;
use replay::outcome::{Outcome, answered, done, told, whole};
use replay::record::Record;
use replay_tally::Tally;
use std::io;
use std::io::{Read, Write};
use window::Window;

// A new window. How many it keeps is the outcome.
fn renew(window: &mut Window) -> Outcome {
    *window = Window::new();
    whole(u64::from(window.state.kept))
}

// An addition. What it gives is the outcome, with no further answer.
fn add(window: &mut Window, record: &Record) -> Outcome {
    let minute = (record.word(0) % (1 << 32)) as u32;
    let origin = (record.word(1) % (1 << 8)) as u8;
    told(window.add(minute, origin), done)
}

// The count of an origin, and the number kept.
fn count(window: &Window, record: &Record) -> Outcome {
    let origin = (record.word(0) % 12) as usize;
    let strikes = window.counts[origin];
    answered([
        Some(u64::from(strikes)),
        Some(u64::from(window.state.kept)),
        None,
    ])
}

// The minute and the origin of a kept strike, by its place from the oldest on.
fn strike(window: &Window, record: &Record) -> Outcome {
    let place = (record.word(0) % 4096) as usize;
    let at = (window.state.first as usize + place) % 4096;
    answered([
        Some(u64::from(window.minutes[at])),
        Some(u64::from(window.origins[at])),
        None,
    ])
}

// The outcome of a record's function on the window: the numbers are those of the list below, and no table as in
// `replay_tally::table`, whose functions can't be lent the window.
fn outcome(window: &mut Window, record: &Record) -> Outcome {
    match record.head.number {
        1 => renew(window),
        2 => add(window, record),
        3 => count(window, record),
        _ => strike(window, record),
    }
}

// Runs the list, and reports.
pub(crate) fn run_list<R: Read, W: Write>(from: &mut R, to: &mut W) -> io::Result<()> {
    let functions = [
        Function::new("new", 1),
        Function::new("add", 2),
        Function::new("count", 1),
        Function::new("strike", 1),
    ];
    let mut window = Window::new();
    Tally::new(&functions).run(from, to, |record| { outcome(&mut window, record) })
}
