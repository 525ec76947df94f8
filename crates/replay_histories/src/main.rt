// Runs long lists of calls on one set, drawn from a fixed seed, refused ones among them. Each forward, inverse, place
// and unplace, each list of positions, region and step of the caption panel is made on a newly opened set too, and must
// come to the same there, bit for bit, with every result, point and byte that it leaves. Two stores gather what
// those calls have written there since the last open: after each call the set's stores must equal them in every number,
// and its frame the first open's. Then the oracle's list (oracle/README.md) is read from standard input, each of its
// vertices compared with what show hands back, and each b × c with what stands behind them in the sphere store. Last, lists with
// tables are run alike (`with_tables`).
#![tactic(auto)]

mod buffers;
mod counts;
mod draw;
mod due;
mod lists;
mod slots;
mod vertices;
mod with_tables;

use crate::lists::History;
use replay::function::Function;
use std::io;

// What is counted, in the order of its numbers. The first three have records, with so many arguments: each record's vertex or b × c is
// compared after the lists, in the same counts.
fn main(rt: HostRuntime) -> io::Result<()> {
    let functions = [
        Function::new("face_vertex", 2),
        Function::new("sphere_vertex", 2),
        Function::new("cross_product", 1),
        Function::new("set", 0),
        Function::new("forward", 0),
        Function::new("inverse", 0),
        Function::new("place", 0),
        Function::new("unplace", 0),
        Function::new("companion", 0),
        Function::new("list", 0),
        Function::new("region", 0),
        Function::new("forward_refused", 0),
        Function::new("inverse_refused", 0),
        Function::new("place_refused", 0),
        Function::new("unplace_refused", 0),
        Function::new("companion_refused", 0),
        Function::new("list_refused", 0),
        Function::new("region_refused", 0),
        Function::new("open", 0),
        Function::new("show", 0),
        Function::new("step", 0),
    ];
    let mut history = History::new(&functions);
    history.run();
    history
        .tally
        .run(&mut rt.stdin(), &mut rt.stdout(), |record| {
            vertices::of_record(&history.set, record)
        })?;
    with_tables::run(&mut rt.stdout())
}
