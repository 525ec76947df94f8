// Reads the oracle's list (oracle/README.md) from standard input, asks crate caption_box at each stored box and point,
// and compares the boxes bit for bit. It writes a line for each function: how many outcomes were compared, and how many
// differ.
#![tactic(auto)]

mod lent;

use answer::Refusal;
use caption_box::CaptionBox;
use coordinates::coords::Face;
use replay::outcome::{Outcome, done, three, told};
use replay::record::Record;
use replay_tally::table::{Entry, run};
use std::io;

// The box in a record's first five arguments, each by its name: four sides, and 1.0 where it is empty.
fn stored_box(record: &Record) -> CaptionBox {
    CaptionBox {
        least_x: record.argument(0),
        greatest_x: record.argument(1),
        least_y: record.argument(2),
        greatest_y: record.argument(3),
        empty: record.argument(4) == 1.0,
    }
}

// The point in the two arguments behind the box.
fn stored_point(record: &Record) -> Face {
    replay_arguments::face(record, 5)
}

// Two sides and whether the box is empty: x's here and y's below, a line each.
fn x_sides(caption: CaptionBox) -> Outcome {
    three(
        caption.least_x,
        caption.greatest_x,
        f64::from(caption.empty),
    )
}

fn y_sides(caption: CaptionBox) -> Outcome {
    three(
        caption.least_y,
        caption.greatest_y,
        f64::from(caption.empty),
    )
}

// The half of a new box that the argument names: 0.0 is x, every other number y.
fn new_half(which: f64) -> Outcome {
    let caption = CaptionBox::new();
    if which == 0.0 {
        x_sides(caption)
    } else {
        y_sides(caption)
    }
}

// What `take_in` comes to: its check, and the box afterwards.
fn taken(record: &Record) -> (Result<(), Refusal>, CaptionBox) {
    lent::take_lent(stored_box(record), stored_point(record))
}

// What `grow` leaves in the box.
fn grown(record: &Record) -> CaptionBox {
    let mut caption = stored_box(record);
    caption.grow(stored_point(record));
    caption
}

fn main(rt: HostRuntime) -> io::Result<()> {
    let table = [
        Entry::new("new_box", 1, |record| new_half(record.argument(0))),
        Entry::new("take", 7, |record| told(taken(record).0, done)),
        Entry::new("take_x", 7, |record| x_sides(taken(record).1)),
        Entry::new("take_y", 7, |record| y_sides(taken(record).1)),
        Entry::new("grow_x", 7, |record| x_sides(grown(record))),
        Entry::new("grow_y", 7, |record| y_sides(grown(record))),
    ];
    run(rt.alloc(), &mut rt.stdin(), &mut rt.stdout(), &table)
}
