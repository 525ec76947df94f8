// What a call must come to, with the table that it brings or takes, and what the set must hold after it.
use crate::buffers::Set;
use crate::due::expected;
use nearest::origins::BuiltIn;
use origin::origin::built_in;
use replay::outcome::{Outcome, done, told};
use replay_call::Call;

// The table of the last open that answered, which every other call takes, and the set as it must be.
#[derive(Drop)]
pub(crate) struct Due {
    pub taken: [f64; 84],
    pub set: Set,
}

impl Due {
    // As open with the built-in table leaves a set.
    pub(crate) fn new() -> Due {
        let mut set = Set::filled_with(0.0);
        let _ = set.open(BuiltIn);
        Due {
            taken: built_in(),
            set,
        }
    }

    // An open that brings a table: where it answers, that table is taken from then on, and the frame is the one that it writes.
    // A refused one leaves all of it.
    fn opened(&mut self, table: &[f64; 84]) -> Outcome {
        let mut new = Set::filled_with(0.0);
        let opened = new.open(*table);
        if opened.is_ok() {
            self.taken = *table;
            self.set.frame = new.frame;
            self.set.clear_stores();
        }
        told(opened, done)
    }

    // What a call must come to, with the table that it brings or takes; all that is due is then as it must be after it.
    pub(crate) fn expected(&mut self, table: &[f64; 84], call: Call) -> Outcome {
        match call {
            Call::Open => self.opened(table),
            _ => expected(*table, call, &mut self.set),
        }
    }
}
