// Lists of calls with tables on one set, beside a second one that gathers what the calls write on sets newly opened with the
// same table. Each open brings a table, and every other call takes that of the last open that answered. The lists without
// tables are run alike.
use crate::buffers::{FOREIGN, Set};
use crate::draw::Generator;
use crate::with_tables::counts::count_outcome;
use crate::with_tables::due::Due;
use crate::with_tables::tables;
use nearest::origins::BuiltIn;
use replay::function::Function;
use replay_call::Call;
use replay_tally::Tally;

// Where it is counted whether every number of the set is as it is due after a call.
const SET: usize = 1;

// The set that the calls are made on, what is due of them, and what was counted.
#[derive(Drop)]
pub(crate) struct History<'a> {
    set: Set,
    due: Due,
    pub tally: Tally<'a>,
}

impl<'a> History<'a> {
    // The set as open with the built-in table leaves it, the same due, and nothing counted.
    pub(crate) fn new(functions: &'a [Function]) -> History<'a> {
        let mut set = Set::filled_with(FOREIGN);
        let _ = set.open(BuiltIn);
        History {
            set,
            due: Due::new(),
            tally: Tally::new(functions),
        }
    }

    // One call on the set, compared: what it comes to, and every number of the set after it.
    fn turn(&mut self, table: &[f64; 84], call: Call) {
        let given = self.set.perform(*table, call);
        let expected = self.due.expected(table, call);
        count_outcome(call, given, expected, &mut self.tally);
        self.tally.count(SET, self.set.is(&self.due.set));
    }

    // A list of so many calls, open once in so many of them. The table of a call is a new one for open, and else the one that is taken.
    fn list(&mut self, generator: &mut Generator, calls: u32, opens: u64) {
        for _ in 0..calls {
            let call = generator.draw(opens);
            let table = match call {
                Call::Open => tables::draw(generator),
                _ => self.due.taken,
            };
            self.turn(&table, call);
        }
    }

    // A list with many opens, and then one with few.
    pub(crate) fn run(&mut self) {
        let mut generator = Generator(0x1032_5476_98ba_dcfe);
        self.list(&mut generator, 4000, 20);
        self.list(&mut generator, 4000, 500);
    }
}
