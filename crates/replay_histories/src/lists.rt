// Lists of calls on one set, beside a second one that gathers what the calls write on newly opened sets. `with_tables` runs
// its lists alike; each call there brings a table or takes one, and is counted elsewhere.
use crate::buffers::{FOREIGN, Set};
use crate::counts::count_outcome;
use crate::draw::Generator;
use crate::due::expected;
use nearest::origins::BuiltIn;
use replay::function::Function;
use replay_call::Call;
use replay_tally::Tally;

// Where it is counted whether every number of the set is as it is due after a call.
const SET: usize = 4;

// The set that the calls are made on, the set as it must be, and what was counted.
#[derive(Drop)]
pub(crate) struct History<'a> {
    pub set: Set,
    due: Set,
    pub tally: Tally<'a>,
}

impl<'a> History<'a> {
    // Both sets as open leaves them, and nothing counted.
    pub(crate) fn new(functions: &'a [Function]) -> History<'a> {
        let mut set = Set::filled_with(FOREIGN);
        let _ = set.open(BuiltIn);
        let mut due = Set::filled_with(0.0);
        let _ = due.open(BuiltIn);
        History {
            set,
            due,
            tally: Tally::new(functions),
        }
    }

    // One call on the set, compared: what it comes to, and every number of the set after it. Open always answers here, and clears
    // the stores that are due.
    fn turn(&mut self, call: Call) {
        let given = self.set.perform(BuiltIn, call);
        if let Call::Open = call {
            self.due.clear_stores();
        }
        let expected = expected(BuiltIn, call, &mut self.due);
        count_outcome(call, given, expected, &mut self.tally);
        self.tally.count(SET, self.set.is(&self.due));
    }

    // A list of so many calls, open once in so many of them, or never for 0.
    fn list(&mut self, generator: &mut Generator, calls: u32, opens: u64) {
        for _ in 0..calls {
            self.turn(generator.draw(opens));
        }
    }

    // A list with many opens, and then one with none, which fills every slot.
    pub(crate) fn run(&mut self) {
        let mut generator = Generator(0x0123_4567_89ab_cdef);
        self.list(&mut generator, 4000, 50);
        self.list(&mut generator, 16000, 0);
    }
}
