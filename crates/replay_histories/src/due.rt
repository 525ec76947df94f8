// What a call must come to, with the built-in table or one that it brings or takes, and what the stores must hold after it: from sets
// newly opened with that table, and from the stores that gather what was written there. Show and its companion are not asked for this.
use crate::buffers::Set;
use crate::slots::{part, state};
use nearest::origins::Origins;
use replay::outcome::Outcome;
use replay_call::Call;

// What a call comes to on a newly opened set; what it writes there goes to the set that is due.
fn on_new_set<O: Origins>(origins: O, call: Call, due: &mut Set) -> Outcome {
    let mut new = Set::filled_with(0.0);
    let _ = new.open(origins);
    let outcome = new.perform(origins, call);
    due.gather(&new);
    outcome
}

// What a call must come to; the stores that are due are then as they must be after it, but for what open clears.
pub fn expected<O: Origins>(origins: O, call: Call, due: &mut Set) -> Outcome {
    match call {
        Call::Show(kind, slot) => part(due, kind, slot),
        Call::Ask(kind, slot) => state(due, kind, slot),
        _ => on_new_set(origins, call, due),
    }
}
