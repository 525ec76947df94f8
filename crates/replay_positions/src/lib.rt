// What both lists of replay_lists share, of positions and of regions: the numbers of their records, what their notes hold, open, and a
// position.
#![tactic(auto)]

ghost use Rattle.std.specs.Prelude.{◌≡◌, ◌≤◌, length, slice_set, IfSome, IsNone};
ghost use Rattle.replay.specs.Record.{word_at};
ghost use Rattle.replay_positions.specs.Positions.{lon_lat_in, first_in, open_outcome};

use coordinates::base::Degrees;
use coordinates::lonlat::LonLat;
use nearest::origins::BuiltIn;
use replay::outcome::{Outcome, done, told};
use replay::record::Record;
use replay_sets::asked::lengths;
use replay_sets::noted::{Lent, Set};
use replay_sets::places::DEFINED_AT;
use replay_sets::tables::TABLES;
use set::open::open;

// The numbers of the records of open, and of the call with a table; the others are the call without one.
pub const OPEN: u8 = 2;

pub const WITH: u8 = 3;

// The number that the comparisons of the set are counted under, after those of the calls. No record has it.
pub const BUFFERS: u8 = 4;

// What the set should hold, then what the Rust has for an opened set with every slot filled, and then the tables.
pub const TABLES_AT: usize = 2 * DEFINED_AT;

pub const NOTES: usize = TABLES_AT + TABLES;

// Open has the three lengths as its arguments. Before it, it is noted what it should leave: it always answers here.
pub fn opened(set: &mut Set, record: &Record) -> Option<Outcome>
    ensures { IfSome result (λ outcome. outcome ≡ open_outcome (first_in «record».now set.old.frame set.old.face set.old.sphere)) }
{
    set.opened(Some(DEFINED_AT))?;
    let Lent {
        frame,
        face,
        sphere,
    } = set.lend(lengths(record, 0))?;
    Some(told(open(BuiltIn, frame, face, sphere), done))
}

// A position's number, longitude and latitude. None where there is no such place, and then nothing is put. It is written by its
// index: tried `get_mut`, but once that borrow is over a proof knows the slice's length alone.
pub fn put_position(positions: &mut [LonLat], record: &Record) -> Option<()>
    ensures put { IfSome result (λ _. positions.new ≡ slice_set positions.old (word_at «record».now.words 0) (lon_lat_in «record».now)) }
    ensures beyond { IsNone result → length positions.old ≤ word_at «record».now.words 0 }
    ensures stays { IsNone result → positions.new ≡ positions.old }
{
    let place = record.word(0) as usize;
    if place >= positions.len() {
        return None;
    }
    positions[place] = LonLat {
        longitude: Degrees(record.argument(1)),
        latitude: Degrees(record.argument(2)),
    };
    Some(())
}
