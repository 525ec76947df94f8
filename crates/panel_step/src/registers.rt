// The registers of the caption panel: what a block asks for, and how the end of a command is written to it.
ghost use Rattle.std.specs.Prelude.{◌≡◌};
ghost use Rattle.answer.specs.Answer.{given};
ghost use Rattle.arithmetic.specs.Arith.{ieee};
ghost use Rattle.panel.specs.Registers.{shared, interrupt as Registers·interrupt, interrupt_anew};
ghost use Rattle.panel.specs.Registers.{ended, done as Registers·done, placed, unplaced, refused_with};
ghost use Rattle.panel.specs.Step.{command_in};

use answer::Refusal;
use answer::big_endian::write_double;
use coordinates::lonlat::LonLat;
use dodecahedron::place::Place;
use panel::registers::BLOCK;
use strike_records::record::{Request, face, lon_lat};

// What stands where in the block, by the names of `panel`'s specs/Registers: the command, its status, the mask of the status bits, the interrupt
// line, the origin, the refusal's number; where the two inputs begin, and where each of the two results does.
const COMMAND: usize = 0;

const STATUS: usize = 1;

const MASK: usize = 2;

const INTERRUPT: usize = 3;

const ORIGIN: usize = 4;

const REFUSAL: usize = 5;

const INPUTS: usize = 8;

const FIRST: usize = 16;

const SECOND: usize = 24;

// The status behind a command: bit 0 done, bit 1 refused.
const DONE: u8 = 1;

const REFUSED: u8 = 2;

// What a block asks for, with its inputs: nothing, place, or unplace on an origin; 12: a command that there isn't.
#[tactic(auto, unfolding(panel::specs::Step::command_in))]
pub fn asked(block: &[u8; BLOCK]) -> Result<Option<Request>, Refusal>
    ensures { given result ≡ command_in ieee block.now }
{
    match block[COMMAND] {
        0 => Ok(None),
        1 => Ok(Some(Request::Place(lon_lat(block, INPUTS)))),
        2 => Ok(Some(Request::Unplace(face(block, INPUTS), block[ORIGIN]))),
        _ => Err(Refusal::RecordKind),
    }
}

// Whether both numbers have bit 0.
#[tactic(auto, unfolding(panel::specs::Registers::shared))]
fn share(a: u8, b: u8) -> bool
    ensures { result ≡ shared a b }
{
    a % 2 == 1 && b % 2 == 1
}

// The interrupt line: whether status and mask share bit 0 or bit 1.
#[tactic(auto, unfolding(panel::specs::Registers::interrupt))]
fn interrupt(status: u8, mask: u8) -> u8
    ensures { result ≡ Registers·interrupt status mask }
{
    let done = share(status, mask);
    let refused = share(status / 2, mask / 2);
    u8::from(done || refused)
}

// Works the interrupt byte out anew.
#[tactic(auto, unfolding(panel::specs::Registers::interrupt_anew))]
pub fn write_interrupt(block: &mut [u8; BLOCK])
    ensures { block.new ≡ interrupt_anew block.old }
{
    let line = interrupt(block[STATUS], block[MASK]);
    block[INTERRUPT] = line;
}

// The end of a command: no command, its status, and the interrupt byte for that.
#[tactic(auto, unfolding(panel::specs::Registers::ended))]
fn end(block: &mut [u8; BLOCK], status: u8)
    ensures { block.new ≡ ended status block.old }
{
    let line = interrupt(status, block[MASK]);
    block[COMMAND] = 0;
    block[STATUS] = status;
    block[INTERRUPT] = line;
}

// A command that is done: its two results, and no refusal.
#[tactic(auto, unfolding(panel::specs::Registers::done, panel::specs::Registers::with_double))]
fn done(block: &mut [u8; BLOCK], x: f64, y: f64)
    ensures { block.new ≡ Registers·done x y block.old }
{
    block[REFUSAL] = 0;
    write_double(block, FIRST, x);
    write_double(block, SECOND, y);
    end(block, DONE);
}

// Place's answer: the origin's id, and the face point.
#[tactic(auto, unfolding(panel::specs::Registers::placed))]
pub fn write_place(block: &mut [u8; BLOCK], place: Place)
    ensures { block.new ≡ placed place block.old }
{
    block[ORIGIN] = place.origin;
    done(block, place.face.0.x, place.face.0.y);
}

// Unplace's answer: longitude and latitude.
pub fn write_lon_lat(block: &mut [u8; BLOCK], lonlat: LonLat)
    ensures { block.new ≡ unplaced lonlat block.old }
{
    done(block, lonlat.longitude.0, lonlat.latitude.0);
}

// A refusal: its number; results and origin stay. A number, not a Refusal: the clause holds for every number, and a narrower type would
// ask more of a caller.
pub fn write_refusal(block: &mut [u8; BLOCK], number: u8)
    ensures { block.new ≡ refused_with number block.old }
{
    block[REFUSAL] = number;
    end(block, REFUSED);
}
