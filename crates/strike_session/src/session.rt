// A session on slices. The caller keeps the bytes that were not taken, and lends them again
// with what arrives next behind them: how the input is cut changes nothing.
ghost use Rattle.std.specs.Prelude.{◌≡◌};
ghost use Rattle.answer.specs.Answer.{number_of};
ghost use Rattle.set.specs.Outcome.{lent_mut};
ghost use Rattle.strike_records.specs.Line.{refusal_line};
ghost use Rattle.strike_records.specs.Writes.{lent_bytes};
ghost use Rattle.strike_session.specs.Pieces.{end_line, over};
ghost use Rattle.strike_session.specs.Results.{WritesIfRoom, Opens};

use answer::Refusal;
use nearest::origins::BuiltIn;
use strike_records::line::{LINE, write_refusal};

// The records that are still taken, after the header; a stopped session takes nothing more.
#[derive(Clone, Copy)]
pub enum Stage {
    Header,
    Records(u32),
    Stopped,
}

// What begin hands back: where the session stands, and how many bytes its line has.
#[derive(Clone, Copy)]
pub struct Begun {
    pub stage: Stage,
    pub written: usize,
}

// What feeding hands back: where the session stands then, how many bytes of the input it took, and
// how many its lines have.
#[derive(Clone, Copy)]
pub struct Fed {
    pub stage: Stage,
    pub taken: usize,
    pub written: usize,
}

// The same of a buffer: how many bytes at its start were not taken. A struct of its own, though Fed has the same types: `taken` and
// `kept` count other bytes, and one name for both would say neither.
#[derive(Clone, Copy)]
pub struct FedBuffer {
    pub stage: Stage,
    pub kept: usize,
    pub written: usize,
}

// Opens the set, before anything is read. Where open refuses, that is the only line. The buffers are lent one by one, as open
// takes them.
pub fn begin(
    frame: &mut [f64],
    face_store: &mut [f64],
    sphere_store: &mut [f64],
    out: &mut [u8],
) -> Begun
    ensures { Opens (lent_mut frame face_store sphere_store) (lent_bytes out) result }
{
    match set::open::open(BuiltIn, frame, face_store, sphere_store) {
        Ok(()) => Begun {
            stage: Stage::Header,
            written: 0,
        },
        Err(refusal) => Begun {
            stage: Stage::Stopped,
            written: write_fitting(out, refusal),
        },
    }
}

// A refusal's line, where there is room for a line.
fn write_fitting(out: &mut [u8], refusal: Refusal) -> usize
    ensures { WritesIfRoom (lent_bytes out) (refusal_line (number_of refusal)) result }
{
    if out.len() < LINE {
        return 0;
    }
    write_refusal(out, 0, refusal.number())
}

// The input's end, with so many bytes that were not taken.
pub fn finish(stage: Stage, kept: usize, out: &mut [u8]) -> usize
    ensures { WritesIfRoom (lent_bytes out) (end_line stage kept) result }
{
    match stage {
        Stage::Header => write_fitting(out, Refusal::Header),
        Stage::Records(left) if left > 0 && kept > 0 => write_fitting(out, Refusal::CutOff),
        _ => 0,
    }
}

// Whether a session takes nothing more.
pub fn is_over(stage: Stage) -> bool
    ensures { result ≡ over stage }
{
    matches!(stage, Stage::Records(0) | Stage::Stopped)
}
