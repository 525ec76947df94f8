// The strike program's feeding: the header and whole records of a session, as many as have arrived and there is room for
// (document 01, "The strike program").
ghost use Rattle.std.specs.Prelude.{◌≤◌, length};
ghost use Rattle.arithmetic.specs.Arith.{ieee};
ghost use Rattle.origin.specs.Origins.{ORIGINS};
ghost use Rattle.set.specs.Lent.{SameBuffers, between};
ghost use Rattle.strike_records.specs.Writes.{lent_bytes};
ghost use Rattle.strike_session.specs.Pieces.{answerable, records_fed, fed};
ghost use Rattle.strike_session.specs.Results.{Feeds};
ghost use Rattle.strike_session.specs.declared.session.Stage.TheVariants.{Header};

use crate::answers::answer_records;
use crate::session::{Fed, Stage};
use answer::Refusal;
use set::set::Set;
use strike_records::line::{LINE, write_refusal};
use strike_records::record::is_header;

// All records that can be answered, behind so many bytes of the header.
fn feed_records(set: &mut Set<'_>, header: usize, left: u32, input: &[u8], out: &mut [u8]) -> Fed
    requires { header ≤ 5 }
    ensures same { SameBuffers set.old set.new }
    ensures fed { Feeds (between set.old set.new) (lent_bytes out) result
        (λ s. records_fed ieee ORIGINS header left s input.now (answerable left input.now (length out.old))) }
{
    let count = (left as usize).min((input.len() / 10).min(out.len() / LINE));
    let written = answer_records(set, input, out, count);
    Fed {
        stage: Stage::Records(left - count as u32),
        taken: header + count * 10,
        written,
    }
}

// The header, and the records behind it.
fn feed_header(set: &mut Set<'_>, input: &[u8], out: &mut [u8]) -> Fed
    ensures same { SameBuffers set.old set.new }
    ensures fed { Feeds (between set.old set.new) (lent_bytes out) result
        (λ s. fed ieee ORIGINS Header s input.now (length out.old)) }
{
    let nothing = Fed {
        stage: Stage::Header,
        taken: 0,
        written: 0,
    };
    if input.len() < 5 {
        return nothing;
    }
    if is_header(input) {
        return feed_records(set, 5, u32::MAX, &input[5..], out);
    }
    if out.len() < LINE {
        return nothing;
    }
    let written = write_refusal(out, 0, Refusal::Header.number());
    Fed {
        stage: Stage::Stopped,
        taken: 5,
        written,
    }
}

// Answers all that it can of the input that has arrived and was not taken yet. It takes
// the header and whole records, as many as there is room for, with 40 bytes for each line.
pub fn feed(stage: Stage, set: &mut Set<'_>, input: &[u8], out: &mut [u8]) -> Fed
    ensures same { SameBuffers set.old set.new }
    ensures fed { Feeds (between set.old set.new) (lent_bytes out) result
        (λ s. fed ieee ORIGINS stage s input.now (length out.old)) }
    ensures within { (result.taken ≤ length input.now) × (result.written ≤ length out.old) }
{
    match stage {
        Stage::Header => feed_header(set, input, out),
        Stage::Records(left) => feed_records(set, 0, left, input, out),
        Stage::Stopped => Fed {
            stage,
            taken: 0,
            written: 0,
        },
    }
}
