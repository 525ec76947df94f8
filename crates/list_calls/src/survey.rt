// The positions of an outline worked out on the set as it stands: nothing is written here.
ghost use Rattle.std.specs.Prelude.{◌≤◌, ◌≡◌, length};
ghost use Rattle.arithmetic.specs.Arith.{ieee};
ghost use Rattle.set.specs.Lent.{seen};
ghost use Rattle.region_work.specs.Parts.{slot_empty, nothing_seen, given_found, survey_of};

use answer::Refusal;
use calls::place_work;
use coordinates::coords::Face;
use coordinates::lonlat::LonLat;
use coordinates::vec2::Vec2;
use nearest::origins::Origins;
use region_work::seen::{Found, Seen};
use set::set::SetRef;
use set::sizes::{FACE_WIDTH, SPHERE_WIDTH};
use stores::slots::{face_slot, is_filled, source_slot, sphere_slot};
use stores::used::Used;

// Whether a slot that a position uses is empty, and so will be written.
#[tactic(auto, unfolding(region_work::specs::Parts::slot_empty))]
fn slot_empty(set: SetRef<'_>, used: Used) -> bool
    ensures { result ≡ slot_empty (seen set.entry) used }
{
    !is_filled(
        set.face_store,
        face_slot(used.index, used.reflected) * FACE_WIDTH,
    ) || !is_filled(
        set.face_store,
        source_slot(used.index, used.reflected) * FACE_WIDTH,
    ) || !is_filled(
        set.sphere_store,
        sphere_slot(used.origin, used.index, used.reflected) * SPHERE_WIDTH,
    )
}

// Works the positions out, up to the first one that place refuses.
pub(crate) fn survey<O: Origins>(
    origins: &O,
    set: SetRef<'_>,
    positions: &[LonLat],
) -> Result<Found, Refusal>
    requires { length positions.now ≤ 256 }
    ensures { given_found result (length positions.now)
        ≡ survey_of ieee (O.table origins.now) (seen set.entry) nothing_seen positions.now }
{
    let mut points = [Face(Vec2 { x: 0.0, y: 0.0 }); 256];
    let mut seen = Seen::new();
    // The points by index: what is written through the zip of an iter_mut, no proof knows once the loop is over (tried).
    for (i, position) in positions.iter().enumerate() {
        let done = place_work(origins, set, *position)?;
        points[i] = done.answer.face;
        let empty = slot_empty(set, done.used);
        seen.take_in(done.answer, empty);
    }
    Ok(Found { seen, points })
}
