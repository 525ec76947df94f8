// The triangles that a call takes for a point. Nothing is written here.
ghost use Rattle.std.specs.Prelude.{◌≡◌};
ghost use Rattle.answer.specs.Answer.{given};
ghost use Rattle.arithmetic.specs.Arith.{ieee};
ghost use Rattle.set.specs.Lent.{seen};
ghost use Rattle.stores.specs.Taken.{used_for, taken_for};

use crate::slots::{face_slot, source_slot, sphere_slot};
use crate::sphere_triangles::{take_cross, take_sphere};
use crate::taken::Taken;
use crate::triangles::take_face;
use crate::used::Used;
use answer::Refusal;
use coordinates::polar::Polar;
use set::checks::check_call;
use set::on_origin::{OnOrigin, SoundOrigin};
use set::set::SetRef;
use tiling::triangle_index::{get_face_triangle_index, should_reflect};

// The sphere triangle of a point about an origin's axis with b × c, and the slots that it is taken by.
fn take_used(on: OnOrigin<'_>, polar: Polar) -> Result<Used, Refusal>
    ensures { given result ≡ used_for ieee on.entry.origin.origin (seen on.entry.set) on.entry.id polar }
{
    let index = get_face_triangle_index(polar);
    let reflected = should_reflect(polar);
    let slot = sphere_slot(on.id, index, reflected);
    let source = source_slot(index, reflected);
    let triangle = take_sphere(on.set, on.origin, slot, source)?;
    let bxc = take_cross(on.set.sphere_store, slot, triangle);
    Ok(Used {
        origin: on.id,
        index,
        reflected,
        triangle,
        bxc,
    })
}

// The triangles of a point about an origin's axis, on any set. No `OnOrigin` is taken, which would ask of a caller that the set passed: 1 to 4
// are tried here. The origin has the number id.
pub fn take(set: SetRef<'_>, origin: SoundOrigin, id: u8, polar: Polar) -> Result<Taken, Refusal>
    ensures { given result ≡ taken_for ieee origin.origin (seen set.entry) id polar }
{
    check_call(set, id)?;
    let on = OnOrigin { set, origin, id };
    let used = take_used(on, polar)?;
    let face_triangle = take_face(set.face_store, face_slot(used.index, used.reflected));
    Ok(Taken {
        used,
        face_triangle,
    })
}
