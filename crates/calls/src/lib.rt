// Forward, inverse, place and unplace on a set, with the built-in table or one that is handed over. A call checks its arguments,
// works its answer out, looks at that, and only then writes the empty slots that it used.
#![tactic(auto)]

mod leave;
mod projection;

ghost use Rattle.std.specs.Prelude.{◌≡◌, ◌<◌, false};
ghost use Rattle.answer.specs.Given.{passed, and_then};
ghost use Rattle.answer.specs.Answer.{given};
ghost use Rattle.arithmetic.specs.Arith.{ieee};
ghost use Rattle.coordinates.specs.Conversions.{check_face, finite_face};
ghost use Rattle.elementary.specs.Sine.{outside};
ghost use Rattle.origin.specs.Origins.{origin_at};
ghost use Rattle.set.specs.Checks.{check_origin, check_with};
ghost use Rattle.set.specs.Lent.{seen, LeavesSet};
ghost use Rattle.dodecahedron.specs.Work.{finish};
ghost use Rattle.dodecahedron.specs.Projection.{forward_core, inverse_core};
ghost use Rattle.dodecahedron.specs.Calls.{forward_given, inverse_given, place_given, unplace_given, forward_on, inverse_on, place_on, unplace_on};

use crate::leave::leave;
use crate::projection::{forward_core, inverse_core};
use answer::Refusal;
use coordinates::conversions::{
    check_face, check_lon_lat, check_spherical, finite_face, finite_lon_lat, finite_spherical,
};
use coordinates::coords::Face;
use coordinates::lonlat::LonLat;
use coordinates::spherical::Spherical;
use dodecahedron::place::Place;
use dodecahedron::work::Work;
use nearest::origins::Origins;
use set::checks::{check_origin, check_with};
use set::on_origin::{OnOrigin, SoundOrigin};
use set::set::{Set, SetRef};
use transforms::geographic::{from_lon_lat, to_lon_lat};

// 1, 2, 3, 21, 22, 4.
fn check_call<O: Origins>(origins: &O, set: SetRef<'_>, origin: u8) -> Result<(), Refusal>
    ensures { given result ≡ and_then (check_with ieee (O.table origins.now) (seen set.entry)) (check_origin origin) }
{
    check_with(origins, set)?;
    check_origin(origin)
}

// The set on the origin with the number id, where both have passed their tests: why an id below 12 is of no type, `origin::table` says.
// Inlined always, as the two below: what they give is long, and would be copied once more.
#[inline(always)]
fn on_origin<'a, O: Origins>(origins: &O, set: SetRef<'a>, id: u8) -> OnOrigin<'a>
    requires tests { check_with ieee (O.table origins.now) (seen set) ≡ passed }
    requires id { id < 12 }
    ensures set { seen result.set ≡ seen set.entry }
    ensures origin { result.origin.origin ≡ origin_at (O.table origins.now) id }
    ensures id { result.id ≡ id }
{
    let origin = SoundOrigin {
        origin: origins.get_origin(id),
    };
    OnOrigin { set, origin, id }
}

// What forward and place share once their tests have passed: the core, and 9. Why a point whose angles are not outside is of no type,
// nearest says. At each of the four ends the slots stay and the answer changes,
// in two statements: a function of the slots and of the answer once it is tried is longer, with its clause, than the four.
#[inline(always)]
fn forward_passed<O: Origins>(
    origins: &O,
    set: SetRef<'_>,
    spherical: Spherical,
    origin: u8,
) -> Result<Work<Face>, Refusal>
    requires tests { check_with ieee (O.table origins.now) (seen set) ≡ passed }
    requires id { origin < 12 }
    requires inside { (outside spherical.theta.0 ≡ false) × (outside spherical.phi.0 ≡ false) }
    ensures { given result
        ≡ finish (forward_core ieee (origin_at (O.table origins.now) origin) (seen set.entry) spherical origin) finite_face }
{
    let core = forward_core(on_origin(origins, set, origin), spherical)?;
    let answer = finite_face(core.answer)?;
    Ok(Work {
        answer,
        used: core.used,
    })
}

// What inverse and unplace share: their tests, and the core.
#[inline(always)]
fn inverse_tested<O: Origins>(
    origins: &O,
    set: SetRef<'_>,
    face: Face,
    origin: u8,
) -> Result<Work<Spherical>, Refusal>
    ensures { given result
        ≡ and_then (and_then (and_then (check_with ieee (O.table origins.now) (seen set.entry)) (check_origin origin)) (check_face face))
        (inverse_core ieee (origin_at (O.table origins.now) origin) (seen set.entry) face origin) }
{
    check_call(origins, set, origin)?;
    check_face(face)?;
    inverse_core(on_origin(origins, set, origin), face)
}

// What forward gives, with nothing written yet.
fn forward_work<O: Origins>(
    origins: &O,
    set: SetRef<'_>,
    spherical: Spherical,
    origin: u8,
) -> Result<Work<Face>, Refusal>
    ensures { given result ≡ forward_given ieee (O.table origins.now) (seen set.entry) spherical origin }
{
    check_call(origins, set, origin)?;
    check_spherical(spherical)?;
    forward_passed(origins, set, spherical, origin)
}

// A position on the sphere to a point on an origin's face.
pub fn forward<O: Origins>(
    origins: O,
    set: &mut Set<'_>,
    spherical: Spherical,
    origin: u8,
) -> Result<Face, Refusal>
    ensures { LeavesSet set.old set.new (given result) (λ s. forward_on ieee (O.table origins) s spherical origin) }
{
    let work = forward_work(&origins, set.view(), spherical, origin);
    leave(set, work)
}

// What inverse gives, with nothing written yet.
fn inverse_work<O: Origins>(
    origins: &O,
    set: SetRef<'_>,
    face: Face,
    origin: u8,
) -> Result<Work<Spherical>, Refusal>
    ensures { given result ≡ inverse_given ieee (O.table origins.now) (seen set.entry) face origin }
{
    let core = inverse_tested(origins, set, face, origin)?;
    let answer = finite_spherical(core.answer)?;
    Ok(Work {
        answer,
        used: core.used,
    })
}

// A point on an origin's face back to a position on the sphere.
pub fn inverse<O: Origins>(
    origins: O,
    set: &mut Set<'_>,
    face: Face,
    origin: u8,
) -> Result<Spherical, Refusal>
    ensures { LeavesSet set.old set.new (given result) (λ s. inverse_on ieee (O.table origins) s face origin) }
{
    let work = inverse_work(&origins, set.view(), face, origin);
    leave(set, work)
}

// What place gives, with nothing written yet.
pub fn place_work<O: Origins>(
    origins: &O,
    set: SetRef<'_>,
    lonlat: LonLat,
) -> Result<Work<Place>, Refusal>
    ensures { given result ≡ place_given ieee (O.table origins.now) (seen set.entry) lonlat }
{
    check_with(origins, set)?;
    check_lon_lat(lonlat)?;
    let spherical = from_lon_lat(lonlat);
    let origin = origins.find_nearest_origin(spherical);
    let Work { answer: face, used } = forward_passed(origins, set, spherical, origin)?;
    Ok(Work {
        answer: Place { origin, face },
        used,
    })
}

// A longitude and a latitude to a point on the nearest origin's face.
pub fn place<O: Origins>(origins: O, set: &mut Set<'_>, lonlat: LonLat) -> Result<Place, Refusal>
    ensures { LeavesSet set.old set.new (given result) (λ s. place_on ieee (O.table origins) s lonlat) }
{
    let work = place_work(&origins, set.view(), lonlat);
    leave(set, work)
}

// What unplace gives, with nothing written yet.
fn unplace_work<O: Origins>(
    origins: &O,
    set: SetRef<'_>,
    face: Face,
    origin: u8,
) -> Result<Work<LonLat>, Refusal>
    ensures { given result ≡ unplace_given ieee (O.table origins.now) (seen set.entry) face origin }
{
    let core = inverse_tested(origins, set, face, origin)?;
    let answer = finite_lon_lat(to_lon_lat(core.answer))?;
    Ok(Work {
        answer,
        used: core.used,
    })
}

// A point on an origin's face back to a longitude and a latitude.
pub fn unplace<O: Origins>(
    origins: O,
    set: &mut Set<'_>,
    face: Face,
    origin: u8,
) -> Result<LonLat, Refusal>
    ensures { LeavesSet set.old set.new (given result) (λ s. unplace_on ieee (O.table origins) s face origin) }
{
    let work = unplace_work(&origins, set.view(), face, origin);
    leave(set, work)
}
