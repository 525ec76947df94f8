// The twelve origins that a call is made with: the built-in table, or one that is handed over. Each call on a set is generic
// over them, so that what it does and what it is proved to do stand once.
ghost use Rattle.std.specs.Prelude.{◌≡◌, ◌<◌, true, false, List, Float};
ghost use Rattle.answer.specs.Answer.{given};
ghost use Rattle.arithmetic.specs.Arith.{ieee};
ghost use Rattle.elementary.specs.Sine.{outside};
ghost use Rattle.origin.specs.Origins.{ORIGINS, origin_at};
ghost use Rattle.origin.specs.Table.{numbers_sound, check_table};
ghost use Rattle.nearest.specs.Nearest.{haversines, nearest_origin};

use crate::{haversines, haversines_in, least};
use answer::Refusal;
use coordinates::spherical::Spherical;
use origin::origin::{built_in, get_origin};
use origin::table::{SoundTable, check_rows, origin_in};
use origin::utils::Origin;

pub trait Origins: Copy {
    // the 84 numbers of their table
    ghost table: { Self → List Float };

    // The table's numbers.
    fn rows(&self) -> [f64; 84]
        ensures { result ≡ table self.now };

    // 21, 22: the tests of a table that is handed over; the built-in one passes them.
    fn check(&self) -> Result<(), Refusal>
        ensures { given result ≡ check_table ieee (table self.now) };

    // The origin with the number id. Why an id below 12 is of no type, `origin::table` says.
    fn get_origin(&self, id: u8) -> Origin
        requires { id < 12 }
        ensures { result ≡ origin_at (table self.now) id };

    // From the point to each of the twelve axes.
    fn haversines(&self, point: Spherical) -> [f64; 12]
        requires table_value { numbers_sound (table self.now) ≡ true }
        requires point { (outside point.theta.0 ≡ false) × (outside point.phi.0 ≡ false) }
        ensures { result ≡ haversines ieee (table self.now) point };

    // The lowest-numbered origin with the least haversine, without the checks of the call.
    final fn find_nearest_origin(&self, point: Spherical) -> u8
        requires table_value { numbers_sound (table self.now) ≡ true }
        requires point { (outside point.theta.0 ≡ false) × (outside point.phi.0 ≡ false) }
        ensures { result ≡ nearest_origin ieee (table self.now) point }
    {
        let distances = self.haversines(point);
        least(&distances)
    }
}

// The built-in table.
#[derive(Clone, Copy)]
pub struct BuiltIn;

impl Origins for BuiltIn {
    ghost table = { λ it. ORIGINS };

    fn rows(&self) -> [f64; 84] {
        built_in()
    }

    fn check(&self) -> Result<(), Refusal> {
        Ok(())
    }

    fn get_origin(&self, id: u8) -> Origin {
        get_origin(id)
    }

    fn haversines(&self, point: Spherical) -> [f64; 12] {
        haversines(point)
    }
}

// A table that is handed over, by value.
impl Origins for [f64; 84] {
    ghost table = { λ it. it };

    fn rows(&self) -> [f64; 84] {
        *self
    }

    fn check(&self) -> Result<(), Refusal> {
        check_rows(self)
    }

    fn get_origin(&self, id: u8) -> Origin {
        origin_in(self, id)
    }

    fn haversines(&self, point: Spherical) -> [f64; 12] {
        let table = SoundTable { rows: self };
        haversines_in(table, point)
    }
}
