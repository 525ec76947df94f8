// The checks of the calls on a set: 1 to 4, and those of a table.
ghost use Rattle.std.specs.Prelude.{◌≡◌};
ghost use Rattle.answer.specs.Answer.{given};
ghost use Rattle.arithmetic.specs.Arith.{ieee};
ghost use Rattle.set.specs.Checks.{check_origin, check_call, check_with};
ghost use Rattle.set.specs.Lent.{seen};

use crate::set::SetRef;
use answer::Refusal;
use nearest::origins::Origins;

// 4.
pub fn check_origin(origin: u8) -> Result<(), Refusal>
    ensures { given result ≡ check_origin origin }
{
    if origin > 11 {
        return Err(Refusal::UnknownOrigin);
    }
    Ok(())
}

// 1, 2, 3, 4.
pub fn check_call(set: SetRef<'_>, origin: u8) -> Result<(), Refusal>
    ensures { given result ≡ check_call (seen set.entry) origin }
{
    set.check()?;
    check_origin(origin)
}

// 1, 2, 3, and 21, 22 of a table that is handed over.
pub fn check_with<O: Origins>(origins: &O, set: SetRef<'_>) -> Result<(), Refusal>
    ensures { given result ≡ check_with ieee (O.table origins.now) (seen set.entry) }
{
    set.check()?;
    origins.check()
}
