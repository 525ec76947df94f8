// Fair turns as a C function.
ghost use Rattle.std.specs.Prelude.{◌≡◌};
ghost use Rattle.turns.specs.Turns.{turns_given, grants_after};
ghost use Rattle.answer.specs.Given.{status};

// Fair turns: what each of sixteen channels gets of a turn's 256 place calls goes to grants.
#[unsafe(no_mangle)]
pub extern "C" fn a5_fair_turns(wishes: &[u16], grants: &mut [u16]) -> u8
    ensures answer { result ≡ status (turns_given wishes.now grants.old) }
    ensures grants { grants.new
        ≡ grants_after (turns_given wishes.now grants.old) wishes.now grants.old }
{
    let given = fair_turns::fair_turns(wishes, grants);
    answer::status(given)
}
