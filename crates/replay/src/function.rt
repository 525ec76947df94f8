// The functions of a list.
ghost use Rattle.std.specs.Prelude.{◌≡◌, ◌-◌, ◌<◌, IsNone, slice_get};

// A function's name, and how many arguments each of its records has. Its number is its place in the list of the functions,
// counted from 1.
#[derive(Clone, Copy)]
pub struct Function {
    pub name: &'static str,
    pub arguments: u8,
}

impl Function {
    // A function's name, and how many arguments it has.
    pub fn new(name: &'static str, arguments: u8) -> Function
        ensures name { result.name.now ≡ name.now }
        ensures arguments { result.arguments ≡ arguments }
    {
        Function { name, arguments }
    }
}

// The function with a number, if there is one.
pub fn numbered(functions: &[Function], number: u8) -> Option<Function>
    ensures from_one { 0 < number → result ≡ slice_get functions.now (number - 1) }
    ensures none { number ≡ 0 → IsNone result }
{
    let place = usize::from(number).checked_sub(1)?;
    functions.get(place).copied()
}
