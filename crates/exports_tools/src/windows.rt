// The window of Paper 5 as C functions. A window is lent by a pointer to the struct, which has one size, so there is no
// length to be wrong. Whatever the struct holds, each call ends.
ghost use Rattle.std.specs.Prelude.{◌≡◌};
ghost use Rattle.window.specs.Window.{empty_window};
ghost use Rattle.exports_tools.specs.Windows.{AddedFor};

use window::Window;

// New: makes the window empty, whatever stood there.
#[unsafe(no_mangle)]
pub extern "C" fn a5_window_new(window: &mut Window)
    ensures { window.new ≡ empty_window }
{
    *window = Window::new();
}

// Add: one strike, by its minute and its origin.
#[unsafe(no_mangle)]
pub extern "C" fn a5_window_add(window: &mut Window, minute: u32, origin: u8) -> u8
    ensures { AddedFor window.old minute origin result window.new }
{
    let given = window.add(minute, origin);
    answer::status(given)
}

// The twelve counts of the kept strikes.
#[unsafe(no_mangle)]
pub extern "C" fn a5_window_counts(window: &Window, counts: &mut [u32; 12])
    ensures { counts.new ≡ window.now.counts }
{
    *counts = window.counts;
}

// How many strikes are kept.
#[unsafe(no_mangle)]
pub extern "C" fn a5_window_kept(window: &Window) -> u32
    ensures { result ≡ window.now.state.kept }
{
    window.state.kept
}
