// The sheet of Paper 13 as a C function. The page is a pointer and how many bytes there are, as every slice.
ghost use Rattle.exports_tools.specs.Sheets.{SheetFor};

use window::Window;

// Sheet: prints a window's counts on a page of 4,860 bytes.
#[unsafe(no_mangle)]
pub extern "C" fn a5_sheet(window: &Window, page: &mut [u8]) -> u8
    ensures { SheetFor window.now.counts page.old result page.new }
{
    let given = sheet::sheet(window, page);
    answer::status(given)
}
