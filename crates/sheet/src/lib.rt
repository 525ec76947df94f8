// Paper 13: the as-run sheet, a page of 60 lines of 80 columns with the twelve counts of a window. `sheet` is lent the
// window and the page; `print` does the work, on the counts alone. Neither has a `requires`: whatever the window holds,
// every byte of the page is defined.
#![tactic(auto)]

mod line;
mod text;

ghost use Rattle.std.specs.Prelude.{◌≡◌, length};
ghost use Rattle.sheet.specs.Page.{page_of};
ghost use Rattle.sheet.specs.Sheet.{SheetOf};

use crate::line::write_line;
use answer::Refusal;
use window::Window;

// The bytes of a page, and those of a line with its newline.
pub const PAGE: usize = 4860;

const LINE: usize = 81;

// Every line of the page in turn, each at its place: what is written through `chunks_exact_mut`, no proof knows.
fn write_page(page: &mut [u8], counts: &[u32; 12])
    requires { length page.old ≡ 4860 }
    ensures { page.new ≡ page_of counts.now }
{
    for place in 0..60 {
        let at = place * LINE;
        write_line(&mut page[at..at + LINE], place, counts);
    }
}

// The sheet of twelve counts, or 26 and the page as it was.
pub fn print(counts: [u32; 12], page: &mut [u8]) -> Result<(), Refusal>
    ensures { SheetOf counts page.old result page.new }
{
    if page.len() != PAGE {
        return Err(Refusal::PageLength);
    }
    write_page(page, &counts);
    Ok(())
}

// The sheet of the window that is lent, or 26 and the page as it was. Of the window only the counts are read.
pub fn sheet(window: &Window, page: &mut [u8]) -> Result<(), Refusal>
    ensures { SheetOf window.now.counts page.old result page.new }
{
    print(window.counts, page)
}
