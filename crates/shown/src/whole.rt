// The whole text: the header's line, a line for each whole step, and one for a step that is cut short.
ghost use Rattle.std.specs.Prelude.{◌≡◌, length};
ghost use Rattle.printing.specs.Page.{HasRoom, Wrote};
ghost use Rattle.schedule.specs.Bytes.{header};
ghost use Rattle.shown.specs.Shown.{text};

use crate::lines::{write_cut, write_line, write_step};
use book::Size;
use printing::Page;
use schedule::reading::{step_at, steps};

pub fn write_text(page: &mut Page<'_>, input: &[u8], size: Size)
    requires { HasRoom (length (text input.now)) page.old × (header input.now ≡ Some size) }
    ensures { Wrote (text input.now) page.old page.new }
{
    let Size { nb, ne, t } = size;
    write_line(page, "size", &[u32::from(nb), u32::from(ne), u32::from(t)]);
    let whole = steps(input);
    let cut = whole.remainder();
    for step in whole {
        write_step(page, step_at(step, 0));
    }
    if !cut.is_empty() {
        write_cut(page, cut);
    }
}
