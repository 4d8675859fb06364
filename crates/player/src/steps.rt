// The steps of a schedule, one after the other, on the line that was opened for it.
ghost use Rattle.std.specs.Prelude.{◌≡◌, suc, ◌<◌};
ghost use Rattle.byvalue.specs.Lent.{line_of};
ghost use Rattle.printing.specs.Text.{numbers_below};
ghost use Rattle.printing.specs.Page.{Wrote};
ghost use Rattle.player.specs.Spoken.{run};
ghost use Rattle.player.specs.Printed.{printed};
ghost use Rattle.player.specs.Parts.{Playable};

use engine::step::step;
use line::{Block, Head};
use printing::Page;
use schedule::reading::{is_cut, step_at, whole_steps};
use schedule::{HEADER, STEP};

// Steps are numbered from 1. A number is below 10,000, so the cast leaves it as it is, and no TryFrom can fail.
fn number_of(i: usize) -> u32
    requires { suc i < numbers_below }
    ensures { result ≡ suc i }
{
    (i + 1) as u32
}

// A line for each whole step, and one for a step cut short.
pub fn play_steps(
    input: &[u8],
    page: &mut Page<'_>,
    opened: Head,
    records: [Block; 64],
    n: usize,
    entries: &mut [u32],
)
    requires { Playable input.now page.old (line_of opened records n entries.old) n }
    ensures { Wrote (printed (run input.now (line_of opened records n entries.old))) page.old page.new }
{
    let mut head = opened;
    let mut table = records;
    for (i, bytes) in input[HEADER..].chunks_exact(STEP).enumerate() {
        let s = step_at(bytes, 0);
        let went = step(head, table, n, entries, s.code, s.a, s.b);
        head = went.head;
        table = went.table;
        page.answer(number_of(i), went.answer);
    }
    if is_cut(input) {
        page.line(number_of(whole_steps(input)), "CUT", 0);
    }
}
