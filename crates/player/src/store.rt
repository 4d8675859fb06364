// The store: a schedule that has its header opens a line in it, and its steps are played on that line.
ghost use Rattle.std.specs.Prelude.{◌≡◌};
ghost use Rattle.printing.specs.Page.{Wrote};
ghost use Rattle.player.specs.Spoken.{played_with};
ghost use Rattle.player.specs.Printed.{printed};
ghost use Rattle.player.specs.Parts.{Ready, entries_lent};

use crate::steps::play_steps;
use book::Size;
use byvalue::{no_head, no_table};
use engine::opening::open;
use printing::Page;
use words::Answer;

// The store's entries: as many as the largest line has.
pub const ENTRIES: usize = 4096;

// The entries that a line of nb blocks of ne entries is lent: nb x ne, as far as the store goes. Where
// that is less, the numbers are outside their limits, and opening refuses them.
fn entries_lent(z: Size) -> usize
    ensures { result ≡ entries_lent z.nb z.ne }
{
    (usize::from(z.nb) * usize::from(z.ne)).min(ENTRIES)
}

// The store is all zero; its first nb x ne entries are lent on.
pub fn play_opened(input: &[u8], page: &mut Page<'_>, store: &mut [u32], z: Size)
    requires { Ready input.now page.old store.old }
    ensures { Wrote (printed (played_with input.now z)) page.old page.new }
{
    let n = usize::from(z.nb);
    let m = entries_lent(z);
    let opened = open(no_head(), no_table(), n, &mut store[..m], z);
    match opened.answer {
        Ok(()) => play_steps(input, page, opened.head, opened.table, n, &mut store[..m]),
        Err(w) => page.answer(0, Answer::Refused(w, 0)),
    }
}
