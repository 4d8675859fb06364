#![tactic(auto)]

// The schedule player: a schedule's bytes in, the printed lines out.
//
// `play` takes the whole schedule, of any length, and writes its text to the front of `out`. What playing
// a schedule says stands in specs/Spoken.antt, the text of its lines in specs/Printed.antt, and the
// promise in specs/Promises.antt: the text, its length, and nothing behind it changed.
mod steps;
mod store;

ghost use Rattle.printing.specs.Page.{HasRoom, Wrote};
ghost use Rattle.player.specs.Spoken.{played};
ghost use Rattle.player.specs.Printed.{printed};
ghost use Rattle.player.specs.Promises.{Plays};
ghost use Rattle.player.specs.Parts.{text_bytes};

use printing::Page;
use schedule::reading::{header, is_long};
use store::{ENTRIES, play_opened};

// Room for every text: a line for each step of the longest schedule.
pub const TEXT: usize = schedule::STEPS * printing::LINE;

// Plays a schedule.
pub fn play(input: &[u8], out: &mut [u8; TEXT]) -> usize
    ensures { Plays input.now out.old result out.new }
{
    let mut page = Page::new(out);
    play_on(input, &mut page);
    page.len
}

// What the schedule says, on a page that has room for it. The store is all zero before the first byte is read.
fn play_on(input: &[u8], page: &mut Page<'_>)
    requires { HasRoom text_bytes page.old }
    ensures { Wrote (printed (played input.now)) page.old page.new }
{
    let mut store = [0u32; ENTRIES];
    if is_long(input) {
        page.line(0, "LONG", 0);
        return;
    }
    match header(input) {
        Some(z) => play_opened(input, page, &mut store, z),
        None => page.line(0, "HEADER", 0),
    }
}
