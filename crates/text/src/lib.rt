#![tactic(auto)]

// A schedule as text: text to bytes.
//
// `bytes_of` takes a text of any bytes and writes what it means to the front of `out`, or says which line is
// refused and what was wanted there, with `out` as it was. What a text means stands in specs/Meaning.antt.
mod items;
mod lines;
mod pieces;
mod wanted;
mod writing;

ghost use Rattle.std.specs.Prelude.{◌≡◌};
ghost use Rattle.text.specs.Meaning.{meaning, outcome};

use lines::fill;
use printing::Page;
pub use wanted::{Bad, Wanted};

// Room for the bytes of every text that is taken.
pub const ROOM: usize = 262144;

// How many bytes were made.
pub fn bytes_of(text: &[u8], out: &mut [u8; ROOM]) -> Result<usize, Bad>
    ensures { (result, out.new) ≡ outcome (meaning text.now) out.old }
{
    if text.len() > ROOM {
        return Err(Bad::TooLong);
    }
    let mut room = [0u8; ROOM];
    let mut page = Page::new(&mut room);
    fill(&mut page, text)?;
    let made = page.len;
    out[..made].copy_from_slice(&page.room[..made]);
    Ok(made)
}
