#![tactic(auto)]

// A schedule as text: bytes to text.
//
// `text_of` takes bytes of any kind. What the player would play is written as text to the front of `out`; of
// what the player refuses, the reason is the answer, and `out` is as it was. specs/Shown.antt says what the
// text is: a line for the header, one for each step, and one for a step that is cut short.
mod lines;
mod whole;

ghost use Rattle.std.specs.Prelude.{◌≡◌, Some, codes};
ghost use Rattle.shown.specs.Shown.{outcome, played, word_of};

use book::Size;
use printing::Page;
use schedule::reading::{header, is_long};
use std::fmt;
use whole::write_text;

// Room for the text of every schedule, and the longest text that `text` takes.
pub const ROOM: usize = 262144;

// Why the player refuses a schedule.
#[derive(Clone, Copy, Debug, PartialEq, Eq)]
pub enum Unshown {
    Long,
    Header,
    Unfit,
}

// The player's word for it.
impl fmt::Display for Unshown {
    ghost output = { λ why. Some (codes (word_of why)) };

    fn fmt<W: fmt::Write>(&self, f: &mut fmt::Formatter<W>) -> fmt::Result {
        match *self {
            Unshown::Long => f.write_str("LONG"),
            Unshown::Header => f.write_str("HEADER"),
            Unshown::Unfit => f.write_str("UNFIT"),
        }
    }
}

// The numbers of a schedule that the player plays.
#[tactic(auto, unfolding(crate::specs::Shown::played, schedule::specs::Bytes::header))]
fn played(input: &[u8]) -> Result<Size, Unshown>
    ensures { result ≡ played input.now }
{
    if is_long(input) {
        return Err(Unshown::Long);
    }
    let size = header(input).ok_or(Unshown::Header)?;
    if size.fits() {
        Ok(size)
    } else {
        Err(Unshown::Unfit)
    }
}

pub fn text_of(input: &[u8], out: &mut [u8; ROOM]) -> Result<usize, Unshown>
    ensures { (result, out.new) ≡ outcome input.now out.old }
{
    let size = played(input)?;
    let mut page = Page::new(out);
    write_text(&mut page, input, size);
    Ok(page.len)
}
