// The lines of a text, one after the other.
ghost use Rattle.std.specs.Prelude.{◌≡◌, [], ◌≤◌, length};
ghost use Rattle.text.specs.Pieces.{lines};
ghost use Rattle.text.specs.declared.items.Item.TheVariants.{Named};
ghost use Rattle.text.specs.Meaning.{section, going};
ghost use Rattle.text.specs.Parts.{Filled};

use crate::items::{Item, item_of};
use crate::pieces::Lines;
use crate::wanted::{Bad, Wanted};
use crate::writing::{size_of, write_item};
use printing::Page;

// How many bytes the lines of a text have, up to the next name. The text's length bounds the sum: a clause here and where it
// is asked for, since a type for it would be made of the text that `bytes_of` has just measured, and taken apart at once.
fn section_of(text: &[u8]) -> usize
    requires { length text.now ≤ 262144 }
    ensures { result ≡ section (lines text.now) }
{
    let mut total = 0;
    for (line, _) in Lines(text) {
        if let Ok(item) = item_of(line) {
            match item {
                Item::Named => return total,
                _ => total += size_of(line, item),
            }
        }
    }
    total
}

// The length that an item says: a name's is that of the schedule behind it. Any other says none, and its 0 is not written: an
// Option would be opened again at the name that is known to have one.
fn length_said(item: Item, behind: &[u8]) -> usize
    requires { length behind.now ≤ 262144 }
    ensures { item ≡ Named → result ≡ section (lines behind.now) }
{
    match item {
        Item::Named => section_of(behind),
        _ => 0,
    }
}

// The bytes of all lines, or the first that is refused.
pub fn fill(page: &mut Page<'_>, text: &[u8]) -> Result<(), Bad>
    requires { (length text.now ≤ 262144) × (page.old.len ≡ 0) × (length page.old.room.now ≡ 262144) }
    ensures { Filled (going 1 [] (lines text.now)) page.old result page.new }
{
    for (i, (line, behind)) in Lines(text).enumerate() {
        let number = i + 1;
        let item = match item_of(line) {
            Ok(item) => item,
            Err(wanted) => return Err(Bad::Line(number, wanted)),
        };
        if page.room.len() - page.len < size_of(line, item) {
            return Err(Bad::Line(number, Wanted::Room));
        }
        let k = length_said(item, behind);
        write_item(page, line, k, item);
    }
    Ok(())
}
