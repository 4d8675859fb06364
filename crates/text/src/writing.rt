// The bytes of a line's item, written on a page.
ghost use Rattle.std.specs.Prelude.{◌≡◌, ◌++◌, ◌∷◌, ◌+◌, ◌*◌, ◌≤◌, length};
ghost use Rattle.printing.specs.Page.{HasRoom, Wrote};
ghost use Rattle.text.specs.Pieces.{words};
ghost use Rattle.text.specs.Items.{name_of};
ghost use Rattle.text.specs.Meaning.{four, step_bytes, word_bytes, repeat, said};

use crate::items::{Item, name_of};
use crate::pieces::{Words, byte_of, count_words, first_word};
use printing::Page;

// The three numbers are an item's own fields, taken apart by the match that comes here: a struct would hold what Item holds.
fn write_step(page: &mut Page<'_>, code: u8, a: u32, b: u32)
    requires { HasRoom 9 page.old }
    ensures { Wrote (step_bytes code a b) page.old page.new }
{
    page.byte(code);
    page.bytes(&a.to_be_bytes());
    page.bytes(&b.to_be_bytes());
}

fn write_steps(page: &mut Page<'_>, times: u32, code: u8, a: u32, b: u32)
    requires { HasRoom (times * 9) page.old }
    ensures { Wrote (repeat times (step_bytes code a b)) page.old page.new }
{
    for _i in 0..times {
        write_step(page, code, a, b);
    }
}

// The bytes that the words of a line say.
fn write_numbers(page: &mut Page<'_>, line: &[u8])
    requires { HasRoom (length (words line.now)) page.old }
    ensures { Wrote (word_bytes (words line.now)) page.old page.new }
{
    for word in Words(line) {
        page.byte(byte_of(word).unwrap_or(0));
    }
}

// A name, a newline, and the length of its schedule in four bytes. The name goes byte by byte: `bytes` asks whether room and
// name overlap, and where a room's place is asked for, it is set to zeros even in a call whose bytes nobody reads.
fn write_name(page: &mut Page<'_>, name: &[u8], k: usize)
    requires { HasRoom (length name.now + 5) page.old }
    ensures { Wrote (name.now ++ (10 ∷ four k)) page.old page.new }
{
    for b in name {
        page.byte(*b);
    }
    page.byte(b'\n');
    page.bytes(&k.to_be_bytes()[4..]);
}

// How many bytes an item has: at most 9 for each of 2^32 steps, or those of its line and 5.
pub fn size_of(line: &[u8], item: Item) -> usize
    ensures is { result ≡ length (said line.now 0 item) }
    ensures most { result ≤ 38654705664 + length line.now }
{
    match item {
        Item::Nothing => 0,
        Item::Header { .. } => 8,
        Item::Steps { times, .. } => times as usize * 9,
        Item::Numbers => count_words(first_word(line).1),
        Item::Named => name_of(line).len() + 5,
    }
}

// The bytes of an item; k is the length of the schedule that a name starts.
#[tactic(auto, using(crate::proofs::Bytes::repeat_long, printing::proofs::Stores::wrote_none), unfolding(crate::specs::Meaning::said))]
pub fn write_item(page: &mut Page<'_>, line: &[u8], k: usize, item: Item)
    requires { HasRoom (length (said line.now k item)) page.old }
    ensures { Wrote (said line.now k item) page.old page.new }
{
    match item {
        Item::Nothing => {}
        Item::Header { nb, ne, t } => page.bytes(&[b'L', b'B', b'Q', 0, 1, nb, ne, t]),
        Item::Steps { times, code, a, b } => write_steps(page, times, code, a, b),
        Item::Numbers => write_numbers(page, first_word(line).1),
        Item::Named => write_name(page, name_of(line), k),
    }
}
