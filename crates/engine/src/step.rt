// A step and an order, as they are called: the check first, then what the code asks for.
ghost use Rattle.std.specs.Prelude.{◌≡◌};
ghost use Rattle.book.specs.Messages.{raw};
ghost use Rattle.book.specs.Steps.{decode};
ghost use Rattle.engine.specs.Promises.{GivesDeed, GivesStep, GivesOrder};

use book::{Deed, DeskStep};
use byvalue::Outcome;
use desks::desk_step;
use line::{Block, Head};
use rules::check;
use words::{Answer, Refusal};

// One match over single values and ranges, as the customer asked: the paper's table of codes, line by line.
fn deed_of(code: u8, a: u32, b: u32) -> Deed
    ensures { result ≡ decode (raw code a b) }
{
    match code {
        0 => Deed::Put(a),
        1 => Deed::Get,
        2 => Deed::Order(a, b),
        16..=31 => Deed::Desk(code - 16, DeskStep::Claim),
        32..=47 => Deed::Desk(code - 32, DeskStep::Fetch),
        48..=63 => Deed::Desk(code - 48, DeskStep::Finish),
        64..=79 => Deed::Desk(code - 64, DeskStep::Look(a)),
        _ => Deed::Unlisted,
    }
}

// A deed on a sound line. On any other it is UNFIT or DAMAGED, whatever the deed. The step and the order come here with a
// deed, and not with a closure: the deeds are a closed enum, and a closure is no plainer.
fn perform(
    h: Head,
    table: [Block; 64],
    n: usize,
    entries: &mut [u32],
    deed: Deed,
) -> Outcome<Answer>
    ensures { GivesDeed h table n entries.old deed result entries.new }
{
    if let Err(fault) = check(h, table, n, entries.len()) {
        return Outcome::refused(Refusal::from(fault), h, table);
    }
    match deed {
        Deed::Put(label) => owner::put(h, table, entries, label),
        Deed::Get => owner::get(h, table, entries),
        Deed::Order(first, last) => owner::order(h, table, entries, first, last),
        Deed::Desk(d, s) => desk_step(h, table, entries, d, s),
        Deed::Unlisted => Outcome::refused(Refusal::Badstep, h, table),
    }
}

// An order of the labels a to b, as a call of its own.
#[tactic(auto, unfolding(line::specs::Calls::orders, line::specs::Line::does))]
pub fn order(
    h: Head,
    table: [Block; 64],
    n: usize,
    entries: &mut [u32],
    a: u32,
    b: u32,
) -> Outcome<Answer>
    ensures { GivesOrder h table n entries.old a b result entries.new }
{
    perform(h, table, n, entries, Deed::Order(a, b))
}

// A step: a code and two numbers, one by one as they cross the C interface.
#[tactic(auto, unfolding(line::specs::Calls::step))]
pub fn step(
    h: Head,
    table: [Block; 64],
    n: usize,
    entries: &mut [u32],
    code: u8,
    a: u32,
    b: u32,
) -> Outcome<Answer>
    ensures { GivesStep h table n entries.old (raw code a b) result entries.new }
{
    perform(h, table, n, entries, deed_of(code, a, b))
}
