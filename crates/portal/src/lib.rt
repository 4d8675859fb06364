#![tactic(auto)]

// The portal: what the firm's portal calls.
//
// A portal keeps three things for each press and lends them with every call: the head, the table of NB
// block records, and NB x NE entries of 32 bits. Between calls nobody writes them. No number and no
// length is asked for beforehand: a call that cannot be done answers with one of the paper's refusals,
// and leaves what was lent as it was, unless the paper says otherwise.
//
//     open     makes a line of what is lent: Ok, or Unfit
//     step     one message of the owner or of a desk: its answer
//     order    puts the labels first to last until one is refused: Whole, or the refusal with the count
//     check    is the line sound: Ok, or its fault: Unfit, or the place and the rule that is broken
//     survey   at which blocks a look would be SEEN: a mask, their number, the lowest; or a refusal
//
// A line of 2 blocks of 2 entries, for 1 desk, with its first label:
//
//     let opening = portal::open(&mut head, &mut table, &mut entries, 2, 2, 1);
//     let answer = portal::step(&mut head, &mut table, &mut entries, 0, 7, 0);
//
// `words::number`, `words::value` and `words::word` tell an answer's number, value and word. Each
// call's promise is one equation with the line's own definitions: specs/Promises.antt.
//
// Head, table and entries come one by one, and so do the numbers of `open` and `step`, as they cross the C interface.
ghost use Rattle.engine.specs.Promises.{GivesOpening, GivesStep, GivesOrder};
ghost use Rattle.portal.specs.Lending.{Lends};
ghost use Rattle.portal.specs.Promises.{lent, the_size, the_step, Opens, Steps, Orders, Checks, Surveys};

use book::Size;
use byvalue::Outcome;
use line::{Block, Fault, Findings, Head};
use words::{Answer, Refusal};

// One call by value on what is lent. The head is unpacked and the records are loaded; the records and the head that the
// call gives back are stored.
fn lend<A, F: FnOnce(Head, [Block; 64], usize, &mut [u32]) -> Outcome<A>>(
    head: &mut Head,
    table: &mut [Block],
    entries: &mut [u32],
    call: F,
) -> A
    requires { F.IsAlwaysCallable call }
    ensures { Lends F.FnOnce call (lent head.old table.old entries.old) result (lent head.new table.new entries.new) }
{
    let after = call(*head, table::load(table), table.len(), entries);
    table::store(table, after.table);
    *head = after.head;
    after.answer
}

// Opens a line of nb blocks, ne entries a block and t desks in what is lent.
pub fn open(
    head: &mut Head,
    table: &mut [Block],
    entries: &mut [u32],
    nb: u16,
    ne: u16,
    t: u16,
) -> Result<(), Refusal>
    ensures { Opens (lent head.old table.old entries.old) (the_size nb ne t) result (lent head.new table.new entries.new) }
{
    let z = Size { nb, ne, t };
    lend(
        head,
        table,
        entries,
        |h, records, n, es|
            ensures { GivesOpening h records n es.old z result es.new }
        { engine::opening::open(h, records, n, es, z) },
    )
}

// One step: a code and two numbers.
pub fn step(
    head: &mut Head,
    table: &mut [Block],
    entries: &mut [u32],
    code: u8,
    a: u32,
    b: u32,
) -> Answer
    ensures { Steps (lent head.old table.old entries.old) (the_step code a b) result (lent head.new table.new entries.new) }
{
    lend(
        head,
        table,
        entries,
        |h, records, n, es|
            ensures { GivesStep h records n es.old (the_step code a b) result es.new }
        { engine::step::step(h, records, n, es, code, a, b) },
    )
}

// The labels first to last, both included.
pub fn order(
    head: &mut Head,
    table: &mut [Block],
    entries: &mut [u32],
    first: u32,
    last: u32,
) -> Answer
    ensures { Orders (lent head.old table.old entries.old) first last result (lent head.new table.new entries.new) }
{
    lend(
        head,
        table,
        entries,
        |h, records, n, es|
            ensures { GivesOrder h records n es.old first last result es.new }
        { engine::step::order(h, records, n, es, first, last) },
    )
}

// Is the line sound? Nothing is changed. One line, as the survey's below: `lend` is for calls that give something back.
pub fn check(head: &Head, table: &[Block], entries: &[u32]) -> Result<(), Fault>
    ensures { Checks (lent head.now table.now entries.now) result }
{
    rules::check(*head, table::load(table), table.len(), entries.len())
}

// Where could an idle desk take from? Nothing is changed.
pub fn survey(head: &Head, table: &[Block], entries: &[u32]) -> Result<Findings, Refusal>
    ensures { Surveys (lent head.now table.now entries.now) result }
{
    engine::survey::survey(*head, table::load(table), table.len(), entries.len())
}
