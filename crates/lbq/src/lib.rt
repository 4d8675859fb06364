#![tactic(auto)]

// The portal's calls for C and Rust. `make lib` writes them to target/staticlib/liblbq.a.
//
// What crosses are numbers and records of numbers. A caller lends its own memory, head, table and entries, laid out as
// C lays out
//
//     typedef struct { uint16_t stage, place; uint32_t turn; } Desk;
//     typedef struct { uint16_t nb, ne, t, reading; uint32_t p, k; Desk desks[16]; } Head;
//     typedef struct { uint16_t round, written, claimed, finished; } Block;
//
// A slice is two arguments, where it begins and how many it has:
//
//     Reply lbq_open(Head *head, Block *table, size_t table_len, uint32_t *entries, size_t entries_len,
//                    uint32_t nb, uint32_t ne, uint32_t t);
//
// and so for the others, with the numbers last; `lbq_check` and `lbq_survey` take `const` pointers and no number.
//
// Sizes and codes are 32 bits wide, so that no conversion in C makes a fit number of an unfit one: a size above 65,535
// is UNFIT, and a code above 255 is BADSTEP. Any numbers and any lengths may be given: no call asks for anything
// beforehand, and each promises its whole outcome, refusals included, as one equation with the definitions of the line,
// at the numbers as they are given: specs/Promises.antt.
//
// Outside the contract is memory that is not there to be lent: a null pointer (also with length 0), one that is not
// aligned for its type, parts that overlap, and parts that somebody else reads or writes during a call. No call can
// tell, and nothing is promised then.
mod narrow;
mod replies;
mod version;

ghost use Rattle.portal.specs.Promises.{lent, the_size, the_step};
ghost use Rattle.lbq.specs.Promises.{RepliesOpening, RepliesStep, RepliesOrder, RepliesCheck, RepliesSurvey};

use line::{Block, Head};
use replies::{CheckReply, Reply, SurveyReply};

// Opens a line of nb blocks, ne entries a block and t desks in what is lent.
#[unsafe(no_mangle)]
pub extern "C" fn lbq_open(
    head: &mut Head,
    table: &mut [Block],
    entries: &mut [u32],
    nb: u32,
    ne: u32,
    t: u32,
) -> Reply
    ensures { RepliesOpening (lent head.old table.old entries.old) (the_size nb ne t) result (lent head.new table.new entries.new) }
{
    let opening = portal::open(
        head,
        table,
        entries,
        narrow::size(nb),
        narrow::size(ne),
        narrow::size(t),
    );
    Reply::from(opening)
}

// One step: a code and two numbers.
#[unsafe(no_mangle)]
pub extern "C" fn lbq_step(
    head: &mut Head,
    table: &mut [Block],
    entries: &mut [u32],
    code: u32,
    a: u32,
    b: u32,
) -> Reply
    ensures { RepliesStep (lent head.old table.old entries.old) (the_step code a b) result (lent head.new table.new entries.new) }
{
    let answer = portal::step(head, table, entries, narrow::code(code), a, b);
    Reply::from(answer)
}

// The labels first to last, both included.
#[unsafe(no_mangle)]
pub extern "C" fn lbq_order(
    head: &mut Head,
    table: &mut [Block],
    entries: &mut [u32],
    first: u32,
    last: u32,
) -> Reply
    ensures { RepliesOrder (lent head.old table.old entries.old) first last result (lent head.new table.new entries.new) }
{
    let answer = portal::order(head, table, entries, first, last);
    Reply::from(answer)
}

// Is the line sound? Nothing is changed.
#[unsafe(no_mangle)]
pub extern "C" fn lbq_check(head: &Head, table: &[Block], entries: &[u32]) -> CheckReply
    ensures { RepliesCheck (lent head.now table.now entries.now) result }
{
    let checked = portal::check(head, table, entries);
    CheckReply::from(checked)
}

// Where could an idle desk take from? Nothing is changed.
#[unsafe(no_mangle)]
pub extern "C" fn lbq_survey(head: &Head, table: &[Block], entries: &[u32]) -> SurveyReply
    ensures { RepliesSurvey (lent head.now table.now entries.now) result }
{
    let survey = portal::survey(head, table, entries);
    SurveyReply::from(survey)
}
