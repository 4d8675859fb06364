#![tactic(auto)]

// A line by value: the head, a table of 64 records of which the first n were lent, and the entries, which
// are changed in place.
//
// Here is what every call by value shares: what it gives (`Outcome`), where a place stands among the entries
// (`entries`), and the records of a line that is opened. specs/Lent.antt says which line is lent,
// specs/GivenBack.antt what is given back, and specs/Ready.antt what the check has shown.
//
// Nothing is allocated: the table has a fixed size, and the number n goes with it. `Ready` stays a clause of the steps: it is
// a fact of head, table and entries, and the entries are lent apart, so a type of the other two would leave a clause on them.
pub mod entries;

ghost use Rattle.std.specs.Prelude.{◌≡◌, replicate};
ghost use Rattle.book.specs.Steps.{idle as idle_desk};
ghost use Rattle.book.specs.Sizes.{sized};
ghost use Rattle.line.specs.Line.{numbers_of, unused as unused_block, opened};

use book::Size;
use line::{Block, Desk, Head};
use words::{Answer, Refusal};

// What a call gives: the answer, the head and the table.
#[derive(Clone, Copy, Debug, PartialEq, Eq)]
pub struct Outcome<A> {
    pub answer: A,
    pub head: Head,
    pub table: [Block; 64],
}

impl Outcome<Answer> {
    // A refusal, with head and table as they were.
    pub fn refused(w: Refusal, head: Head, table: [Block; 64]) -> Outcome<Answer>
        ensures { result ≡ record { answer = Answer.Refused w 0; head = head; table = table } }
    {
        Outcome {
            answer: Answer::Refused(w, 0),
            head,
            table,
        }
    }
}

// An idle desk, written as zeros.
pub fn idle() -> Desk
    ensures { result ≡ numbers_of idle_desk }
{
    Desk {
        stage: 0,
        place: 0,
        turn: 0,
    }
}

pub fn unused() -> Block
    ensures { result ≡ unused_block }
{
    Block {
        round: 0,
        written: 0,
        claimed: 0,
        finished: 0,
    }
}

// The head of a line that is opened: zeros but for its numbers, all sixteen desks idle.
#[tactic(auto, unfolding(line::specs::Line::opened))]
pub fn fresh(z: Size) -> Head
    ensures { result ≡ (opened z).head }
{
    Head {
        nb: z.nb,
        ne: z.ne,
        t: z.t,
        reading: 0,
        p: 0,
        k: 0,
        desks: [idle(); 16],
    }
}

// A head and a table of zeros: what a caller opens over who has none.
pub fn no_head() -> Head
    ensures { result ≡ (opened (sized 0 0 0)).head }
{
    fresh(Size { nb: 0, ne: 0, t: 0 })
}

pub fn no_table() -> [Block; 64]
    ensures { result ≡ replicate 64 unused_block }
{
    [unused(); 64]
}
