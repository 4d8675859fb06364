#![tactic(auto)]

// The answers of a line, in the paper's words.
//
// A step that is taken answers PUT, GOT, TOOK, WHOLE, SEEN, CLAIMED or DONE; a step that is not
// answers one of the fifteen refusals. Each answer carries its value: a label, a count, a place,
// or 0. The paper's number, the value and the printed word of every case stand in one definition,
// `said` in specs/Words.antt, and the functions here read it off.
ghost use Rattle.std.specs.Prelude.{◌≡◌};
ghost use Rattle.words.specs.Promises.{Numbered, Valued, Worded};
ghost use Rattle.words.specs.Words.{Refused};

// The paper's table of refusals, with its numbers.
#[derive(Clone, Copy, Debug, PartialEq, Eq)]
pub enum Refusal {
    Unfit = 1,
    Damaged = 2,
    Badstep = 3,
    Nodesk = 4,
    Noblock = 5,
    Stage = 6,
    Owned = 7,
    Nothing = 8,
    Lost = 9,
    Notlabel = 10,
    Range = 11,
    Worn = 12,
    Full = 13,
    Busy = 14,
    Empty = 15,
}

// A refusal's value is 0, except for an order's: the labels that it had placed. It stands beside the good answers, and is no
// Err, since one table, `said`, has number, value and word of them all.
#[derive(Clone, Copy, Debug, PartialEq, Eq)]
pub enum Answer {
    Put(u32),
    Got(u32),
    Took(u32),
    Whole(u32),
    Seen(u32),
    Claimed(u32),
    Done,
    Refused(Refusal, u32),
}

// The refusal's number, and 0 for an answer that is none.
pub fn number(a: Answer) -> u32
    ensures { Numbered a result }
{
    match a {
        Answer::Refused(w, _) => refusal_number(w),
        _ => 0,
    }
}

// The value that is printed.
pub fn value(a: Answer) -> u32
    ensures { Valued a result }
{
    match a {
        Answer::Put(label) => label,
        Answer::Got(label) => label,
        Answer::Took(label) => label,
        Answer::Whole(count) => count,
        Answer::Seen(place) => place,
        Answer::Claimed(place) => place,
        Answer::Done => 0,
        Answer::Refused(_, count) => count,
    }
}

// The word that is printed.
pub fn word(a: Answer) -> &'static str
    ensures { Worded a result.now }
{
    match a {
        Answer::Put(_) => "PUT",
        Answer::Got(_) => "GOT",
        Answer::Took(_) => "TOOK",
        Answer::Whole(_) => "WHOLE",
        Answer::Seen(_) => "SEEN",
        Answer::Claimed(_) => "CLAIMED",
        Answer::Done => "DONE",
        Answer::Refused(w, _) => refusal_word(w),
    }
}

// The number in the paper's table.
pub fn refusal_number(w: Refusal) -> u32
    ensures { Numbered (Refused w 0) result }
{
    w as u32
}

// The word in the paper's table.
fn refusal_word(w: Refusal) -> &'static str
    ensures { Worded (Refused w 0) result.now }
{
    match w {
        Refusal::Unfit => "UNFIT",
        Refusal::Damaged => "DAMAGED",
        Refusal::Badstep => "BADSTEP",
        Refusal::Nodesk => "NODESK",
        Refusal::Noblock => "NOBLOCK",
        Refusal::Stage => "STAGE",
        Refusal::Owned => "OWNED",
        Refusal::Nothing => "NOTHING",
        Refusal::Lost => "LOST",
        Refusal::Notlabel => "NOTLABEL",
        Refusal::Range => "RANGE",
        Refusal::Worn => "WORN",
        Refusal::Full => "FULL",
        Refusal::Busy => "BUSY",
        Refusal::Empty => "EMPTY",
    }
}
