#![tactic(auto)]

// The line: its records, and what each call means on them. Definitions and theorems; of code the types, a head's size, and
// the refusal that a fault is.
//
// The records are numbers only, so that a portal lends its own memory. specs/Line.antt has the
// steps, specs/Rules.antt the rules of a sound line in the paper's words, specs/Check.antt the check,
// specs/Calls.antt what a caller gets. specs/Demands.antt states demands 1 to 3; proofs/ proves them.
// Beyond the demands, specs/FirstOut.antt says in which order labels come out, and specs/Clearing.antt
// that nothing is ever stuck.
ghost use Rattle.std.specs.Prelude.{◌≡◌};
ghost use Rattle.line.specs.Line.{size_of};
ghost use Rattle.line.specs.Check.{refusal_of};

use book::Size;
use words::{Answer, Refusal};

// Desk, block and head are lent by a portal, and so laid out as the C interface has them, with any number in any field:
// that is why a desk's stage is a number and no enum, and why a head has sixteen desks, whatever T is.

// A desk: stage 0 is idle, 1 looked, 2 claimed, 3 fetched. An idle desk's turn and place are not read.
#[repr(C)]
#[derive(Clone, Copy, Debug, PartialEq, Eq)]
pub struct Desk {
    pub stage: u16,
    pub place: u16,
    pub turn: u32,
}

#[repr(C)]
#[derive(Clone, Copy, Debug, PartialEq, Eq)]
pub struct Block {
    pub round: u16,
    pub written: u16,
    pub claimed: u16,
    pub finished: u16,
}

#[repr(C)]
#[derive(Clone, Copy, Debug, PartialEq, Eq)]
pub struct Head {
    pub nb: u16,
    pub ne: u16,
    pub t: u16,
    pub reading: u16,
    pub p: u32,
    pub k: u32,
    pub desks: [Desk; 16],
}

impl Head {
    // The three numbers that a line is opened with.
    pub fn size(&self) -> Size
        ensures { result ≡ size_of self.now }
    {
        Size {
            nb: self.nb,
            ne: self.ne,
            t: self.t,
        }
    }
}

// Where a label goes: turn, block and place; and the record that the block has after it.
#[derive(Clone, Copy, Debug, PartialEq, Eq)]
pub struct Room {
    pub turn: u32,
    pub block: usize,
    pub place: u32,
    pub after: Block,
}

// What a desk's step leaves: the answer, the desk, and the record of the block that the step read.
#[derive(Clone, Copy, Debug, PartialEq, Eq)]
pub struct Moved {
    pub answer: Answer,
    pub desk: Desk,
    pub block: Block,
}

// What is wrong with a line: its numbers or lengths do not fit, or it breaks a rule: at which place, and the rule's
// number. The place is a number, 64 for the head and else a block, as the C interface says it.
#[derive(Clone, Copy, Debug, PartialEq, Eq)]
pub enum Fault {
    Unfit,
    Broken(u32, u32),
}

// The refusal of a step, an order or a survey on such a line.
impl From<Fault> for Refusal {
    ghost from_gives = { λ f w. w ≡ refusal_of f };

    fn from(f: Fault) -> Refusal {
        match f {
            Fault::Unfit => Refusal::Unfit,
            Fault::Broken(_, _) => Refusal::Damaged,
        }
    }
}

// What the survey finds. The lowest is no Option: it is 64 where there is none, as the C interface says it and
// `trailing_zeros` of the mask gives it.
#[derive(Clone, Copy, Debug, PartialEq, Eq)]
pub struct Findings {
    pub mask: u64,
    pub count: u32,
    pub lowest: u32,
}
