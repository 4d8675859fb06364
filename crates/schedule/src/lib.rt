#![tactic(auto)]

// A schedule's bytes: a header of eight, then nine for each step. What they mean stands in
// specs/Bytes.antt, and `reading` reads it off them: whether a schedule is too long, whether it has its
// header, how many whole steps follow, and each of them.
pub mod reading;

// The longest schedule, in bytes.
pub const LIMIT: usize = 64808;

// The bytes of the header, and of a step, and how many steps the longest schedule has.
pub const HEADER: usize = 8;

pub const STEP: usize = 9;

pub const STEPS: usize = (LIMIT - HEADER) / STEP;

// Every message from a press is one step.
#[derive(Clone, Copy, Debug, PartialEq, Eq)]
pub struct Message {
    pub code: u8,
    pub a: u32,
    pub b: u32,
}
