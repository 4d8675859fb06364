// Reading a schedule: the header, a number of four bytes, a step of nine.
ghost use Rattle.std.specs.Prelude.{◌≡◌, ◌+◌, ◌≤◌, length};
ghost use Rattle.schedule.specs.Bytes.{header_bytes, step_bytes, is_long, is_header, header, number_at, step_at, whole_steps, is_cut};
ghost use Rattle.schedule.specs.Messages.{step_of};
ghost use Rattle.schedule.specs.Stepwise.{Stepwise};

use crate::{HEADER, LIMIT, Message, STEP};
use book::Size;
use std::slice::ChunksExact;

pub fn is_long(input: &[u8]) -> bool
    ensures { result ≡ is_long input.now }
{
    LIMIT < input.len()
}

// The letters LBQ, version 1 in two bytes, high byte first, and then NB, NE and T.
#[tactic(auto, unfolding(crate::specs::Bytes::is_header, crate::specs::Bytes::header))]
pub fn header(input: &[u8]) -> Option<Size>
    ensures { result ≡ header input.now }
{
    match input {
        [b'L', b'B', b'Q', 0, 1, nb, ne, t, ..] => Some(Size {
            nb: u16::from(*nb),
            ne: u16::from(*ne),
            t: u16::from(*t),
        }),
        _ => None,
    }
}

#[tactic(auto, unfolding(crate::specs::Bytes::header))]
pub fn is_header(input: &[u8]) -> bool
    ensures { result ≡ is_header input.now }
{
    header(input).is_some()
}

// The number whose four bytes start at `at`, high byte first.
pub fn number_at(input: &[u8], at: usize) -> u32
    requires { at + 4 ≤ length input.now }
    ensures { result ≡ number_at input.now at }
{
    u32::from_be_bytes([input[at], input[at + 1], input[at + 2], input[at + 3]])
}

// The step whose nine bytes start at `at`.
pub fn step_at(input: &[u8], at: usize) -> Message
    requires { at + step_bytes ≤ length input.now }
    ensures { step_of result ≡ step_at input.now at }
{
    Message {
        code: input[at],
        a: number_at(input, at + 1),
        b: number_at(input, at + 5),
    }
}

// That the header is there stays a clause of the three below: docs/PROMISES.md names two of them with it.

// The nine bytes of each whole step, one step after the other. Their remainder is the bytes of a step cut short.
pub fn steps(input: &[u8]) -> ChunksExact<'_, u8>
    requires { header_bytes ≤ length input.now }
    ensures { Stepwise input.now result }
{
    input[HEADER..].chunks_exact(STEP)
}

// How many whole steps follow the header, and whether bytes of one more do.
pub fn whole_steps(input: &[u8]) -> usize
    requires { header_bytes ≤ length input.now }
    ensures { result ≡ whole_steps input.now }
{
    (input.len() - HEADER) / STEP
}

pub fn is_cut(input: &[u8]) -> bool
    requires { header_bytes ≤ length input.now }
    ensures { result ≡ is_cut input.now }
{
    (input.len() - HEADER) % STEP != 0
}
