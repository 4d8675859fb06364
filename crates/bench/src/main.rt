#![tactic(auto)]

// A benchmark of the engine: a million steps of a fixed mixed schedule through engine::step::step,
// at 8 x 64 and at 64 x 64 with 16 desks, and beside them a loop that only makes the same steps.
//
// `rt run` in this folder proves the program, builds out/bench and runs it; `rt ci` compares its standard
// output: for each size a checksum of the answers, and how many of them were refusals. The CPU times
// go to standard error.
ghost use Rattle.std.specs.Prelude.{◌≤◌, ◌<◌};

use book::Size;
use byvalue::{no_head, no_table};
use engine::opening::open;
use engine::step::step;
use schedule::Message;
use std::io;
use std::time::{CpuClock, Duration};
use words::{number, value};

const STEPS: u32 = 1000000;

const NE: u16 = 64;

const DESKS: u16 = 16;

// The largest prime below 2^32.
const PRIME: u64 = 4294967291;

// Labels are below this.
const LABELS: u32 = 1000000;

// The entries of the largest line.
const ENTRIES: usize = 4096;

// The codes. A desk's number is added to a code of the last four.
#[derive(Clone, Copy, Debug, PartialEq, Eq)]
enum Code {
    Put = 0,
    Get = 1,
    Order = 2,
    Claim = 16,
    Fetch = 32,
    Finish = 48,
    Look = 64,
}

// A line that is measured: its blocks.
#[derive(Clone, Copy, Debug, PartialEq, Eq)]
struct Measured {
    nb: u16,
    ghost some: { 1 ≤ nb },
    ghost few: { nb ≤ 64 },
}

// What a loop adds up.
#[derive(Clone, Copy, Debug, PartialEq, Eq)]
struct Total {
    sum: u64,
    refused: u64,
}

fn main(rt: HostRuntime) -> io::Result<()> {
    Measured { nb: 8 }.measure(&rt)?;
    Measured { nb: 64 }.measure(&rt)
}

// The desk that stands `ahead` of the one whose turn step i's cycle of sixteen is.
fn desk(i: u32, ahead: u32) -> u8
    requires { ahead < 16 }
    ensures { result < 16 }
{
    ((i / 16 + ahead) % 16) as u8
}

fn by_owner(code: Code, a: u32, b: u32) -> Message {
    Message {
        code: code as u8,
        a,
        b,
    }
}

// A desk's step: its code, and the block that a look names.
fn by_desk(code: Code, d: u8, block: u32) -> Message
    requires { d < 16 }
{
    Message {
        code: code as u8 + d,
        a: block,
        b: 0,
    }
}

// The checksum with two numbers more.
fn add(sum: u64, x: u32, y: u32) -> u64 {
    (sum % PRIME * 31 + u64::from(x)) * 31 + u64::from(y)
}

impl Measured {
    // Step i of a cycle: the owner puts five labels and gets three, and the two desks make a round each. A get
    // stands between look and claim, so that some claims are lost to the owner.
    fn in_cycle(self, i: u32) -> Message {
        let nb = u32::from(self.nb);
        match i % 16 {
            1 => by_desk(Code::Look, desk(i, 0), i / 16 % nb),
            2 => by_desk(Code::Look, desk(i, 8), (i / 16 + 1) % nb),
            5 => by_desk(Code::Claim, desk(i, 0), 0),
            6 => by_desk(Code::Claim, desk(i, 8), 0),
            9 => by_desk(Code::Fetch, desk(i, 0), 0),
            10 => by_desk(Code::Fetch, desk(i, 8), 0),
            13 => by_desk(Code::Finish, desk(i, 0), 0),
            14 => by_desk(Code::Finish, desk(i, 8), 0),
            4 | 8 | 12 => by_owner(Code::Get, 0, 0),
            _ => by_owner(Code::Put, i % LABELS, 0),
        }
    }

    // Step i of the schedule. The first is an order that fills three quarters of the line.
    fn ask(self, i: u32) -> Message {
        if i == 0 {
            return by_owner(
                Code::Order,
                0,
                u32::from(self.nb) * u32::from(NE) * 3 / 4 - 1,
            );
        }
        self.in_cycle(i)
    }

    // The engine's loop.
    fn run(self, entries: &mut [u32]) -> Total {
        let n = usize::from(self.nb);
        let size = Size {
            nb: self.nb,
            ne: NE,
            t: DESKS,
        };
        let opened = open(no_head(), no_table(), n, entries, size);
        let mut head = opened.head;
        let mut table = opened.table;
        let mut sum: u64 = 0;
        let mut refused: u64 = 0;
        for i in 0..STEPS {
            let s = self.ask(i);
            let went = step(head, table, n, entries, s.code, s.a, s.b);
            head = went.head;
            table = went.table;
            let refusal = number(went.answer);
            sum = add(sum, refusal, value(went.answer));
            refused += u64::from(refusal != 0);
        }
        Total { sum, refused }
    }

    // The same loop without the engine. The two have a body each: what is called between them would be timed too.
    fn run_empty(self) -> u64 {
        let mut sum: u64 = 0;
        for i in 0..STEPS {
            let s = self.ask(i);
            sum = add(sum, u32::from(s.code), s.a ^ s.b);
        }
        sum
    }

    // Both loops, timed.
    fn measure(self, rt: &(impl CpuClock + Print + Eprint)) -> io::Result<()> {
        let mut entries = [0u32; ENTRIES];
        let m = usize::from(self.nb) * usize::from(NE);
        let start = clock(rt);
        let total = self.run(&mut entries[..m]);
        let middle = clock(rt);
        let sum = self.run_empty();
        let end = clock(rt);
        self.say_total(rt, total)?;
        self.say_times(
            rt,
            middle.saturating_sub(start),
            end.saturating_sub(middle),
            sum,
        )
    }

    fn say_total(self, rt: &impl Print, t: Total) -> io::Result<()> {
        let nb = self.nb;
        let checksum = t.sum % PRIME;
        let refused = t.refused;
        println!(rt; "{nb} x {NE}: checksum {checksum}, refused {refused} of {STEPS}")
    }

    // The times in microseconds. A million steps in a thousand microseconds are one nanosecond a step.
    fn say_times(
        self,
        rt: &impl Eprint,
        full: Duration,
        empty: Duration,
        sum: u64,
    ) -> io::Result<()> {
        let nb = self.nb;
        let checksum = sum % PRIME;
        let step = full.saturating_sub(empty).as_micros() / 1000;
        let full = full.as_micros();
        let empty = empty.as_micros();
        eprint!(rt; "{nb} x {NE}: the engine's loop {full} us, ")?;
        eprintln!(rt;
            "the empty loop {empty} us (checksum {checksum}), the difference {step} ns a step"
        )
    }
}

// The CPU time so far; zero if there is none to be had.
fn clock(rt: &impl CpuClock) -> Duration {
    rt.process_cpu_time().unwrap_or_default()
}
