#![tactic(auto)]

// A small line until it is worn: 2 blocks of 1 entry, put and get by turns. A schedule has too few steps for it.
use book::Size;
use byvalue::{no_head, no_table};
use engine::opening::open;
use engine::step::step;
use std::io;
use words::{Answer, word};

// The codes of the two steps. The benchmark has them among its own: the two programs stand on no crate that could share them.
#[derive(Clone, Copy, Debug, PartialEq, Eq)]
enum Code {
    Put = 0,
    Get = 1,
}

const MOST: u32 = 200000;

// What the line came to: the labels placed, and the last put's answer.
#[derive(Clone, Copy, Debug, PartialEq, Eq)]
struct Worn {
    placed: u32,
    last: Answer,
}

// Puts and gets by turns until a put is refused, or MOST labels are placed.
fn wear() -> Worn {
    let mut entries = [0u32; 2];
    let opened = open(
        no_head(),
        no_table(),
        2,
        &mut entries,
        Size { nb: 2, ne: 1, t: 1 },
    );
    let mut head = opened.head;
    let mut table = opened.table;
    let mut last = Answer::Done;
    for placed in 0..MOST {
        let put = step(head, table, 2, &mut entries, Code::Put as u8, placed, 0);
        last = put.answer;
        if !matches!(last, Answer::Put(_)) {
            return Worn { placed, last };
        }
        let got = step(put.head, put.table, 2, &mut entries, Code::Get as u8, 0, 0);
        head = got.head;
        table = got.table;
    }
    Worn { placed: MOST, last }
}

fn main(rt: HostRuntime) -> io::Result<()> {
    let worn = wear();
    let placed = worn.placed;
    let last = word(worn.last);
    println!(rt; "{placed} labels placed, then {last}")
}
