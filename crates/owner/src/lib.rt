#![tactic(auto)]

// The owner's steps by value, on a line that the check has found sound: put, order and get.
//
// Of this crate only these three change the head and the table. Their parts read the head and records, and promise what the
// definitions of the line say of them: `may_put` and `may_start` whether a label may be put, `room_for` where it
// goes, `moves_on` whether a get moves on.
ghost use Rattle.std.specs.Prelude.{◌≡◌, get_or, ◌+◌, ◌-◌, ◌*◌, ◌%◌, ◌≤◌, ◌<◌};
ghost use Rattle.book.specs.Choice.{◌<ᵇ◌, ◌≡ᵇ◌};
ghost use Rattle.book.specs.Sizes.{highest_label, is_label, is_order};
ghost use Rattle.book.specs.Verdicts.{judge, startable, placeable};
ghost use Rattle.line.specs.Line.{unused, size_of, is_busy, room_of, moves_on, put_step, order_step, get_step};
ghost use Rattle.byvalue.specs.Lent.{line_of};
ghost use Rattle.byvalue.specs.GivenBack.{given_back, back_of};
ghost use Rattle.byvalue.specs.Ready.{Ready};

use byvalue::Outcome;
use byvalue::entries::{read_label, write_label};
use line::{Block, Head, Room};
use ring::{block_after, block_of};
use words::{Answer, Refusal};

const HIGHEST_LABEL: u32 = 999999;

#[tactic(auto, unfolding(book::specs::Sizes::is_label))]
fn is_label(a: u32) -> bool
    ensures { result ≡ is_label a }
{
    a <= HIGHEST_LABEL
}

#[tactic(auto, unfolding(book::specs::Sizes::is_order))]
fn is_order(a: u32, b: u32) -> bool
    ensures { result ≡ is_order a b }
{
    a <= b && is_label(b)
}

// Is there room for one label more in a block with `written` of them.
fn has_room(written: u16, ne: u16) -> bool
    ensures { result ≡ (written <ᵇ ne) }
{
    written < ne
}

// Does a label stand at the reading place.
fn is_written(place: u16, written: u16) -> bool
    ensures { result ≡ (place <ᵇ written) }
{
    place < written
}

// Has the owner read the block to its end.
fn is_read(place: u16, ne: u16) -> bool
    ensures { result ≡ (place ≡ᵇ ne) }
{
    place == ne
}

// Has a desk claimed or fetched in the block and not finished.
fn is_busy(c: Block) -> bool
    ensures { result ≡ is_busy c }
{
    c.finished < c.claimed
}

// May turn `next` be started in a block whose record is `old`.
#[tactic(auto, unfolding(book::specs::Verdicts::startable))]
fn may_start(h: &Head, next: u32, old: Block) -> Result<(), Refusal>
    requires { 1 ≤ h.now.nb }
    ensures { result ≡ startable (size_of h.now) h.now.k (is_busy old) next }
{
    let nb = u32::from(h.nb);
    if 65536 <= next / nb {
        return Err(Refusal::Worn);
    }
    if next < nb {
        return Ok(());
    }
    if h.k <= next - nb {
        return Err(Refusal::Full);
    }
    if is_busy(old) {
        return Err(Refusal::Busy);
    }
    Ok(())
}

// May label a be put: the tests in the paper's order. `current` is the record of turn
// P's block, `old` that of the block in which the next turn stands.
#[tactic(auto, unfolding(book::specs::Verdicts::placeable))]
fn may_put(h: &Head, current: Block, old: Block, a: u32) -> Result<(), Refusal>
    requires { (1 ≤ h.now.nb) × (h.now.p < 65536 * 64) }
    ensures { result ≡ placeable (size_of h.now) h.now.p current.written h.now.k (is_busy old) a }
{
    if !is_label(a) {
        return Err(Refusal::Notlabel);
    }
    if has_room(current.written, h.ne) {
        return Ok(());
    }
    may_start(h, h.p + 1, old)
}

// Where label a goes, or why it is refused. Turn P stands in block `here`.
fn room_for(h: &Head, table: &[Block; 64], here: usize, a: u32) -> Result<Room, Refusal>
    requires sizes { (1 ≤ h.now.nb) × (h.now.nb ≤ 64) × (h.now.ne ≤ 64) × (h.now.p < 65536 * 64) }
    requires stands { here ≡ h.now.p % h.now.nb }
    ensures { let current = get_or table.now here unused in
        let old = get_or table.now ((here + 1) % h.now.nb) unused in
        result ≡ judge (placeable (size_of h.now) h.now.p current.written h.now.k (is_busy old) a) (Ok (room_of (size_of h.now) h.now.p current)) (λ w. Err w) }
{
    let nb = u32::from(h.nb);
    let next = block_after(here, nb);
    let current = table[here];
    may_put(h, current, table[next], a)?;
    if has_room(current.written, h.ne) {
        return Ok(Room {
            turn: h.p,
            block: here,
            place: u32::from(current.written),
            after: Block {
                written: current.written + 1,
                ..current
            },
        });
    }
    let turn = h.p + 1;
    Ok(Room {
        turn,
        block: next,
        place: 0,
        after: Block {
            round: (turn / nb) as u16,
            written: 1,
            claimed: 0,
            finished: 0,
        },
    })
}

// How many labels an order has placed that is stopped at `label`.
fn placed(first: u32, label: u32) -> u32
    requires { (first ≤ label) × (label ≤ highest_label) }
    ensures { result ≡ label - first }
{
    label - first
}

// Does a get move on from its reading place in turn K, `current` being the record of that turn's block.
#[tactic(auto, unfolding(line::specs::Line::moves_on))]
fn moves_on(h: &Head, current: Block) -> bool
    ensures { result ≡ moves_on (size_of h.now) h.now.p current (record { turn = h.now.k; place = h.now.reading }) }
{
    !is_written(h.reading, current.written) && is_read(h.reading, h.ne) && h.k < h.p
}

// `Ready` is a clause and no type: docs/PROMISES.md names it as what this call asks for, and the entries, of which it
// speaks too, are lent apart from head and table.
pub fn put(h: Head, table: [Block; 64], entries: &mut [u32], a: u32) -> Outcome<Answer>
    requires { Ready h table entries.old }
    ensures { given_back result entries.new ≡ back_of table h.nb (put_step (size_of h) (line_of h table h.nb entries.old) a) }
{
    let nb = u32::from(h.nb);
    let ne = u32::from(h.ne);
    let here = block_of(h.p, nb);
    match room_for(&h, &table, here, a) {
        Ok(room) => {
            write_label(entries, ne, room.block, room.place, a);
            let mut records = table;
            records[room.block] = room.after;
            Outcome {
                answer: Answer::Put(a),
                head: Head { p: room.turn, ..h },
                table: records,
            }
        }
        Err(w) => Outcome::refused(w, h, table),
    }
}

// Puts a to b until one is refused. A line holds NB x NE labels, so there are at most that many puts and one. `Ready` is a
// clause for the reason that `put` has.
pub fn order(h: Head, table: [Block; 64], entries: &mut [u32], a: u32, b: u32) -> Outcome<Answer>
    requires { Ready h table entries.old }
    ensures { given_back result entries.new ≡ back_of table h.nb (order_step (size_of h) (line_of h table h.nb entries.old) a b) }
{
    if !is_order(a, b) {
        return Outcome::refused(Refusal::Range, h, table);
    }
    let nb = u32::from(h.nb);
    let ne = u32::from(h.ne);
    let mut head = h;
    let mut t = table;
    let mut here = block_of(h.p, nb);
    for label in a..=b {
        match room_for(&head, &t, here, label) {
            Ok(room) => {
                here = room.block;
                write_label(entries, ne, here, room.place, label);
                t[here] = room.after;
                head.p = room.turn;
            }
            Err(w) => {
                return Outcome {
                    answer: Answer::Refused(w, placed(a, label)),
                    head,
                    table: t,
                };
            }
        }
    }
    Outcome {
        answer: Answer::Whole(b - a + 1),
        head,
        table: t,
    }
}

// Moves from turn K to turn P at most, which by rule 1 is NB - 1 blocks. `Ready` is a clause for the reason that `put` has.
pub fn get(h: Head, table: [Block; 64], entries: &[u32]) -> Outcome<Answer>
    requires { Ready h table entries.now }
    ensures { given_back result entries.now ≡ back_of table h.nb (get_step (size_of h) (line_of h table h.nb entries.now)) }
{
    let nb = u32::from(h.nb);
    let ne = u32::from(h.ne);
    let mut head = h;
    let mut here = block_of(h.k, nb);
    let mut current = table[here];
    while moves_on(&head, current) {
        head.k += 1;
        here = block_after(here, nb);
        current = table[here];
        head.reading = current.claimed;
    }
    if !is_written(head.reading, current.written) {
        return Outcome::refused(Refusal::Empty, head, table);
    }
    let place = u32::from(head.reading);
    let label = read_label(entries, ne, here, place);
    head.reading += 1;
    Outcome {
        answer: Answer::Got(label),
        head,
        table,
    }
}
