#![tactic(auto)]

// The desks' steps by value, on a line that the check has found sound: look, claim, fetch and finish.
//
// A step reads one desk and one record, and changes no other. The parts take the ring of blocks, K, the desk and the
// record, and promise what the definitions of the line say of them: `admitted`, `lookable`, `wins`, and what each step
// leaves, `look_of`, `claim_of`, `fetch_of`, `finish_of`. K goes beside the ring, since where turns stand does not ask it. The
// grid of stages and steps stands in `grid`.
mod grid;

ghost use Rattle.std.specs.Prelude.{◌≡◌, not, ℕ, ◌%◌, ◌≤◌, ◌<◌};
ghost use Rattle.book.specs.Choice.{◌≡ᵇ◌};
ghost use Rattle.book.specs.Sizes.{sized};
ghost use Rattle.book.specs.Steps.{claimed_at};
ghost use Rattle.book.specs.declared.DeskStep.TheVariants.{Look as look_step, Fetch as fetch_step};
ghost use Rattle.book.specs.Verdicts.{column, no_block, admitted, lookable};
ghost use Rattle.line.specs.Line.{moved, size_of, spot_of, desk_of, desk_at, look_of, wins, claim_of, fetch_of, finish_of, moved_by, desk_step};
ghost use Rattle.byvalue.specs.Lent.{line_of};
ghost use Rattle.byvalue.specs.GivenBack.{given_back, back_of};
ghost use Rattle.byvalue.specs.Ready.{Ready};
ghost use Rattle.byvalue.specs.Entries.{Stands};
ghost use Rattle.desks.specs.Reading.{block_read};

use crate::grid::at_stage;
use book::DeskStep;
use byvalue::entries::read_label;
use byvalue::{Outcome, idle};
use line::{Block, Desk, Head, Moved};
use ring::{Ring, block_of};
use words::{Answer, Refusal};

// The step's column of the grid, which the customer has indexed by stage and step.
fn column_of(s: DeskStep) -> usize
    ensures { (result ≡ column s) × (result < 4) }
{
    match s {
        DeskStep::Look(_) => 0,
        DeskStep::Claim => 1,
        DeskStep::Fetch => 2,
        DeskStep::Finish => 3,
    }
}

fn no_block(nb: u32, s: DeskStep) -> bool
    ensures { result ≡ no_block (sized nb 0 0) s }
{
    matches!(s, DeskStep::Look(i) if nb <= i)
}

// May a desk that there is make the step: NOBLOCK, then STAGE by the grid. NODESK is past: it is desk 0 of one.
fn may_step(nb: u32, x: Desk, s: DeskStep) -> Result<(), Refusal>
    requires { x.stage < 4 }
    ensures { result ≡ admitted (sized nb 0 1) 0 s (desk_of x) }
{
    if no_block(nb, s) {
        return Err(Refusal::Noblock);
    }
    at_stage(usize::from(x.stage), column_of(s))
}

// May a desk see something at block i, whose record is c. A block above P is unused, and not owned.
pub fn may_look(ring: Ring, k: u32, i: u32, c: Block) -> Result<(), Refusal>
    requires { i < ring.nb }
    ensures { result ≡ lookable (sized ring.nb 0 0) ring.p k i (not (c.claimed ≡ᵇ c.written)) }
{
    if ring.p < i {
        return Err(Refusal::Nothing);
    }
    if ring.current_turn(i) <= k {
        return Err(Refusal::Owned);
    }
    if c.claimed == c.written {
        return Err(Refusal::Nothing);
    }
    Ok(())
}

// Is a claim won: the turn that the desk saw is still its block's current one, the block is not owned, and
// claimed is still the place seen.
fn still_won(ring: Ring, k: u32, c: Block, x: Desk) -> bool
    ensures { result ≡ wins (sized ring.nb 0 0) ring.p k c (spot_of x) }
{
    ring.is_current(x.turn) & (k < x.turn) & (c.claimed == x.place)
}

// A step that is refused leaves the record as it was.
fn refused(w: Refusal, desk: Desk, block: Block) -> Moved
    ensures { result ≡ moved (Answer.Refused w 0) desk block }
{
    Moved {
        answer: Answer::Refused(w, 0),
        desk,
        block,
    }
}

#[tactic(auto, unfolding(line::specs::Line::look_of))]
fn look(ring: Ring, k: u32, i: u32, c: Block, x: Desk) -> Moved
    requires { i < ring.nb }
    ensures { result ≡ look_of (sized ring.nb 0 0) ring.p k i c x }
{
    match may_look(ring, k, i, c) {
        Ok(()) => Moved {
            answer: Answer::Seen(u32::from(c.claimed)),
            desk: Desk {
                stage: 1,
                place: c.claimed,
                turn: ring.current_turn(i),
            },
            block: c,
        },
        Err(w) => refused(w, x, c),
    }
}

#[tactic(auto, unfolding(line::specs::Line::claim_of))]
fn claim(ring: Ring, k: u32, current: Block, x: Desk) -> Moved
    requires { current.claimed < 65535 }
    ensures { result ≡ claim_of (sized ring.nb 0 0) ring.p k current (spot_of x) }
{
    let taken = Block {
        claimed: current.claimed + 1,
        ..current
    };
    if !still_won(ring, k, current, x) {
        return refused(Refusal::Lost, idle(), current);
    }
    Moved {
        answer: Answer::Claimed(u32::from(x.place)),
        desk: Desk { stage: 2, ..x },
        block: taken,
    }
}

fn fetch(c: Block, x: Desk, label: u32) -> Moved
    ensures { result ≡ fetch_of c (claimed_at (spot_of x)) label }
{
    Moved {
        answer: Answer::Took(label),
        desk: Desk { stage: 3, ..x },
        block: c,
    }
}

fn finish(c: Block) -> Moved
    requires { c.finished < 65535 }
    ensures { result ≡ finish_of c }
{
    Moved {
        answer: Answer::Done,
        desk: idle(),
        block: Block {
            finished: c.finished + 1,
            ..c
        },
    }
}

// The step that the grid lets the desk take, with the record c of the block i that it reads. A match on a closed enum,
// whose arms read different things: a closure is no plainer.
#[tactic(auto, unfolding(line::specs::Line::moved_by, line::specs::Line::label_at, line::specs::Line::entry_of))]
fn take(h: &Head, entries: &[u32], s: DeskStep, i: usize, c: Block, x: Desk) -> Moved
    requires in_range { (1 ≤ h.now.nb) × (h.now.nb ≤ 64) × (c.claimed < 65535) × (c.finished < 65535) }
    requires by_step { ((at : ℕ) → s ≡ look_step at → at < h.now.nb) × (s ≡ fetch_step → (i ≡ x.turn % h.now.nb) × Stands h.now.ne i x.place entries.now) }
    ensures { result ≡ moved_by (sized h.now.nb h.now.ne 0) s h.now.p h.now.k entries.now c x (claimed_at (spot_of x)) }
{
    let ring = Ring::new(u32::from(h.nb), h.p);
    match s {
        DeskStep::Look(at) => look(ring, h.k, at, c, x),
        DeskStep::Claim => claim(ring, h.k, c, x),
        DeskStep::Fetch => fetch(
            c,
            x,
            read_label(entries, u32::from(h.ne), i, u32::from(x.place)),
        ),
        DeskStep::Finish => finish(c),
    }
}

// The block that the step reads: a look's own, or that of the desk's turn.
fn block_read(nb: u32, turn: u32, s: DeskStep) -> usize
    requires { (1 ≤ nb) × (nb ≤ 64) }
    ensures { result ≡ block_read nb turn s }
{
    match s {
        DeskStep::Look(i) => i as usize,
        DeskStep::Claim | DeskStep::Fetch | DeskStep::Finish => block_of(turn, nb),
    }
}

// A step of desk d: NODESK, NOBLOCK and STAGE, then the step itself. It changes one desk and one record.
pub fn desk_step(
    h: Head,
    table: [Block; 64],
    entries: &[u32],
    d: u8,
    s: DeskStep,
) -> Outcome<Answer>
    requires { Ready h table entries.now }
    ensures { given_back result entries.now ≡ back_of table h.nb (desk_step (size_of h) (line_of h table h.nb entries.now) d s (desk_at h d)) }
{
    if h.t <= u16::from(d) {
        return Outcome::refused(Refusal::Nodesk, h, table);
    }
    let at = usize::from(d);
    let x = h.desks[at];
    let nb = u32::from(h.nb);
    if let Err(w) = may_step(nb, x, s) {
        return Outcome::refused(w, h, table);
    }
    let i = block_read(nb, x.turn, s);
    let c = table[i];
    let Moved {
        answer,
        desk,
        block,
    } = take(&h, entries, s, i, c, x);
    let mut head = h;
    head.desks[at] = desk;
    let mut records = table;
    records[i] = block;
    Outcome {
        answer,
        head,
        table: records,
    }
}
