// The desks: rule 3, one by one and two by two, and who holds in a turn.
ghost use Rattle.std.specs.Prelude.{◌≡◌, ◌==◌, not, ◌&&◌, [], ◌∷◌, map, count_by};
ghost use Rattle.book.specs.Choice.{◌≤ᵇ◌};
ghost use Rattle.line.specs.Line.{size_of, desk_of, record_of};
ghost use Rattle.line.specs.Tests.{desk_obeys, clashes, no_clash, obeys3};
ghost use Rattle.rules.specs.Holders.{is_holding, held_turn};

use line::{Block, Desk, Head};
use ring::Ring;

// The desk has claimed or fetched.
fn is_holding(d: Desk) -> bool
    ensures { result ≡ is_holding d }
{
    matches!(d.stage, 2 | 3)
}

// Rule 3 of one desk; c is the record of its turn's block, read only if the turn is current. A stage is a number that a
// portal lends, whatever it is.
#[tactic(auto, unfolding(line::specs::Line::desk_of))]
fn desk_rule(d: Desk, c: Block, ring: Ring, ne: u16) -> bool
    ensures { result ≡ (d.stage ≤ᵇ 3 && desk_obeys ring.nb ne ring.p c (desk_of d)) }
{
    let current = ring.is_current(d.turn);
    match d.stage {
        0 => true,
        1 => (d.turn <= ring.p) & (d.place < ne) & (!current | (d.place < c.written)),
        2 | 3 => current & (d.place < c.claimed),
        _ => false,
    }
}

// Two desks hold one turn and place.
fn clash(a: Desk, b: Desk) -> bool
    ensures { result ≡ clashes (desk_of a) (b ∷ []) }
{
    is_holding(a) & is_holding(b) & (b.turn == a.turn) & (b.place == a.place)
}

// The last test of rule 3 stops at the first pair of desks that hold one place: two loops over desks, left by a label, as
// the customer asked.
fn any_clash(desks: &[Desk; 16]) -> bool
    ensures { no_clash desks.now ≡ not result }
{
    let mut found = false;
    'pairs: for (i, a) in desks.iter().enumerate() {
        if !is_holding(*a) {
            continue;
        }
        for b in &desks[i + 1..] {
            if clash(*a, *b) {
                found = true;
                break 'pairs;
            }
        }
    }
    found
}

// Rule 3: the desks one by one, then two by two.
pub fn rule3(h: &Head, table: &[Block; 64], ring: Ring) -> bool
    requires { (ring.nb ≡ h.now.nb) × (ring.p ≡ h.now.p) }
    ensures { result ≡ obeys3 (size_of h.now) h.now.p (record_of (size_of h.now) table.now) h.now.desks }
{
    let t = usize::from(h.t);
    for (d, x) in h.desks.iter().enumerate() {
        if x.stage == 0 {
            continue;
        }
        if t <= d {
            return false;
        }
        if !desk_rule(*x, table[ring.current_block(x.turn)], ring, h.ne) {
            return false;
        }
    }
    !any_clash(&h.desks)
}

// The turn in which the desk has claimed or fetched; where it has not, a number that is no turn. With an Option in its
// place the check of a line of 64 x 64 took 1070 ns, and not 475.
fn held_turn(d: Desk) -> u32
    ensures { result ≡ held_turn d }
{
    if is_holding(d) { d.turn } else { 4294967295 }
}

// The turn in which each desk has claimed or fetched, made once: the blocks are then asked over plain numbers. The array's
// `map` proves too, and takes a quarter more time in the check.
pub fn held_turns(desks: &[Desk; 16]) -> [u32; 16]
    ensures { result ≡ map held_turn desks.now }
{
    let mut turns = [0; 16];
    for (i, turn) in turns.iter_mut().enumerate() {
        *turn = held_turn(desks[i]);
    }
    turns
}

// How many of them are the turn.
pub fn holders(turns: &[u32; 16], turn: u32) -> u32
    ensures { result ≡ count_by (λ x. x == turn) turns.now }
{
    turns.iter().map(|x| u32::from(*x == turn)).sum()
}
