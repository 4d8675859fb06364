#![tactic(auto)]

// Where turns stand: round the NB blocks, turn t in block t mod NB.
//
// Block `last` is P's own, p mod nb, found once. Any other block stands as many blocks back from it, round the NB blocks,
// as its current turn is before P: so the block of a current turn, and the current turn of a block, are found without a
// division.
ghost use Rattle.std.specs.Prelude.{◌≡◌, true, ◌+◌, ◌-◌, ◌%◌, ◌≤◌, ◌<◌};
ghost use Rattle.line.specs.Tests.{is_recent};

// The block in which a turn stands. It is asked of a head's numbers, which are any until the check has passed them: so the
// bounds of NB are a clause here, and a Ring's invariant where one is at hand.
pub fn block_of(turn: u32, nb: u32) -> usize
    requires { (1 ≤ nb) × (nb ≤ 64) }
    ensures { (result ≡ turn % nb) × (result < 64) }
{
    (turn % nb) as usize
}

// The block in which the next turn stands: a test, where block_of divides.
pub fn block_after(block: usize, nb: u32) -> usize
    requires { (block < nb) × (nb ≤ 64) }
    ensures { (result ≡ (block + 1) % nb) × (result < 64) }
{
    let next = block + 1;
    if next < nb as usize { next } else { 0 }
}

// A turn is its block's current one if it is among the last NB turns up to P. Any numbers may be asked.
pub fn is_current(nb: u32, p: u32, turn: u32) -> bool
    ensures { result ≡ is_recent nb p turn }
{
    turn <= p && p - turn < nb
}

// The NB blocks, and the one of them in which turn P stands.
#[derive(Clone, Copy, Debug, PartialEq, Eq)]
pub struct Ring {
    pub nb: u32,
    pub p: u32,
    last: u32,
    pub ghost some: { 0 < nb },
    pub ghost few: { nb ≤ 64 },
    pub ghost stands: { last ≡ p % nb },
}

impl Ring {
    pub fn new(nb: u32, p: u32) -> Self
        requires { (1 ≤ nb) × (nb ≤ 64) }
        ensures { (result.nb ≡ nb) × (result.p ≡ p) }
    {
        Ring {
            nb,
            p,
            last: p % nb,
        }
    }

    pub fn is_current(self, turn: u32) -> bool
        ensures { result ≡ is_recent self.nb self.p turn }
    {
        is_current(self.nb, self.p, turn)
    }

    // The block that stands `steps` blocks back from block `last`.
    fn back(self, steps: u32) -> u32
        requires { steps < self.nb }
        ensures { result ≡ (self.last + self.nb - steps) % self.nb }
    {
        if steps <= self.last {
            self.last - steps
        } else {
            self.last + self.nb - steps
        }
    }

    // The block of a current turn. No record is read for any other: block 0 stands for it, so that there is one to index by.
    pub fn current_block(self, turn: u32) -> usize
        ensures { (result < self.nb) × (is_recent self.nb self.p turn ≡ true → result ≡ turn % self.nb) }
    {
        if self.is_current(turn) {
            self.back(self.p - turn) as usize
        } else {
            0
        }
    }

    // The current turn of block i; P for an unused block.
    pub fn current_turn(self, i: u32) -> u32
        requires { i < self.nb }
        ensures { result ≡ self.p - (self.p - i) % self.nb }
    {
        if self.p < i {
            return self.p;
        }
        self.p - self.back(i)
    }
}
