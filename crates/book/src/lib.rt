#![tactic(auto)]

// The book: what a right answer is. Definitions and theorems; of code only the types that every floor above shares,
// and the limits of a size.
//
// specs/Book.antt is the paper's section "The book", sentence by sentence; specs/Sizes.antt and
// specs/Steps.antt have the numbers, the codes and the grid that the line shares with it.
// specs/Demands.antt states what holds of every run of the book, proofs/ proves it, and
// specs/Cases.antt has the paper's worked cases, each computed. Beyond the demands, specs/Order.antt
// says in which order labels come out, and specs/Clearing.antt that nothing is ever stuck.
ghost use Rattle.std.specs.Prelude.{◌≡◌};
ghost use Rattle.book.specs.Sizes.{fits};

// The numbers of a line: NB blocks, NE entries a block, T desks.
#[derive(Clone, Copy, Debug, PartialEq, Eq)]
pub struct Size {
    pub nb: u16,
    pub ne: u16,
    pub t: u16,
}

impl Size {
    // Are the numbers within their limits?
    #[tactic(auto, unfolding(crate::specs::Sizes::fits))]
    pub fn fits(self) -> bool
        ensures { result ≡ fits self }
    {
        matches!(self.nb, 2..=64) && matches!(self.ne, 1..=64) && matches!(self.t, 1..=16)
    }
}

// What a desk does. A look names its block.
#[derive(Clone, Copy, Debug, PartialEq, Eq)]
pub enum DeskStep {
    Look(u32),
    Claim,
    Fetch,
    Finish,
}

// What a code asks for. An unlisted code is a case here and no Option around it: the steps of book and line go by cases
// on what a code asks for, and each names the unlisted one among them.
#[derive(Clone, Copy, Debug, PartialEq, Eq)]
pub enum Deed {
    Put(u32),
    Get,
    Order(u32, u32),
    Desk(u8, DeskStep),
    Unlisted,
}
