// The paper's listing, on a line of 2 blocks of 2 entries for 2 desks, and the message of a step.
use book::Deed::{self, Desk, Get, Order, Put, Unlisted};
use book::DeskStep::{Claim, Fetch, Finish, Look};
use schedule::Message;

// Its 20 steps.
pub const LISTING: [Deed; 20] = [
    Order(1, 5),
    Desk(0, Look(1)),
    Desk(1, Look(1)),
    Desk(0, Claim),
    Desk(1, Claim),
    Get,
    Get,
    Get,
    Put(5),
    Put(6),
    Put(7),
    Get,
    Put(7),
    Desk(0, Fetch),
    Desk(0, Finish),
    Put(7),
    Get,
    Get,
    Get,
    Desk(1, Look(0)),
];

// The message that asks for it: the code and the two numbers. A desk's number stands in the code's low four bits.
pub fn message(deed: Deed) -> Message {
    let (code, a, b) = match deed {
        Put(label) => (0, label, 0),
        Get => (1, 0, 0),
        Order(first, last) => (2, first, last),
        Desk(d, Claim) => (16 | d, 0, 0),
        Desk(d, Fetch) => (32 | d, 0, 0),
        Desk(d, Finish) => (48 | d, 0, 0),
        Desk(d, Look(block)) => (64 | d, block, 0),
        Unlisted => (80, 0, 0),
    };
    Message { code, a, b }
}
