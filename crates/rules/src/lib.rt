#![tactic(auto)]

// The rules of a sound line, and the check, by value. `head`, `desks` and `blocks` have the rules one by one, over the
// numbers, the desk or the record that each reads; `check` asks them in their order of a head and of the table's lent
// records, whatever numbers stand there.
//
// The check answers UNFIT, or the first rule broken, the head's before the blocks'. No entry is read.
mod blocks;
mod desks;
mod head;

ghost use Rattle.rules.specs.Promises.{GivesCheck};

use blocks::block_rules;
use desks::held_turns;
pub use head::fits;
use head::head_rules;
use line::{Block, Fault, Head};
use ring::Ring;

// The check of a head, of the table's first n records, and of m entries.
pub fn check(h: Head, table: [Block; 64], n: usize, m: usize) -> Result<(), Fault>
    ensures { GivesCheck h table n m result }
{
    if !fits(h.size(), n, m) {
        return Err(Fault::Unfit);
    }
    let ring = Ring::new(u32::from(h.nb), h.p);
    head_rules(&h, &table, ring)?;
    let turns = held_turns(&h.desks);
    for (i, c) in table[..n].iter().enumerate() {
        block_rules(ring, h.ne, &turns, i as u32, *c)?;
    }
    Ok(())
}
