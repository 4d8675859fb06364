// Opening a line in the records and entries that are lent.
ghost use Rattle.engine.specs.Promises.{GivesOpening};

use book::Size;
use byvalue::{Outcome, fresh, unused};
use line::{Block, Head};
use rules::fits;
use words::Refusal;

// Where numbers and lengths fit, the lent records are unused and the entries 0; else everything is as it was.
pub fn open(
    h: Head,
    table: [Block; 64],
    n: usize,
    entries: &mut [u32],
    z: Size,
) -> Outcome<Result<(), Refusal>>
    ensures { GivesOpening h table n entries.old z result entries.new }
{
    let head = fresh(z);
    if !fits(z, n, entries.len()) {
        return Outcome {
            answer: Err(Refusal::Unfit),
            head: h,
            table,
        };
    }
    let mut records = table;
    records[..n].fill(unused());
    entries.fill(0);
    Outcome {
        answer: Ok(()),
        head,
        table: records,
    }
}
