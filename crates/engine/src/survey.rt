// The survey: at which blocks an idle desk's look would be SEEN, as a mask, their number, and the lowest of them.
ghost use Rattle.engine.specs.Promises.{GivesSurvey};

use desks::may_look;
use line::{Block, Findings, Head};
use ring::Ring;
use rules::check;
use words::Refusal;

// The survey reads no entry, only how many were lent. Block i's bit stands at place i: it is 1 where an idle desk's look
// would be SEEN.
pub fn survey(h: Head, table: [Block; 64], n: usize, m: usize) -> Result<Findings, Refusal>
    ensures { GivesSurvey h table n m result }
{
    check(h, table, n, m)?;
    let ring = Ring::new(u32::from(h.nb), h.p);
    let mut mask = 0u64;
    for (i, c) in table[..n].iter().enumerate() {
        let seen = may_look(ring, h.k, i as u32, *c).is_ok();
        mask |= u64::from(seen) << i;
    }
    Ok(Findings {
        mask,
        count: mask.count_ones(),
        lowest: mask.trailing_zeros(),
    })
}
