// The head's numbers, and its rules. A lent number may have any value: what is not bounded yet is only compared, and no sum
// or product passes its type.
ghost use Rattle.std.specs.Prelude.{◌≡◌};
ghost use Rattle.line.specs.Tests.{fitting, obeys1, obeys2};
ghost use Rattle.rules.specs.Asked.{head_asked};

use crate::desks::rule3;
use book::Size;
use line::{Block, Fault, Head};
use ring::Ring;

// The numbers are within their limits, and the lent lengths are NB and NB x NE.
pub fn fits(z: Size, n: usize, m: usize) -> bool
    ensures { result ≡ fitting z n m }
{
    let nb = usize::from(z.nb);
    z.fits() && n == nb && m == nb * usize::from(z.ne)
}

// K is at most P and at most NB - 1 below it, and P has a round.
fn rule1(ring: Ring, k: u32) -> bool
    ensures { result ≡ obeys1 ring.nb ring.p k }
{
    ring.is_current(k) && ring.p < 65536 * ring.nb
}

// The reading place is from claimed to written; c is the record of turn K's block.
fn rule2(c: Block, reading: u16) -> bool
    ensures { result ≡ obeys2 c reading }
{
    c.claimed <= reading && reading <= c.written
}

// The head's rules in their order. Place 64 is the head.
pub fn head_rules(h: &Head, table: &[Block; 64], ring: Ring) -> Result<(), Fault>
    requires { (ring.nb ≡ h.now.nb) × (ring.p ≡ h.now.p) }
    ensures { result ≡ head_asked h.now table.now }
{
    if !rule1(ring, h.k) {
        return Err(Fault::Broken(64, 1));
    }
    if !rule2(table[ring.current_block(h.k)], h.reading) {
        return Err(Fault::Broken(64, 2));
    }
    if !rule3(h, table, ring) {
        return Err(Fault::Broken(64, 3));
    }
    Ok(())
}
