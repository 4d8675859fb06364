#![tactic(auto)]

// The block table, as the portal lends it: a slice of records in block order. `record_at` and `replace` are the thin
// functions that read or replace one record, as the customer asked; `load` and `store` go over the table with them, record by
// record, between the lent slice and the table of 64 records that the engine takes by value. `count` is how many are lent.
ghost use Rattle.std.specs.Prelude.{◌≡◌, ◌<◌, length, set, get_or};
ghost use Rattle.line.specs.Line.{unused};
ghost use Rattle.table.specs.Laid.{loaded, stored};

use byvalue::no_table;
use line::Block;

// How many records are lent.
pub fn count(table: &[Block]) -> usize
    ensures { result ≡ length table.now }
{
    table.len()
}

// One record is read.
fn record_at(table: &[Block], i: usize) -> Block
    requires { i < length table.now }
    ensures { result ≡ get_or table.now i unused }
{
    table[i]
}

// One record is replaced, and the others stay.
fn replace(table: &mut [Block], i: usize, b: Block)
    requires { i < length table.old }
    ensures { table.new ≡ set table.old i b }
{
    table[i] = b;
}

// The lent records, in a table of 64, with records of unused blocks behind them. Those past 64 are left out.
pub fn load(table: &[Block]) -> [Block; 64]
    ensures { result ≡ loaded table.now }
{
    let mut t = no_table();
    for (i, room) in t[..table.len().min(64)].iter_mut().enumerate() {
        *room = record_at(table, i);
    }
    t
}

// The records of the table of 64, over those that are lent. Lent ones past 64 stay.
pub fn store(table: &mut [Block], t: [Block; 64])
    ensures { table.new ≡ stored table.old t }
{
    for (i, b) in t[..table.len().min(64)].iter().enumerate() {
        replace(table, i, *b);
    }
}
