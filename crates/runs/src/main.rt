#![tactic(auto)]

// The runs that are not proved as cases: the schedules of the folder schedules/, those of "Either side of
// the line", and those at the limits of a schedule and of its numbers. WORN takes more steps than a
// schedule has: see `worn`.
mod shelf;

ghost use Rattle.std.specs.Prelude.{◌≡◌, length};

use host::read_full;
use shelf::play_all;
use std::io;

// Room for all shelves, in bytes. Where they fill it the last may be cut short, and that is said.
const ROOM: usize = 1048576;

// Made apart, by the law of its length: where the array stands in `main` itself, the check takes a step for each byte of
// it, and stops at its limit.
fn room() -> [u8; ROOM]
    ensures { 1048576 ≡ length result }
{
    [0; ROOM]
}

fn main(rt: HostRuntime) -> io::Result<()> {
    let mut input = room();
    let n = read_full(&mut rt.stdin(), &mut input)?;
    play_all(&rt, &input[..n])?;
    if n == ROOM {
        rt.write_all(b"the shelves fill their room\n")?;
    }
    Ok(())
}
