#![tactic(auto)]

// Plays the schedule on standard input, and prints its lines on standard output.
use host::read_full;
use std::io;

// Room for one byte more than the longest schedule has, so that a longer one is seen to be.
const ROOM: usize = schedule::LIMIT + 1;

fn main(rt: HostRuntime) -> io::Result<()> {
    let mut input = [0u8; ROOM];
    let n = read_full(&mut rt.stdin(), &mut input)?;
    let mut out = [0u8; player::TEXT];
    let r = player::play(&input[..n], &mut out);
    rt.write_all(&out[..r])
}
