#![tactic(auto)]

// The text of the schedule whose bytes are on standard input, on standard output. Of a schedule that the player refuses
// the player's line is told on standard error, and nothing is written on standard output.
use host::read_full;
use std::io;

// Room for one byte more than the longest schedule has, so that a longer one is seen to be.
const SCHEDULE: usize = schedule::LIMIT + 1;

fn main(rt: HostRuntime) -> io::Result<()> {
    let mut input = [0u8; SCHEDULE];
    let n = read_full(&mut rt.stdin(), &mut input)?;
    let mut out = [0u8; shown::ROOM];
    match shown::text_of(&input[..n], &mut out) {
        Ok(len) => rt.write_all(&out[..len]),
        Err(why) => eprintln!(rt; "0 {why} 0"),
    }
}
