#![tactic(auto)]

// The bytes of the schedule whose text is on standard input, on standard output. A text that is refused is told on
// standard error, and nothing is written on standard output.
use host::read_full;
use std::io;

// Room for one byte more than the longest text has, so that a longer one is seen to be.
const TEXT: usize = text::ROOM + 1;

fn main(rt: HostRuntime) -> io::Result<()> {
    let mut input = [0u8; TEXT];
    let n = read_full(&mut rt.stdin(), &mut input)?;
    let mut out = [0u8; text::ROOM];
    match text::bytes_of(&input[..n], &mut out) {
        Ok(made) => rt.write_all(&out[..made]),
        Err(bad) => refusals::say(&rt.stderr(), bad),
    }
}
