#![tactic(auto)]

// Texts on standard input, one behind the other, a byte 0 behind each: each is printed, and what is said of it.
use host::read_full;
use std::io;

// A text, and the line that is refused, or how many bytes it has.
fn answer_one(rt: &impl Print, t: &[u8]) -> io::Result<()> {
    let mut out = [0u8; text::ROOM];
    rt.write_all(t)?;
    rt.write_all(b"\n=> ")?;
    match text::bytes_of(t, &mut out) {
        Ok(made) => println!(rt; "{made} bytes"),
        Err(bad) => refusals::say(rt, bad),
    }
}

fn answer_all(rt: &impl Print, input: &[u8]) -> io::Result<()> {
    for t in input.split_inclusive(|b| *b == 0) {
        answer_one(rt, t.strip_suffix(b"\0").unwrap_or(t))?;
    }
    Ok(())
}

fn main(rt: HostRuntime) -> io::Result<()> {
    let mut input = [0u8; 65536];
    let n = read_full(&mut rt.stdin(), &mut input)?;
    answer_all(&rt, &input[..n])
}
