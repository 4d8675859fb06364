#![tactic(auto)]

// What a person is told of a text that is refused.
use std::io;
use text::Bad;

// Which line is refused, and what was wanted there.
pub fn say(to: &impl Print, bad: Bad) -> io::Result<()> {
    println!(to; "{bad}")
}
