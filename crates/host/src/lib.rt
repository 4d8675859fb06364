#![tactic(auto)]

// Standard input as the programs of the house take it: into a room that they give, no more than that holds.
ghost use Rattle.std.specs.Io.{ReadsAtMost};

use std::io;
use std::io::Read;

// Reads until the room is full or the input ends, and answers how many bytes now stand at its front. For an empty room
// nothing is read. No method of std does it: to `read_exact` the input's end is an error, and `read_to_end` asks for
// memory, where the house has fixed rooms.
pub fn read_full<R: Read>(input: &mut R, room: &mut [u8]) -> io::Result<usize>
    ensures { ReadsAtMost result room.new }
{
    let mut done = 0;
    while done < room.len() {
        let n = input.read(&mut room[done..])?;
        if n == 0 {
            break;
        }
        done += n;
    }
    Ok(done)
}
