// What a text is refused for.
ghost use Rattle.std.specs.Prelude.{◌≡◌, Some};
ghost use Rattle.words.specs.Words.{letters};
ghost use Rattle.text.specs.Told.{told, told_of};

use std::fmt;

// What was wanted where a line is refused: the form that its first word has; a line of any form; or less.
#[derive(Clone, Copy, Debug, PartialEq, Eq)]
pub enum Wanted {
    Size,
    Put,
    Get,
    Order,
    Look,
    Claim,
    Fetch,
    Finish,
    Step,
    Bytes,
    Times,
    Name,
    Line,
    Room,
}

// The text is longer than any that is taken; or the line that is refused, from 1, and what was wanted there.
#[derive(Clone, Copy, Debug, PartialEq, Eq)]
pub enum Bad {
    TooLong,
    Line(usize, Wanted),
}

impl Wanted {
    fn told(self) -> &'static str
        ensures { result.now ≡ letters (told self) }
    {
        match self {
            Wanted::Size => "size NB NE T, each of 0 to 255",
            Wanted::Put => "put A",
            Wanted::Get => "get, and nothing behind it",
            Wanted::Order => "order A B",
            Wanted::Look => "look DESK BLOCK, with a desk of 0 to 15",
            Wanted::Claim => "claim DESK, with a desk of 0 to 15",
            Wanted::Fetch => "fetch DESK, with a desk of 0 to 15",
            Wanted::Finish => "finish DESK, with a desk of 0 to 15",
            Wanted::Step => "step CODE A B, with a code of 0 to 255",
            Wanted::Bytes => "bytes X Y .., each of 0 to 255",
            Wanted::Times => "times N and a step",
            Wanted::Name => "= NAME",
            Wanted::Line => "a step, size, bytes, times, = or #",
            Wanted::Room => "at most 262144 bytes in all",
        }
    }
}

impl fmt::Display for Wanted {
    ghost output = { λ w. Some (letters (told w)) };

    fn fmt<W: fmt::Write>(&self, f: &mut fmt::Formatter<W>) -> fmt::Result {
        f.write_str(self.told())
    }
}

// The whole text is told as line 0.
impl fmt::Display for Bad {
    ghost output = { λ b. Some (told_of b) };

    fn fmt<W: fmt::Write>(&self, f: &mut fmt::Formatter<W>) -> fmt::Result {
        match self {
            Bad::TooLong => write!(f, "line 0: wanted a text of at most 262144 bytes"),
            Bad::Line(number, wanted) => write!(f, "line {number}: wanted {wanted}"),
        }
    }
}
