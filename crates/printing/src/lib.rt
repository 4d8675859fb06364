#![tactic(auto)]

// Printed lines: a number, a word and a value in decimal, with a space between, and a newline.
//
// A `Page` takes what is written, piece behind piece, into a room that its caller lends. What a line is stands in
// specs/Text.antt, and what a piece leaves of a page in specs/Page.antt. The room has a fixed size, and nothing is allocated.
// A line is no `write!`: that promises its text only where it answers Ok, and the player's text is promised unconditionally.
ghost use Rattle.std.specs.Prelude.{◌≡◌, ◌∷◌, [], ◌+◌, ◌≤◌, ◌<◌, length};
ghost use Rattle.printing.specs.Text.{decimal, line_text, answer_text, numbers_below};
ghost use Rattle.printing.specs.Writes.{letters_most, line_most};
ghost use Rattle.printing.specs.Page.{Blank, HasRoom, Wrote};

use words::{Answer, value, word};

// The longest line, in bytes: a number of four digits, a word of eight letters, a value of ten digits, two
// spaces and a newline.
pub const LINE: usize = 25;

// What is written stands in the first `len` bytes of the room.
#[derive(Drop)]
pub struct Page<'a> {
    pub room: &'a mut [u8],
    pub len: usize,
}

impl<'a> Page<'a> {
    // A page with nothing on it.
    pub fn new(room: &'a mut [u8]) -> Page<'a>
        ensures { Blank room.entry result }
    {
        Page { room, len: 0 }
    }

    pub fn byte(&mut self, byte: u8)
        requires { HasRoom 1 self.old }
        ensures { Wrote (byte ∷ []) self.old self.new }
    {
        self.room[self.len] = byte;
        self.len += 1;
    }

    #[tactic(auto, using(crate::proofs::Stores::copied))]
    pub fn bytes(&mut self, bytes: &[u8])
        requires { HasRoom (length bytes.now) self.old }
        ensures { Wrote bytes.now self.old self.new }
    {
        let end = self.len + bytes.len();
        self.room[self.len..end].copy_from_slice(bytes);
        self.len = end;
    }

    pub fn text(&mut self, text: &str)
        requires { HasRoom (length text.now) self.old }
        ensures { Wrote text.now self.old self.new }
    {
        self.bytes(text.as_bytes());
    }

    // A number in decimal: the digits above the last one first.
    #[tactic(auto, using(crate::proofs::Lines::digit_room, crate::proofs::Lines::one_digit, crate::proofs::Lines::tenth_room, crate::proofs::Lines::behind_tenth, crate::proofs::Lines::digit_behind))]
    pub fn number(&mut self, n: u32)
        requires { HasRoom (length (decimal n)) self.old }
        ensures { Wrote (decimal n) self.old self.new }
    {
        let single = n < 10;
        if single {
            self.byte(b'0' + n as u8);
            return;
        }
        self.number(n / 10);
        self.byte(b'0' + (n % 10) as u8);
    }

    // A line: number, word and value, with a space between, and a newline.
    #[tactic(auto, using(crate::proofs::Lines::number_room, crate::proofs::Lines::behind_number, crate::proofs::Lines::first_space, crate::proofs::Lines::word_room, crate::proofs::Lines::behind_word, crate::proofs::Lines::second_space, crate::proofs::Lines::value_room, crate::proofs::Lines::behind_value))]
    pub fn line(&mut self, number: u32, word: &str, value: u32)
        requires { HasRoom line_most self.old × (number < numbers_below) × (length word.now ≤ letters_most) }
        ensures writes { Wrote (line_text number word.now value) self.old self.new }
        ensures upper_bound { self.new.len ≤ self.old.len + line_most }
    {
        self.number(number);
        self.byte(b' ');
        self.text(word);
        self.byte(b' ');
        self.number(value);
        self.byte(b'\n');
    }

    // The line of step `number`, which `answer` answered.
    pub fn answer(&mut self, number: u32, answer: Answer)
        requires { HasRoom line_most self.old × (number < numbers_below) }
        ensures writes { Wrote (answer_text number answer) self.old self.new }
        ensures upper_bound { self.new.len ≤ self.old.len + line_most }
    {
        self.line(number, word(answer), value(answer));
    }
}
