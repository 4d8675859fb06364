// The pieces of a text: lines, words and numbers. Their meaning stands in specs/Pieces.antt.
ghost use Rattle.std.specs.Prelude.{◌≡◌, ◌<◌, length};
ghost use Rattle.std.specs.Iterator.{YieldsFirstRef, at_most, item_count};
ghost use Rattle.text.specs.Pieces.{bare, is_blank, skip, word, behind, words, number, byte};
ghost use Rattle.text.specs.Parts.{FirstLine, LineGiven};

// A line without a carriage return at its end.
#[tactic(auto, unfolding(crate::specs::Pieces::bare_length))]
fn bare(line: &[u8]) -> &[u8]
    ensures { result.now ≡ bare line.now }
{
    match line {
        [bare @ .., b'\r'] => bare,
        _ => line,
    }
}

// The first line of a text, and what stands behind it.
fn first_line(text: &[u8]) -> (&[u8], &[u8])
    requires { 0 < length text.now }
    ensures { FirstLine text.now result.0.now result.1.now }
{
    let end = text.iter().position(|b| *b == b'\n').unwrap_or(text.len());
    let (line, rest) = text.split_at(end);
    let behind = match rest {
        [_, behind @ ..] => behind,
        [] => rest,
    };
    (bare(line), behind)
}

// The lines of a text, each with the text behind it.
#[derive(Clone, Copy)]
pub struct Lines<'a>(pub &'a [u8]);

impl<'a> Iterator for Lines<'a> {
    type Item = (&'a [u8], &'a [u8]);

    ghost next_gives = { LineGiven };

    ghost remaining = { λ s. at_most (length s.0.now) };

    fn next(&mut self) -> Option<(&'a [u8], &'a [u8])> {
        let text = self.0;
        if text.is_empty() {
            return None;
        }
        let (line, behind) = first_line(text);
        self.0 = behind;
        Some((line, behind))
    }
}

fn is_blank(b: u8) -> bool
    ensures { result ≡ is_blank b }
{
    matches!(b, b' ' | b'\t')
}

// What stands behind the blanks at the front.
pub fn skip_blanks(line: &[u8]) -> &[u8]
    ensures { result.now ≡ skip line.now }
{
    let start = line
        .iter()
        .position(|b| !is_blank(*b))
        .unwrap_or(line.len());
    &line[start..]
}

// The first word of a line, and what stands behind it.
pub fn first_word(line: &[u8]) -> (&[u8], &[u8])
    ensures word { result.0.now ≡ word line.now }
    ensures behind { result.1.now ≡ behind line.now }
{
    let line = skip_blanks(line);
    let end = line.iter().position(|b| is_blank(*b)).unwrap_or(line.len());
    line.split_at(end)
}

// The words of a line.
#[derive(Clone, Copy)]
pub struct Words<'a>(pub &'a [u8]);

impl<'a> Iterator for Words<'a> {
    type Item = &'a [u8];

    ghost next_gives = { YieldsFirstRef (λ s. words s.0.now) };

    ghost remaining = { item_count (λ s. words s.0.now) };

    fn next(&mut self) -> Option<&'a [u8]> {
        let (word, behind) = first_word(self.0);
        if word.is_empty() {
            return None;
        }
        self.0 = behind;
        Some(word)
    }
}

// How many words a line has.
pub fn count_words(line: &[u8]) -> usize
    ensures { result ≡ length (words line.now) }
{
    Words(line).count()
}

// The number that a word says: digits alone, where std's `parse` takes a plus sign too.
pub fn number_of(word: &[u8]) -> Option<u32>
    ensures { result ≡ number word.now }
{
    if word.is_empty() {
        return None;
    }
    let mut n = 0u32;
    for b in word {
        if !b.is_ascii_digit() {
            return None;
        }
        n = n.checked_mul(10)?.checked_add(u32::from(*b - b'0'))?;
    }
    Some(n)
}

// The byte that a word says.
#[tactic(auto, unfolding(crate::specs::Pieces::byte))]
pub fn byte_of(word: &[u8]) -> Option<u8>
    ensures { result ≡ byte word.now }
{
    u8::try_from(number_of(word)?).ok()
}
