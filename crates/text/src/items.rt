// What a line asks for: the form that its first word has, its numbers, and the item that they make.
ghost use Rattle.std.specs.Prelude.{◌≡◌, ◌+◌, ◌^◌, ◌<◌, is_some};
ghost use Rattle.std.specs.Option.{option_map};
ghost use Rattle.std.specs.List.{list_all};
ghost use Rattle.text.specs.Pieces.{words, numbers, byte};
ghost use Rattle.text.specs.Items.{form_of, IsByteCode, HasByteCode, args_of, step_item, size_item, bytes_item, times_item, name_of, name_item, item, is_named};
ghost use Rattle.text.specs.Parts.{more};

use crate::pieces::{Words, byte_of, first_word, number_of, skip_blanks};
use crate::wanted::Wanted;

// A step's word: its code; the most that a number in front of the others may be, which is added to the code, if there
// is one; and how many numbers follow.
#[derive(Clone, Copy, Debug, PartialEq, Eq)]
pub struct StepForm {
    pub code: u8,
    pub adding: Option<u8>,
    pub follow: u8,
    pub wanted: Wanted,
}

#[derive(Clone, Copy, Debug, PartialEq, Eq)]
pub enum Form {
    Step(StepForm),
    Size,
    Bytes,
    Times,
    Name,
}

// How many numbers a line has, and the first three, which is all that any item takes: nothing is allocated for the others.
#[derive(Clone, Copy, Debug, PartialEq, Eq)]
pub struct Args {
    pub count: usize,
    pub a: u32,
    pub b: u32,
    pub c: u32,
}

#[derive(Clone, Copy, Debug, PartialEq, Eq)]
pub enum Item {
    Nothing,
    Header {
        nb: u8,
        ne: u8,
        t: u8,
    },
    Steps {
        times: u32,
        code: u8,
        a: u32,
        b: u32,
    },
    Numbers,
    Named,
}

fn step_form(code: u8, adding: Option<u8>, follow: u8, wanted: Wanted) -> Option<Form>
    ensures { result ≡ Some (Form.Step (record { code = code; adding = adding; follow = follow; wanted = wanted })) }
{
    Some(Form::Step(StepForm {
        code,
        adding,
        follow,
        wanted,
    }))
}

// The form that a first word has.
#[tactic(auto, unfolding(crate::specs::Items::form_of))]
fn form_of(word: &[u8]) -> Option<Form>
    ensures is { result ≡ form_of word.now }
    ensures fits { HasByteCode result }
{
    match word {
        b"put" => step_form(0, None, 1, Wanted::Put),
        b"get" => step_form(1, None, 0, Wanted::Get),
        b"order" => step_form(2, None, 2, Wanted::Order),
        b"claim" => step_form(16, Some(15), 0, Wanted::Claim),
        b"fetch" => step_form(32, Some(15), 0, Wanted::Fetch),
        b"finish" => step_form(48, Some(15), 0, Wanted::Finish),
        b"look" => step_form(64, Some(15), 1, Wanted::Look),
        b"step" => step_form(0, Some(255), 2, Wanted::Step),
        b"size" => Some(Form::Size),
        b"bytes" => Some(Form::Bytes),
        b"times" => Some(Form::Times),
        b"=" => Some(Form::Name),
        _ => None,
    }
}

impl Args {
    // One number more.
    fn with(self, n: u32) -> Args
        requires { self.count + 1 < 2 ^ 64 }
        ensures { result ≡ more self n }
    {
        let Args { count, a, b, c } = self;
        Args {
            count: count + 1,
            a: if count == 0 { n } else { a },
            b: if count == 1 { n } else { b },
            c: if count == 2 { n } else { c },
        }
    }
}

// The numbers of a line, if all its words are numbers.
fn args_of(line: &[u8]) -> Option<Args>
    ensures { result ≡ option_map args_of (numbers line.now) }
{
    let mut args = Args {
        count: 0,
        a: 0,
        b: 0,
        c: 0,
    };
    for word in Words(line) {
        args = args.with(number_of(word)?);
    }
    Some(args)
}

// The step of a form, `times` times; the line is what stands behind its word.
fn step_item(form: StepForm, line: &[u8], times: u32) -> Result<Item, Wanted>
    requires { IsByteCode form }
    ensures { result ≡ step_item form (numbers line.now) times }
{
    let StepForm {
        code,
        adding,
        follow,
        wanted,
    } = form;
    let Args { count, a, b, c } = args_of(line).ok_or(wanted)?;
    match adding {
        None if count == usize::from(follow) => Ok(Item::Steps { times, code, a, b }),
        Some(most) if count == usize::from(follow) + 1 && a <= u32::from(most) => Ok(Item::Steps {
            times,
            code: code + a as u8,
            a: b,
            b: c,
        }),
        _ => Err(wanted),
    }
}

fn size_item(line: &[u8]) -> Result<Item, Wanted>
    ensures { result ≡ size_item (numbers line.now) }
{
    let Args { count, a, b, c } = args_of(line).ok_or(Wanted::Size)?;
    match (u8::try_from(a), u8::try_from(b), u8::try_from(c)) {
        (Ok(nb), Ok(ne), Ok(t)) if count == 3 => Ok(Item::Header { nb, ne, t }),
        _ => Err(Wanted::Size),
    }
}

fn all_bytes(line: &[u8]) -> bool
    ensures { result ≡ list_all (λ w. is_some (byte w)) (words line.now) }
{
    Words(line).all(|word| byte_of(word).is_some())
}

// One word or more, each a byte. That there is a word is asked of the first: counting them would read the line once more.
fn bytes_item(line: &[u8]) -> Result<Item, Wanted>
    ensures { result ≡ bytes_item (words line.now) }
{
    if Words(line).next().is_some() && all_bytes(line) {
        Ok(Item::Numbers)
    } else {
        Err(Wanted::Bytes)
    }
}

// The step that stands behind `times` and its number.
#[tactic(auto, unfolding(crate::specs::Items::times_item))]
fn times_item(line: &[u8]) -> Result<Item, Wanted>
    ensures { result ≡ times_item line.now }
{
    let (word, line) = first_word(line);
    let times = number_of(word).ok_or(Wanted::Times)?;
    let (word, line) = first_word(line);
    match form_of(word) {
        Some(Form::Step(form)) => step_item(form, line, times),
        _ => Err(Wanted::Times),
    }
}

// The name behind a line's first word.
#[tactic(auto, unfolding(crate::specs::Items::name_of))]
pub fn name_of(line: &[u8]) -> &[u8]
    ensures { result.now ≡ name_of line.now }
{
    let (_, line) = first_word(line);
    skip_blanks(line)
}

#[tactic(auto, unfolding(crate::specs::Items::name_item))]
fn name_item(line: &[u8]) -> Result<Item, Wanted>
    ensures { result ≡ name_item line.now }
{
    if name_of(line).is_empty() {
        return Err(Wanted::Name);
    }
    Ok(Item::Named)
}

// What a line asks for. A match on a closed enum, whose arms read different things: a closure is no plainer.
#[tactic(auto, unfolding(crate::specs::Items::item))]
pub fn item_of(line: &[u8]) -> Result<Item, Wanted>
    ensures { result ≡ item line.now }
{
    let (word, behind) = first_word(line);
    if let [] | [b'#', ..] = word {
        return Ok(Item::Nothing);
    }
    match form_of(word) {
        Some(Form::Step(form)) => step_item(form, behind, 1),
        Some(Form::Size) => size_item(behind),
        Some(Form::Bytes) => bytes_item(behind),
        Some(Form::Times) => times_item(behind),
        Some(Form::Name) => name_item(line),
        None => Err(Wanted::Line),
    }
}
