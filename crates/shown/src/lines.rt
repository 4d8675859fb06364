// The lines of a schedule's text: a word, and numbers behind it.
ghost use Rattle.std.specs.Prelude.{◌∷◌, length};
ghost use Rattle.printing.specs.Text.{space, decimal};
ghost use Rattle.printing.specs.Page.{HasRoom, Wrote};
ghost use Rattle.schedule.specs.Messages.{step_of};
ghost use Rattle.shown.specs.Shown.{line_of, line_text, step_text};

use printing::Page;
use schedule::Message;

// A number and the space before it.
fn write_number(page: &mut Page<'_>, n: u32)
    requires { HasRoom (length (space ∷ decimal n)) page.old }
    ensures { Wrote (space ∷ decimal n) page.old page.new }
{
    page.byte(b' ');
    page.number(n);
}

pub fn write_line(page: &mut Page<'_>, word: &str, numbers: &[u32])
    requires { HasRoom (length (line_of word.now numbers.now)) page.old }
    ensures { Wrote (line_of word.now numbers.now) page.old page.new }
{
    page.text(word);
    for n in numbers {
        write_number(page, *n);
    }
    page.byte(b'\n');
}

// The line of a step.
#[tactic(auto, unfolding(crate::specs::Shown::step_text))]
pub fn write_step(page: &mut Page<'_>, step: Message)
    requires { HasRoom (length (step_text (step_of step))) page.old }
    ensures { Wrote (step_text (step_of step)) page.old page.new }
{
    let Message { code, a, b } = step;
    let n = u32::from(code);
    match (code, a, b) {
        (0, _, 0) => write_line(page, "put", &[a]),
        (1, 0, 0) => write_line(page, "get", &[]),
        (2, _, _) => write_line(page, "order", &[a, b]),
        (16..=31, 0, 0) => write_line(page, "claim", &[n - 16]),
        (32..=47, 0, 0) => write_line(page, "fetch", &[n - 32]),
        (48..=63, 0, 0) => write_line(page, "finish", &[n - 48]),
        (64..=79, _, 0) => write_line(page, "look", &[n - 64, a]),
        _ => write_line(page, "step", &[n, a, b]),
    }
}

// The line of a step that is cut short: its bytes. It has its own loop: one for all that widens to a number would have
// to be told, with each type, which number a value is.
pub fn write_cut(page: &mut Page<'_>, bytes: &[u8])
    requires { HasRoom (length (line_text "bytes" bytes.now)) page.old }
    ensures { Wrote (line_text "bytes" bytes.now) page.old page.new }
{
    page.text("bytes");
    for b in bytes {
        write_number(page, u32::from(*b));
    }
    page.byte(b'\n');
}
