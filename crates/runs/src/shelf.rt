// Shelves: schedules one after the other, each with its name before it. Of each there is a line of text,
// the schedule's length in four bytes, high byte first, and its bytes. Its name is printed after a `#`,
// and then what playing it prints. A name that begins with a `#` is a section's, and no schedule's: it is
// printed after another `#`, and nothing is played. What is cut short at the end is not played.
ghost use Rattle.std.specs.Prelude.{◌≤◌, ◌<◌, IfOk, IfSome, length};

use std::io;

// The first line of text, and what stands behind it.
fn split_line(shelf: &[u8]) -> (&[u8], &[u8])
    requires { 0 < length shelf.now }
    ensures { length result.1.now < length shelf.now }
{
    match shelf.iter().position(|b| *b == b'\n') {
        Some(end) => (&shelf[..end], &shelf[end + 1..]),
        None => (shelf, &[]),
    }
}

// A schedule with its length before it, and what stands behind it. Of one that is cut short there is none.
fn split_schedule(shelf: &[u8]) -> Option<(&[u8], &[u8])>
    ensures { IfSome result (λ parts. length parts.1.now ≤ length shelf.now) }
{
    let (size, behind) = shelf.split_first_chunk::<4>()?;
    behind.split_at_checked(u32::from_be_bytes(*size) as usize)
}

fn print_name(rt: &impl Print, name: &[u8], is_section: bool) -> io::Result<()> {
    rt.write_all(b"#")?;
    if !is_section {
        rt.write_all(b" ")?;
    }
    rt.write_all(name)?;
    rt.write_all(b"\n")
}

// Prints what playing a schedule says.
fn print(rt: &impl Print, schedule: &[u8]) -> io::Result<()> {
    let mut out = [0u8; player::TEXT];
    let r = player::play(schedule, &mut out);
    rt.write_all(&out[..r])
}

// Plays the first schedule of a shelf, and answers what stands behind it: nothing, where it is cut short.
fn play_one<'a>(rt: &impl Print, shelf: &'a [u8]) -> io::Result<&'a [u8]>
    requires { 0 < length shelf.now }
    ensures { IfOk result (λ rest. length rest.now < length shelf.now) }
{
    let (name, behind) = split_line(shelf);
    let is_section = name.starts_with(b"#");
    print_name(rt, name, is_section)?;
    let Some((schedule, rest)) = split_schedule(behind) else {
        return Ok(&[]);
    };
    if !is_section {
        print(rt, schedule)?;
    }
    Ok(rest)
}

pub fn play_all(rt: &impl Print, shelf: &[u8]) -> io::Result<()> {
    let mut rest = shelf;
    while !rest.is_empty() {
        rest = play_one(rt, rest)?;
    }
    Ok(())
}
