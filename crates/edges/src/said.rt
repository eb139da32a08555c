// What is written: a line for each case, and one for each call that is wrong.
use crate::told::Compared;
use solver::Answer;
use std::io;
use std::io::Write;

// Whether what was tried is right; where not, that is said.
pub(crate) fn is_right<W: Write>(
    out: &mut W,
    right: bool,
    what: &str,
    a: Answer,
) -> io::Result<bool> {
    if !right {
        writeln!(out, "wrong {what} answer {}", solver::number(a))?;
    }
    Ok(right)
}

// Whether what was tried at a place is right; where not, that is said.
// Not `is_right` with a place or none, which would say as much at each of its calls.
pub(crate) fn is_right_at<W: Write>(
    out: &mut W,
    right: bool,
    what: &str,
    place: usize,
    a: Answer,
) -> io::Result<bool> {
    if !right {
        writeln!(out, "wrong {what} {place} answer {}", solver::number(a))?;
    }
    Ok(right)
}

// A word, where what it says is right.
fn put_if<W: Write>(out: &mut W, right: bool, word: &str) -> io::Result<()> {
    if right {
        write!(out, " {word}")?;
    }
    Ok(())
}

// A case's line.
pub(crate) fn put_case<W: Write>(out: &mut W, name: &[u8], c: Compared) -> io::Result<()> {
    out.write_all(name)?;
    write!(out, " answer {} length {}", c.answer, c.length)?;
    put_if(out, c.clean, "clean")?;
    write!(out, " halving {}", c.halving)?;
    put_if(out, c.full, "full")?;
    writeln!(
        out,
        " short {} damaged {} twos {}",
        c.short, c.damaged, c.twos
    )
}
