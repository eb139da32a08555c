// Reads lines of a name and the bytes of a form in hexadecimal, and writes after each line what is shown of the form, quoted by `> `.
#![tactic(auto)]

ghost use Rattle.std.specs.Prelude.{◌≤◌, ◌<◌, length};

use std::io;

// The number that a digit says, or 0, where `systems` has none.
fn nibble(c: u8) -> u8
    ensures { result < 16 }
{
    match c {
        b'0'..=b'9' => c - b'0',
        b'a'..=b'f' => c - b'a' + 10,
        _ => 0,
    }
}

// The last word of a line.
fn last_word(line: &[u8]) -> &[u8] {
    match line.iter().rposition(|c| *c == b' ') {
        Some(k) => &line[k + 1..],
        None => line,
    }
}

// The bytes that pairs of digits say, as many as the room takes.
fn unhex(digits: &[u8], out: &mut [u8]) -> usize
    ensures { result ≤ length out.new }
{
    for (byte, pair) in out.iter_mut().zip(digits.chunks_exact(2)) {
        *byte = nibble(pair[0]) * 16 + nibble(pair[1]);
    }
    out.len().min(digits.len() / 2)
}

// A line without its end.
fn trimmed(line: &[u8]) -> &[u8] {
    line.strip_suffix(b"\n").unwrap_or(line)
}

fn put_line(rt: &impl Print, line: &[u8]) -> io::Result<()> {
    rt.write_all(line)?;
    rt.write_all(b"\n")
}

// Each line of a text, quoted.
fn put_quoted(rt: &impl Print, text: &[u8]) -> io::Result<()> {
    for line in text.split_inclusive(|c| *c == b'\n') {
        rt.write_all(b"> ")?;
        put_line(rt, trimmed(line))?;
    }
    Ok(())
}

fn show_line(rt: &impl Print, line: &[u8]) -> io::Result<()> {
    put_line(rt, line)?;
    let mut form = [0u8; 512];
    let n = unhex(last_word(line), &mut form);
    let mut list = [0u64; 128];
    let mut order = [0usize; 256];
    let mut out = [0u8; 4096];
    let k = shown::show(&form[..n], &mut list, &mut order, &mut out);
    put_quoted(rt, out.get(..k).unwrap_or(&[]))
}

fn main(rt: HostRuntime) -> io::Result<()> {
    let mut text = [0u8; 8192];
    let n = reading::read_full(&mut rt.reader(), &mut text)?;
    for line in text[..n].split_inclusive(|c| *c == b'\n') {
        show_line(&rt, trimmed(line))?;
    }
    Ok(())
}
