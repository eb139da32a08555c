// Text on a writer.
use std::io;
use std::io::Write;
use systems::Place;

// How many bytes are spelt and written at once: a writer without a buffer makes a call of the system for each write.
const BLOCK: usize = 256;

// The hexadecimal digit of a number's last four bits.
fn digit(n: u8) -> u8 {
    let d = n % 16;
    if d < 10 { b'0' + d } else { b'a' - 10 + d }
}

// Writes bytes as digits, two for each.
pub fn put_bytes<W: Write>(out: &mut W, bytes: &[u8]) -> io::Result<()> {
    for block in bytes.chunks(BLOCK) {
        let mut digits = [0u8; 2 * BLOCK];
        for (i, b) in block.iter().enumerate() {
            digits[2 * i] = digit(*b / 16);
            digits[2 * i + 1] = digit(*b);
        }
        out.write_all(&digits[..2 * block.len()])?;
    }
    Ok(())
}

// Writes the bytes from a place on, up to an end, as digits.
pub fn put_part<W: Write>(out: &mut W, bytes: &[u8], from: usize, end: usize) -> io::Result<()> {
    let end = end.min(bytes.len());
    put_bytes(out, &bytes[from.min(end)..end])
}

// The line of a case's name.
pub fn put_name<W: Write>(out: &mut W, text: &[u8], p: Place) -> io::Result<()> {
    let end = p.end.min(text.len());
    out.write_all(&text[p.from.min(end)..end])?;
    writeln!(out)
}

// Why a case is not taken: it goes wrong at the line of this number, or the text ends before it does.
pub fn put_refused<W: Write>(out: &mut W, text: &[u8], p: Place, line: usize) -> io::Result<()> {
    if text.len() <= p.next {
        return writeln!(out, "refused: the case has no line go");
    }
    writeln!(
        out,
        "refused line {line}: not a line that a case can have there"
    )
}
