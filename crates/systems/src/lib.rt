// Systems as text. A case is the lines `case NAME`, `sys K HDPC M T`, a line `b HEX` for each row of the binary matrix, a line `o HEX` for each
// octet row where HDPC is 1, `s HEX` for the slab, and `go`. Numbers are decimal; HEX is two digits a byte; the first column is the top bit of
// a row's first byte.
#![tactic(auto)]

ghost use Rattle.std.specs.Prelude.{◌≡◌, drop};
ghost use Rattle.systems.specs.Text.{lines_in, line_number_of};
ghost use Rattle.systems.specs.Lined.{buffers};
ghost use Rattle.systems.specs.Cases.{FoundAt, ended, rows_of, lines_of, outcome, read_of};

use told::Turn;

mod digits;
mod rows;
mod told;
mod words;

pub use told::{Place, Read, System};

// Where the first `case` line from a line's beginning on begins, or a place past the text.
#[tactic(auto, using(crate::specs::Text::line_ends))]
fn find(text: &[u8], from: usize) -> usize
    ensures { FoundAt text.now from result }
{
    let mut at = from;
    while at < text.len() {
        let end = words::line_end(text, at);
        if text[at..end].starts_with(b"case ") {
            return at;
        }
        at = end + 1;
    }
    at
}

// No struct holds the three buffers: each kind of line writes one of them, and the caller lends them one by one.
// The lines of a case after its `sys` line: the case and where the text goes on, or where the line begins that has no place in it.
#[tactic(auto, using(crate::specs::Text::line_ends))]
fn read_rows(
    text: &[u8],
    from: usize,
    first: System,
    bits: &mut [u8],
    octets: &mut [u8],
    slab: &mut [u8],
) -> Result<(System, usize), usize>
    ensures { ended result (buffers bits.new octets.new slab.new) ≡ rows_of (lines_in (drop from text.now)) from first (buffers bits.old octets.old slab.old) }
{
    let mut s = first;
    let mut at = from;
    while at < text.len() {
        let end = words::line_end(text, at);
        match rows::read_line(&text[at..end], s, bits, octets, slab).ok_or(at)? {
            Turn::On(next) => {
                s = next;
                at = end + 1;
            }
            Turn::Go => return Ok((s, end + 1)),
        }
    }
    Err(at)
}

// The same of the lines after its name.
#[tactic(auto, using(crate::specs::Text::line_ends))]
fn read_lines(
    text: &[u8],
    from: usize,
    bits: &mut [u8],
    octets: &mut [u8],
    slab: &mut [u8],
) -> Result<(System, usize), usize>
    ensures { ended result (buffers bits.new octets.new slab.new) ≡ lines_of (lines_in (drop from text.now)) from (buffers bits.old octets.old slab.old) }
{
    if text.len() <= from {
        return Err(from);
    }
    let end = words::line_end(text, from);
    let s = rows::read_head(&text[from..end]).ok_or(from)?;
    read_rows(text, end + 1, s, bits, octets, slab)
}

// The first case from a place on, its matrix, octet rows and slab put at the front of the buffers.
#[tactic(auto, using(crate::specs::Text::line_ends))]
pub fn read(text: &[u8], from: usize, bits: &mut [u8], octets: &mut [u8], slab: &mut [u8]) -> Read
    ensures { outcome result (buffers bits.new octets.new slab.new) ≡ read_of text.now from (buffers bits.old octets.old slab.old) }
{
    let at = find(text, from);
    if text.len() <= at {
        return Read::End;
    }
    let end = words::line_end(text, at);
    match read_lines(text, end + 1, bits, octets, slab) {
        Ok((s, next)) => Read::Case(
            s,
            Place {
                from: at,
                end,
                next,
            },
        ),
        Err(next) => Read::Malformed(Place {
            from: at,
            end,
            next,
        }),
    }
}

// The number of the line that a place is in; the first line is 1. The newlines are counted by a sum, which becomes vector code, and `filter` doesn't.
pub fn line_number(text: &[u8], place: usize) -> usize
    ensures { result ≡ line_number_of text.now place }
{
    let before = &text[..place.min(text.len())];
    1 + before
        .iter()
        .map(|b| usize::from(*b == b'\n'))
        .sum::<usize>()
}
