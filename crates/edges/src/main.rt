// Solves each system of the input again and again: in rooms that just suffice, in rooms that are one short, and with inputs that are damaged.
// Every answer and every lent buffer is compared. Before a call the list room, the order, the vector and the working slices hold sevens.
//
// A case's line says what was compared:
//   answer A    the answer's number, in more room than any system of the input needs
//   length N    the smallest list room that does not answer 5, found by halving; where A is 0 it is the number of operations reported
//   clean       after that first call the working slices are zeros, and so are list, order and vector beyond what is answered; where A is not 0
//               the slab is as it was
//   halving N   so many calls found the length; each answered 5, with the slab as it was and zeros elsewhere, or was as the first call
//   full        in a list room of the length, and every other room as long as its need, all is as after the first call
//   short N     so many calls had one of these rooms one shorter: order, vector or a working slice answered 4, with no buffer changed; the list's
//               room answered 5, with the slab as it was and zeros elsewhere (there is no such call where the length is 0)
//   damaged N   so many calls had a wrong number, a slice one shorter than the numbers say, or two faults at once, and answered the number of the
//               fault, or of the two faults the lower one, with no buffer changed
//   twos N      so many calls had a 2 at the edge of the binary matrix or of the octet rows' place in it, and answered 3, with no buffer changed;
//               in the place of given octet rows it is ignored, and all is as after the first call
// A call that was otherwise is not counted, and has a line before that of its case: `wrong`, what was tried, and the answer.
#![tactic(auto)]

mod calls;
mod faults;
mod lengths;
mod said;
mod same;
mod told;
mod trials;
mod twos;

use programs::read_full;
use said::put_case;
use std::io;
use std::io::Write;
use systems::{Read, System};
use trials::try_calls;

// The longest input, in bytes.
const MOST_TEXT: usize = 262144;

// Room for the slab of a case: 256 rows of 64 bytes.
const SLAB_ROOM: usize = 16384;

// The longest list room of a call; the lists of all cases are shorter.
const MOST_LIST: usize = 4096;

// What stands in a room before a call: a number, a byte, a word.
const FILL: usize = 7;

const FILL_BYTE: u8 = 7;

const FILL_WORD: u64 = 7;

// A case, with its buffers cut to what it has filled.
fn try_case<W: Write>(
    out: &mut W,
    name: &[u8],
    s: System,
    bits: &mut [u8],
    octets: &[u8],
    slab: &[u8],
) -> io::Result<()> {
    let b = s.bits.min(bits.len());
    let o = s.octets.min(octets.len());
    let n = s.slab.min(slab.len());
    match params::params(s.k) {
        Err(_) => {
            out.write_all(name)?;
            writeln!(out, " has no table entry")
        }
        Ok(g) => match solver::needs(s.m, s.l) {
            Err(_) => {
                out.write_all(name)?;
                writeln!(out, " is out of bounds")
            }
            Ok(r) => {
                let c = try_calls(out, s, g, r, &mut bits[..b], &octets[..o], &slab[..n])?;
                put_case(out, name, c)
            }
        },
    }
}

// The first case from a place on; where the input goes on, which is its end after a case that is malformed.
fn one<W: Write>(
    out: &mut W,
    text: &[u8],
    at: usize,
    bits: &mut [u8],
    octets: &mut [u8],
    slab: &mut [u8],
) -> io::Result<usize> {
    match systems::read(text, at, bits, octets, slab) {
        Read::Case(s, p) => {
            let end = p.end.min(text.len());
            try_case(out, &text[p.from.min(end)..end], s, bits, octets, slab)?;
            Ok(p.next)
        }
        Read::Malformed(p) => {
            programs::put_refused(out, text, p, systems::line_number(text, p.next))?;
            Ok(text.len())
        }
        Read::End => Ok(text.len()),
    }
}

// Every case of the input, up to one that is malformed.
fn all<W: Write>(out: &mut W, text: &[u8]) -> io::Result<()> {
    let mut bits = [0u8; programs::BITS_ROOM];
    let mut octets = [0u8; programs::OCTETS_ROOM];
    let mut slab = [0u8; SLAB_ROOM];
    let mut at = 0;
    while at < text.len() {
        let next = one(out, text, at, &mut bits, &mut octets, &mut slab)?;
        if next <= at {
            return Ok(());
        }
        at = next;
    }
    Ok(())
}

// Every case of standard input.
fn main(rt: HostRuntime) -> io::Result<()> {
    let mut input = [0u8; MOST_TEXT + 1];
    let n = read_full(&mut rt.stdin(), &mut input)?;
    let mut out = io::writer(&rt);
    if MOST_TEXT < n {
        return writeln!(out, "refused: the input is longer than {MOST_TEXT} bytes");
    }
    all(&mut out, &input[..n])
}
