// Recovers a block: solves the first case of the input and writes its intermediate symbols, or why there are none.
#![tactic(auto)]

ghost use Rattle.std.specs.Prelude.{◌≤◌};

use programs::{put_part, read_full};
use solver::{Answer, Counts, Display, Refusal, Report};
use std::io;
use std::io::Write;
use systems::{Read, System};

// The longest input, in bytes.
const MOST_TEXT: usize = 1048576;

// Room for any slab that an input can hold, which has two digits a byte.
const SLAB_ROOM: usize = 524288;

// The answer's number and name.
fn put_answer<W: Write>(out: &mut W, a: Answer) -> io::Result<()> {
    let number = solver::number(a);
    match a {
        Ok(_) => writeln!(out, "answer {number} Solved"),
        Err(refusal) => writeln!(out, "answer {number} {refusal:?}"),
    }
}

// What the receiver shows, where that is not the answer's name.
fn put_shown<W: Write>(out: &mut W, a: Answer) -> io::Result<()> {
    if solver::shown(a) == Display::ShortOfRank {
        writeln!(out, "shown short of rank")?;
    }
    Ok(())
}

// The sizes; a K without an entry in the table has no columns.
fn put_sizes<W: Write>(out: &mut W, s: System) -> io::Result<()> {
    write!(out, "rows {}", s.m)?;
    if 0 < s.l {
        write!(out, " columns {}", s.l)?;
    }
    writeln!(out, " bytes {}", s.t)
}

// The counts of a phase.
fn put_phase<W: Write>(out: &mut W, name: &str, c: Counts) -> io::Result<()> {
    writeln!(
        out,
        "phase {name} {} additions {} multiplications",
        c.adds, c.muls
    )
}

// How many operations there are, and the counts of each phase.
fn put_report<W: Write>(out: &mut W, r: Report) -> io::Result<()> {
    writeln!(out, "operations {}", r.operations)?;
    put_phase(out, "one", r.one)?;
    put_phase(out, "two", r.two)?;
    put_phase(out, "three", r.three)?;
    put_phase(out, "four", r.four)?;
    put_phase(out, "five", r.five)
}

// Where a slab row of t bytes begins.
fn row_start(row: usize, t: usize) -> usize
    ensures { result ≤ 16776960 }
{
    row.min(bounds::MOST_ROWS) * t.min(bounds::MOST_BYTES)
}

// Symbol j, which is a slab row of t bytes.
fn put_symbol<W: Write>(
    out: &mut W,
    j: usize,
    row: usize,
    t: usize,
    slab: &[u8],
) -> io::Result<()> {
    let from = row_start(row, t);
    write!(out, "symbol {j} ")?;
    put_part(out, slab, from, from + t.min(bounds::MOST_BYTES))?;
    writeln!(out)
}

// Symbol j for each entry j of the order.
fn put_symbols<W: Write>(out: &mut W, order: &[usize], t: usize, slab: &[u8]) -> io::Result<()> {
    for (j, row) in order.iter().enumerate() {
        put_symbol(out, j, *row, t, slab)?;
    }
    Ok(())
}

// The first l symbols: order entry j is the slab row that holds symbol j.
fn put_solved<W: Write>(
    out: &mut W,
    s: System,
    r: Report,
    order: &[usize],
    slab: &[u8],
) -> io::Result<()> {
    put_report(out, r)?;
    put_symbols(out, &order[..s.l.min(order.len())], s.t, slab)
}

// The first l octets of a vector.
fn put_vector<W: Write>(out: &mut W, vector: &[u8], l: usize) -> io::Result<()> {
    write!(out, "vector ")?;
    put_part(out, vector, 0, l)?;
    writeln!(out)
}

// What an answer means to the one who waits for the symbols.
fn put_meaning<W: Write>(
    out: &mut W,
    s: System,
    a: Answer,
    order: &[usize],
    vector: &[u8],
    slab: &[u8],
) -> io::Result<()> {
    match a {
        Ok(r) => put_solved(out, s, r, order, slab),
        Err(Refusal::BadCount) => writeln!(
            out,
            "K is zero, has no entry in the table of RFC 6330, or needs more than 256 columns."
        ),
        Err(Refusal::BadShape) => writeln!(
            out,
            "The number of rows, the bytes of a symbol or the length of an input does not fit the bounds or each other."
        ),
        Err(Refusal::BadEntry) => writeln!(
            out,
            "An entry of the binary matrix is neither 0 nor 1."
        ),
        Err(Refusal::NoRoom) => writeln!(
            out,
            "A room lent to the solver is shorter than it has to be; nothing was changed."
        ),
        Err(Refusal::ListFull) => writeln!(
            out,
            "The operations did not fit the list's room; no symbol was changed."
        ),
        Err(Refusal::NoPivot) => writeln!(
            out,
            "No binary row offers another pivot in phase one; no symbol was changed."
        ),
        Err(Refusal::Singular) => {
            writeln!(
                out,
                "A vector that is not zero is sent to zero by every row, so that the symbols are not determined; none was changed."
            )?;
            put_vector(out, vector, s.l)
        }
    }
}

// Solves the case whose inputs are at the front of the buffers, and says all that there is to say of its answer.
// The arrays stand here and in `vectors`, which lends them on to other functions.
fn solve_case<W: Write>(
    out: &mut W,
    s: System,
    bits: &[u8],
    octets: &[u8],
    slab: &mut [u8],
) -> io::Result<()> {
    let mut list = [0u64; programs::LIST_ROOM];
    let mut order = [0usize; programs::LINE_ROOM];
    let mut vector = [0u8; programs::LINE_ROOM];
    let a = programs::solve_case(s, bits, octets, slab, &mut list, &mut order, &mut vector);
    let n = s.slab.min(slab.len());
    put_answer(out, a)?;
    put_sizes(out, s)?;
    put_shown(out, a)?;
    put_meaning(out, s, a, &order, &vector, &slab[..n])
}

// The first case, read into the buffers.
fn first<W: Write>(
    out: &mut W,
    text: &[u8],
    bits: &mut [u8],
    octets: &mut [u8],
    slab: &mut [u8],
) -> io::Result<()> {
    match systems::read(text, 0, bits, octets, slab) {
        Read::Case(s, p) => {
            programs::put_name(out, text, p)?;
            solve_case(out, s, bits, octets, slab)
        }
        Read::Malformed(p) => {
            programs::put_name(out, text, p)?;
            programs::put_refused(out, text, p, systems::line_number(text, p.next))
        }
        Read::End => writeln!(out, "refused: no case in the input"),
    }
}

// The block of the input, over buffers for any matrix within the bounds and any slab that an input can hold.
fn block<W: Write>(out: &mut W, text: &[u8]) -> io::Result<()> {
    let mut bits = [0u8; programs::BITS_ROOM];
    let mut octets = [0u8; programs::OCTETS_ROOM];
    let mut slab = [0u8; SLAB_ROOM];
    first(out, text, &mut bits, &mut octets, &mut slab)
}

// The block of standard input.
fn main(rt: HostRuntime) -> io::Result<()> {
    let mut input = [0u8; MOST_TEXT + 1];
    let n = read_full(&mut rt.stdin(), &mut input)?;
    let mut out = io::writer(&rt);
    if MOST_TEXT < n {
        return writeln!(out, "refused: the input is longer than {MOST_TEXT} bytes");
    }
    block(&mut out, &input[..n])
}
