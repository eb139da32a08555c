// Solves each system of the input and writes its answer. The input is taken in parts of whole lines; a case that goes on behind a part is kept
// for the next. A case that does not fit what can be held is refused, and a line that does not is skipped; reading goes on behind it.
#![tactic(auto)]

ghost use Rattle.std.specs.Prelude.{◌≤◌, ◌<◌, length, IfOk, IfSome};

use oplist::Op;
use programs::put_bytes;
use solver::{Answer, Refusal, Report};
use std::io;
use std::io::Write;
use systems::{Place, Read, System};

// How much of the input is held at once, in bytes: more than any case within the bounds.
const HELD: usize = 2097152;

// More parts than an input has.
const MOST_PARTS: usize = 1099511627776;

// More lines than an input has.
const MOST_LINES: usize = 1099511627776;

// Room for the slab of a case: 256 rows of 64 bytes.
const SLAB_ROOM: usize = 16384;

// A name and a line of bytes.
fn put_hex<W: Write>(out: &mut W, name: &str, bytes: &[u8]) -> io::Result<()> {
    write!(out, "{name} ")?;
    put_bytes(out, bytes)?;
    writeln!(out)
}

// An operation, by its kind's letter; `?` for a word that is none.
fn put_op<W: Write>(out: &mut W, w: u64) -> io::Result<()> {
    match oplist::unpack(w) {
        Some(Op::AddAssign(dest, src)) => write!(out, "a:{dest}:{src}"),
        Some(Op::MulAssign(dest, scalar)) => write!(out, "m:{dest}:{scalar}"),
        Some(Op::FMA(dest, src, scalar)) => write!(out, "f:{dest}:{src}:{scalar}"),
        None => write!(out, "?"),
    }
}

// Operations, a space between two.
fn put_ops<W: Write>(out: &mut W, list: &[u64]) -> io::Result<()> {
    for (i, w) in list.iter().enumerate() {
        if 0 < i {
            write!(out, " ")?;
        }
        put_op(out, *w)?;
    }
    Ok(())
}

// Row numbers, a space before each.
fn put_rows<W: Write>(out: &mut W, order: &[usize]) -> io::Result<()> {
    for row in order {
        write!(out, " {row}")?;
    }
    Ok(())
}

// The first n operations.
fn put_list<W: Write>(out: &mut W, list: &[u64], n: usize) -> io::Result<()> {
    write!(out, "ops ")?;
    put_ops(out, &list[..n.min(list.len())])?;
    writeln!(out)
}

// The first l entries.
fn put_order<W: Write>(out: &mut W, order: &[usize], l: usize) -> io::Result<()> {
    write!(out, "order")?;
    put_rows(out, &order[..l.min(order.len())])?;
    writeln!(out)
}

// The first l octets.
fn put_vector<W: Write>(out: &mut W, vector: &[u8], l: usize) -> io::Result<()> {
    put_hex(out, "vector", &vector[..l.min(vector.len())])
}

// The additions of each phase, and the multiplications.
fn put_counts<W: Write>(out: &mut W, r: Report) -> io::Result<()> {
    writeln!(
        out,
        "adds {} {} {} {} {}",
        r.one.adds, r.two.adds, r.three.adds, r.four.adds, r.five.adds
    )?;
    writeln!(
        out,
        "muls {} {} {} {} {}",
        r.one.muls, r.two.muls, r.three.muls, r.four.muls, r.five.muls
    )
}

// What there is to say of a solved system.
fn put_solved<W: Write>(
    out: &mut W,
    s: System,
    r: Report,
    list: &[u64],
    order: &[usize],
    slab: &[u8],
) -> io::Result<()> {
    writeln!(out, "length {}", r.operations)?;
    put_list(out, list, r.operations)?;
    put_order(out, order, s.l)?;
    put_counts(out, r)?;
    put_hex(out, "slab", slab)
}

// The answer's number, and what comes with it.
fn put_answer<W: Write>(
    out: &mut W,
    s: System,
    a: Answer,
    list: &[u64],
    order: &[usize],
    vector: &[u8],
    slab: &[u8],
) -> io::Result<()> {
    writeln!(out, "answer {}", solver::number(a))?;
    match a {
        Ok(r) => put_solved(out, s, r, list, order, slab),
        Err(Refusal::Singular) => put_vector(out, vector, s.l),
        _ => Ok(()),
    }
}

// Solves the case whose inputs are at the front of the buffers, and writes its answer.
fn solve_case<W: Write>(
    out: &mut W,
    s: System,
    bits: &[u8],
    octets: &[u8],
    slab: &mut [u8],
) -> io::Result<()> {
    let mut list = [0u64; programs::LIST_ROOM];
    let mut order = [0usize; programs::LINE_ROOM];
    let mut vector = [0u8; programs::LINE_ROOM];
    let a = programs::solve_case(s, bits, octets, slab, &mut list, &mut order, &mut vector);
    let n = s.slab.min(slab.len());
    put_answer(out, s, a, &list, &order, &vector, &slab[..n])
}

// A part of the input, how many lines were before it, and whether it is the last one.
#[derive(Clone, Copy)]
struct Part<'a> {
    text: &'a [u8],
    lines: usize,
    last: bool,
}

// Where a part goes on, or where the rest of it begins, before which more of the input has to be there.
// Neither is a failure, so no `Result`.
#[derive(Clone, Copy)]
enum Next {
    On(usize),
    Waits(usize),
}

// The number of the input's line that a place of a text is in, `lines` being those before the text.
fn line_at(text: &[u8], place: usize, lines: usize) -> usize {
    lines.min(MOST_LINES) + systems::line_number(text, place).min(HELD)
}

// A line that has no place in its case; the end of a part that is not the last may stand within a case.
fn refuse<W: Write>(out: &mut W, part: Part, p: Place) -> io::Result<Next> {
    let text = part.text;
    if !part.last && text.len() <= p.next {
        return Ok(Next::Waits(p.from));
    }
    programs::put_name(out, text, p)?;
    programs::put_refused(out, text, p, line_at(text, p.next, part.lines))?;
    writeln!(out, "end")?;
    Ok(Next::On(p.next))
}

// The first case from a place on.
fn one<W: Write>(
    out: &mut W,
    part: Part,
    at: usize,
    bits: &mut [u8],
    octets: &mut [u8],
    slab: &mut [u8],
) -> io::Result<Next> {
    match systems::read(part.text, at, bits, octets, slab) {
        Read::Case(s, p) => {
            programs::put_name(out, part.text, p)?;
            solve_case(out, s, bits, octets, slab)?;
            writeln!(out, "end")?;
            Ok(Next::On(p.next))
        }
        Read::Malformed(p) => refuse(out, part, p),
        Read::End => Ok(Next::On(part.text.len())),
    }
}

// Every case of a part; where the rest begins that has to wait.
fn all<W: Write>(out: &mut W, part: Part) -> io::Result<usize>
    ensures { IfOk result (λ n. n ≤ length part.entry.text.now) }
{
    let mut bits = [0u8; programs::BITS_ROOM];
    let mut octets = [0u8; programs::OCTETS_ROOM];
    let mut slab = [0u8; SLAB_ROOM];
    let text = part.text;
    let mut at = 0;
    while at < text.len() {
        match one(out, part, at, &mut bits, &mut octets, &mut slab)? {
            Next::Waits(place) => return Ok(place.min(text.len())),
            Next::On(place) => {
                if place <= at {
                    break;
                }
                at = place;
            }
        }
    }
    Ok(text.len())
}

// How many bytes the whole lines of a text take.
fn whole_lines(text: &[u8]) -> usize
    ensures { result ≤ length text.now }
{
    match text.iter().rposition(|b| *b == b'\n') {
        Some(newline) => newline + 1,
        None => 0,
    }
}

// Where the first newline is.
fn first_newline(text: &[u8]) -> Option<usize>
    ensures { IfSome result (λ i. i < length text.now) }
{
    text.iter().position(|b| *b == b'\n')
}

// What is held of the input: how many bytes, how many lines were before them, and whether they begin within a line that is skipped.
#[derive(Clone, Copy)]
struct Held {
    bytes: usize,
    lines: usize,
    skips: bool,
}

// Holds what is behind a newline.
fn keep(buffer: &mut [u8], newline: usize, lines: usize) -> Held
    requires { newline < length buffer.old }
{
    let before = line_at(buffer, newline, lines);
    let from = newline + 1;
    let bytes = buffer.len() - from;
    buffer.copy_within(from.., 0);
    Held {
        bytes,
        lines: before,
        skips: false,
    }
}

// Nothing is held; what follows is the rest of a line that is skipped.
fn skip(lines: usize) -> Held {
    Held {
        bytes: 0,
        lines,
        skips: true,
    }
}

// Skips the rest of a line; what is held then, if the input goes on.
fn skip_line(buffer: &mut [u8], lines: usize, last: bool) -> Option<Held> {
    match first_newline(buffer) {
        Some(newline) => Some(keep(buffer, newline, lines)),
        None if last => None,
        None => Some(skip(lines)),
    }
}

// A line that goes on behind all that can be held: where it would name a case, it is refused.
fn refuse_line<W: Write>(out: &mut W, text: &[u8], lines: usize) -> io::Result<()> {
    if text.starts_with(b"case ") {
        let line = line_at(text, 0, lines);
        writeln!(
            out,
            "refused line {line}: the line is longer than {HELD} bytes"
        )?;
    }
    Ok(())
}

// A case that goes on behind all that can be held.
fn refuse_case<W: Write>(out: &mut W, text: &[u8]) -> io::Result<()> {
    let end = first_newline(text).unwrap_or(text.len());
    let p = Place {
        from: 0,
        end,
        next: end,
    };
    programs::put_name(out, text, p)?;
    writeln!(out, "refused: the case is longer than {HELD} bytes")?;
    writeln!(out, "end")
}

// What is held is a case, or a line, that goes on behind it.
fn refuse_long<W: Write>(out: &mut W, buffer: &mut [u8], lines: usize) -> io::Result<Held> {
    let end = whole_lines(buffer);
    if end == 0 {
        refuse_line(out, buffer, lines)?;
        return Ok(skip(lines));
    }
    refuse_case(out, buffer)?;
    Ok(keep(buffer, end - 1, lines))
}

// The cases of a part, of whose lines the last may be cut off where there are more parts; where the rest begins that has to wait.
fn take_cases<W: Write>(out: &mut W, part: Part) -> io::Result<usize> {
    let end = if part.last {
        part.text.len()
    } else {
        whole_lines(part.text)
    };
    let text = &part.text[..end];
    all(out, Part { text, ..part })
}

// The cases of what is held; what is held then, if the input goes on.
fn take_part<W: Write>(
    out: &mut W,
    buffer: &mut [u8],
    lines: usize,
    last: bool,
) -> io::Result<Option<Held>> {
    let part = Part {
        text: buffer,
        lines,
        last,
    };
    let from = take_cases(out, part)?.min(buffer.len());
    if last {
        return Ok(None);
    }
    if from == 0 {
        return Ok(Some(refuse_long(out, buffer, lines)?));
    }
    Ok(Some(keep(buffer, from - 1, lines)))
}

// One part more of the input, behind what is held; what is held then, if the input goes on.
fn read_part<R: io::Read, W: Write>(
    input: &mut R,
    out: &mut W,
    buffer: &mut [u8],
    held: Held,
) -> io::Result<Option<Held>> {
    let n = held.bytes.min(buffer.len());
    let got = programs::read_full(input, &mut buffer[n..])?;
    let end = (n + got).min(buffer.len());
    let last = end < buffer.len();
    if held.skips {
        return Ok(skip_line(&mut buffer[..end], held.lines, last));
    }
    take_part(out, &mut buffer[..end], held.lines, last)
}

// Every part of the input.
fn read_all<R: io::Read, W: Write>(
    input: &mut R,
    out: &mut W,
    buffer: &mut [u8],
) -> io::Result<()> {
    let mut held = Held {
        bytes: 0,
        lines: 0,
        skips: false,
    };
    for _ in 0..MOST_PARTS {
        match read_part(input, out, buffer, held)? {
            Some(next) => held = next,
            None => return Ok(()),
        }
    }
    Ok(())
}

// Every case of standard input.
fn main(rt: HostRuntime) -> io::Result<()> {
    let mut buffer = [0u8; HELD];
    read_all(&mut rt.stdin(), &mut io::writer(&rt), &mut buffer)
}
