// Replays lists on slabs and undoes them, and compares every byte with what the input says.
//
// The input is decimal numbers, all else between them: for each case the rows, the symbols, the bytes of a symbol and 1 for an order or 0 for
// none; the number of operations and each as kind, dest, src, scalar; the number of order entries and these; the number of the slab's bytes and
// these; the same after the replay. It ends with its last case.
#![tactic(auto)]

mod text;

use std::io;
use std::io::Write;
use symbol_slab::{Place, Refusal};

// What a case starts with.
#[derive(Clone, Copy)]
struct Head {
    m: usize,
    l: usize,
    t: usize,
    ordered: bool,
    next: usize,
}

fn read_head(input: &[u8], at: usize) -> Head {
    let m = text::read(input, at);
    let l = text::read(input, m.next);
    let t = text::read(input, l.next);
    let o = text::read(input, t.next);
    Head {
        m: text::at_most(m.value, 1000000),
        l: text::at_most(l.value, 1000000),
        t: text::at_most(t.value, 1000000),
        ordered: o.value == 1,
        next: o.next,
    }
}

// An answer's number, how symbols are then read, and whether the slab is as it has to be.
fn say<W: Write>(out: &mut W, answer: Result<Place, Refusal>, same: bool) -> io::Result<()> {
    match answer {
        Ok(Place::ByOrder) => out.write_all(b" 0 by order"),
        Ok(Place::InPlace) => out.write_all(b" 0 in place"),
        Err(Refusal::BadShape) => out.write_all(b" 2"),
        Err(Refusal::BadList) => out.write_all(b" 8"),
        Err(Refusal::NotUndoable) => out.write_all(b" 9"),
    }?;
    if same {
        out.write_all(b" same")
    } else {
        out.write_all(b" other")
    }
}

// Whether the slab at a place of the input is this one.
fn same_bytes(input: &[u8], at: usize, bytes: &[u8]) -> bool {
    let first = text::read(input, at);
    if text::at_most(first.value, 65535) != bytes.len() {
        return false;
    }
    let mut next = first.next;
    for byte in bytes {
        let b = text::byte(input, next);
        if b.value != *byte {
            return false;
        }
        next = b.next;
    }
    true
}

// The list applied and undone; before and after are the places of the two slabs in the input.
fn compare<W: Write>(
    out: &mut W,
    h: Head,
    input: &[u8],
    before: usize,
    after: usize,
    list: &[u64],
    order: Option<&[usize]>,
    bytes: &mut [u8],
) -> io::Result<()> {
    out.write_all(b"replay")?;
    let r = symbol_slab::replay(h.m, h.l, h.t, list, order, bytes);
    say(out, r, same_bytes(input, after, &bytes[..]))?;
    out.write_all(b" undo")?;
    let u = symbol_slab::undo(h.m, h.l, h.t, list, order, bytes);
    let wanted = if u == Err(Refusal::NotUndoable) {
        after
    } else {
        before
    };
    say(out, u, same_bytes(input, wanted, &bytes[..]))?;
    out.write_all(b"\n")
}

// The case at a place, and the place after it.
fn one<W: Write>(
    out: &mut W,
    input: &[u8],
    at: usize,
    list: &mut [u64],
    order: &mut [usize],
    bytes: &mut [u8],
) -> io::Result<usize> {
    let h = read_head(input, at);
    let ops = text::fill(input, h.next, list, text::word);
    let rows = text::fill(input, ops.next, order, text::row);
    let row = text::fill(input, rows.next, bytes, text::byte);
    let n = ops.count;
    let o = rows.count;
    let s = row.count;
    compare(
        out,
        h,
        input,
        rows.next,
        row.next,
        &list[..n],
        h.ordered.then_some(&order[..o]),
        &mut bytes[..s],
    )?;
    let end = text::fill(input, row.next, bytes, text::byte);
    Ok(end.next)
}

// Every case.
fn all<W: Write>(out: &mut W, input: &[u8]) -> io::Result<()> {
    let mut list = [0u64; 4096];
    let mut order = [0usize; 512];
    let mut bytes = [0u8; 4096];
    let mut at = text::seek(input, 0);
    while at < input.len() {
        let next = one(out, input, at, &mut list, &mut order, &mut bytes)?;
        if next <= at {
            return Ok(());
        }
        at = text::seek(input, next);
    }
    Ok(())
}

fn main(rt: HostRuntime) -> io::Result<()> {
    let mut input = [0u8; 524288];
    let n = reading::read_full(&mut rt.stdin(), &mut input)?;
    all(&mut io::writer(&rt), &input[..n])
}
