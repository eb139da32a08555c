// Every call of a case.
use crate::calls::{again, call, copy};
use crate::faults::{FAULTS, Fault, ROOMS, is_fault_refused, refused};
use crate::lengths::{halve, is_same, is_short_full};
use crate::said::is_right;
use crate::same::outputs_are;
use crate::told::{Compared, First, Halved, Lent};
use crate::twos::twos_right;
use crate::{FILL, FILL_BYTE, FILL_WORD, MOST_LIST, SLAB_ROOM};
use params::Sizes;
use programs::{LINE_ROOM, SIZES_ROOM, WORK_ROOM};
use solver::{Answer, Refusal, Rooms};
use std::io;
use std::io::Write;
use systems::System;

// Whether list, order and vector are zeros from these places on.
fn end_in_zeros(first: First, operations: usize, ordered: usize, combined: usize) -> bool {
    outputs_are(
        &first.list[operations.min(first.list.len())..],
        &first.order[ordered.min(first.order.len())..],
        &first.vector[combined.min(first.vector.len())..],
        0,
    )
}

// Whether the first call left zeros wherever it has nothing to say, and, unless it solved the system, the slab as it was.
fn is_clean(first: First, l: usize) -> bool {
    let kept = first.slab.starts_with(first.solved);
    first.outcome.cleared
        && match first.outcome.answer {
            Ok(r) => end_in_zeros(first, r.operations, l, 0),
            Err(Refusal::Singular) => kept && end_in_zeros(first, 0, 0, l),
            Err(_) => kept && end_in_zeros(first, 0, 0, 0),
        }
}

// Whether an answer reports this number of operations, if it reports one.
fn reports(a: Answer, n: usize) -> bool {
    match a {
        Ok(r) => r.operations == n,
        Err(_) => true,
    }
}

// The call with more room than any system of the input needs.
fn ample(s: System) -> Lent {
    Lent {
        k: s.k,
        m: s.m,
        t: s.t,
        octet: s.octet,
        bits: s.bits,
        octets: s.octets,
        slab: s.slab,
        list: MOST_LIST,
        order: LINE_ROOM,
        vector: LINE_ROOM,
        rooms: Rooms {
            order: LINE_ROOM,
            vector: LINE_ROOM,
            work: WORK_ROOM,
            scratch: LINE_ROOM,
            columns: LINE_ROOM,
            rows: LINE_ROOM,
            ones: LINE_ROOM,
            degrees: LINE_ROOM,
            singles: LINE_ROOM,
            labels: LINE_ROOM,
            sizes: SIZES_ROOM,
            bytes: 0,
        },
    }
}

// The call with rooms that just suffice.
fn tight(s: System, length: usize, rooms: Rooms) -> Lent {
    Lent {
        list: length,
        order: rooms.order,
        vector: rooms.vector,
        rooms,
        ..ample(s)
    }
}

// How many calls with a fault are refused: the last one is for octet rows that are given.
fn faults_refused<W: Write>(out: &mut W, l: Lent, bits: &[u8], first: First) -> io::Result<usize> {
    let right = refused(out, l, &FAULTS, bits, first)?;
    if l.octet && is_fault_refused(out, l, Fault::Octets, bits, first)? {
        return Ok(right.saturating_add(1));
    }
    Ok(right)
}

// How many calls with a room that is one short are refused.
fn rooms_refused<W: Write>(out: &mut W, l: Lent, bits: &[u8], first: First) -> io::Result<usize> {
    let right = refused(out, l, &ROOMS, bits, first)?;
    if is_short_full(out, l, bits, first)? {
        return Ok(right.saturating_add(1));
    }
    Ok(right)
}

// The calls in rooms that just suffice, or are one short, and those with faults.
fn try_tight<W: Write>(
    out: &mut W,
    l: Lent,
    clean: bool,
    h: Halved,
    bits: &[u8],
    first: First,
) -> io::Result<Compared> {
    let e = again(l, bits, first);
    let full = is_right(out, is_same(e, first), "not full", e.answer)?;
    let short = rooms_refused(out, l, bits, first)?;
    let damaged = faults_refused(out, l, bits, first)?;
    Ok(Compared {
        answer: solver::number(first.outcome.answer),
        length: h.length,
        clean,
        halving: h.right,
        full,
        short,
        damaged,
        twos: 0,
    })
}

// Every call after the first one but those with a 2.
fn try_rooms<W: Write>(
    out: &mut W,
    s: System,
    rooms: Rooms,
    bits: &[u8],
    first: First,
) -> io::Result<Compared> {
    let answer = first.outcome.answer;
    let clean = is_right(out, is_clean(first, s.l), "not clean", answer)?;
    let h = halve(out, ample(s), bits, first)?;
    is_right(out, reports(answer, h.length), "length", answer)?;
    try_tight(out, tight(s, h.length, rooms), clean, h, bits, first)
}

// Every call after the first one.
fn compare<W: Write>(
    out: &mut W,
    s: System,
    g: Sizes,
    rooms: Rooms,
    bits: &mut [u8],
    first: First,
) -> io::Result<Compared> {
    let c = try_rooms(out, s, rooms, bits, first)?;
    let twos = twos_right(out, tight(s, c.length, rooms), g, bits, first)?;
    Ok(Compared { twos, ..c })
}

// The first call, in buffers of its own, and what follows it.
fn first_call<W: Write>(
    out: &mut W,
    s: System,
    g: Sizes,
    rooms: Rooms,
    bits: &mut [u8],
    octets: &[u8],
    slab: &[u8],
    solved: &mut [u8],
    list: &mut [u64],
    order: &mut [usize],
    vector: &mut [u8],
) -> io::Result<Compared> {
    let outcome = call(ample(s), bits, octets, solved, list, order, vector);
    let first = First {
        octets,
        slab,
        outcome,
        solved,
        list,
        order,
        vector,
    };
    compare(out, s, g, rooms, bits, first)
}

// A case that is within the bounds.
pub(crate) fn try_calls<W: Write>(
    out: &mut W,
    s: System,
    g: Sizes,
    rooms: Rooms,
    bits: &mut [u8],
    octets: &[u8],
    slab: &[u8],
) -> io::Result<Compared> {
    let mut solved = [0u8; SLAB_ROOM];
    let mut list = [FILL_WORD; MOST_LIST];
    let mut order = [FILL; LINE_ROOM];
    let mut vector = [FILL_BYTE; LINE_ROOM];
    copy(slab, &mut solved);
    first_call(
        out,
        s,
        g,
        rooms,
        bits,
        octets,
        slab,
        &mut solved[..s.slab.min(SLAB_ROOM)],
        &mut list,
        &mut order,
        &mut vector,
    )
}
