// A call in rooms that are cut to what it is lent, and what became of all buffers.
use crate::same::{all_are, outputs_are, outputs_begin};
use crate::told::{First, Lent, Outcome, Seen};
use crate::{FILL, FILL_BYTE, FILL_WORD, MOST_LIST, SLAB_ROOM};
use programs::{LINE_ROOM, SIZES_ROOM, WORK_ROOM};
use solver::Workspace;

// Puts the bytes at the front of a room.
pub(crate) fn copy(from: &[u8], to: &mut [u8]) {
    let n = from.len().min(to.len());
    to[..n].copy_from_slice(&from[..n]);
}

// Whether every entry of the working slices is this number.
fn rooms_are(w: &Workspace<'_>, x: u8) -> bool {
    let n = usize::from(x);
    all_are(w.work, x)
        && all_are(w.scratch, x)
        && all_are(w.columns, n)
        && all_are(w.rows, n)
        && all_are(w.ones, n)
        && all_are(w.degrees, n)
        && all_are(w.singles, n)
        && all_are(w.labels, n)
        && all_are(w.sizes, n)
}

// The call, and what became of its working slices.
fn solve_in(
    l: Lent,
    bits: &[u8],
    octets: &[u8],
    slab: &mut [u8],
    list: &mut [u64],
    order: &mut [usize],
    vector: &mut [u8],
    w: &mut Workspace<'_>,
) -> Outcome {
    let octets = programs::octet_rows(l.octet, octets);
    let answer = solver::solve(l.k, l.m, l.t, bits, octets, slab, list, order, vector, w);
    Outcome {
        answer,
        untouched: rooms_are(w, FILL_BYTE),
        cleared: rooms_are(w, 0),
    }
}

// The call over working rooms of its own, cut to what is to be lent.
pub(crate) fn call(
    l: Lent,
    bits: &[u8],
    octets: &[u8],
    slab: &mut [u8],
    list: &mut [u64],
    order: &mut [usize],
    vector: &mut [u8],
) -> Outcome {
    let mut work = [FILL_BYTE; WORK_ROOM];
    let mut scratch = [FILL_BYTE; LINE_ROOM];
    let mut columns = [FILL; LINE_ROOM];
    let mut rows = [FILL; LINE_ROOM];
    let mut ones = [FILL; LINE_ROOM];
    let mut degrees = [FILL; LINE_ROOM];
    let mut singles = [FILL; LINE_ROOM];
    let mut labels = [FILL; LINE_ROOM];
    let mut sizes = [FILL; SIZES_ROOM];
    let r = l.rooms;
    let mut w = Workspace {
        work: &mut work[..r.work.min(WORK_ROOM)],
        scratch: &mut scratch[..r.scratch.min(LINE_ROOM)],
        columns: &mut columns[..r.columns.min(LINE_ROOM)],
        rows: &mut rows[..r.rows.min(LINE_ROOM)],
        ones: &mut ones[..r.ones.min(LINE_ROOM)],
        degrees: &mut degrees[..r.degrees.min(LINE_ROOM)],
        singles: &mut singles[..r.singles.min(LINE_ROOM)],
        labels: &mut labels[..r.labels.min(LINE_ROOM)],
        sizes: &mut sizes[..r.sizes.min(SIZES_ROOM)],
    };
    solve_in(l, bits, octets, slab, list, order, vector, &mut w)
}

// What is true of the buffers after a call.
fn judge(
    o: Outcome,
    first: First,
    now: &[u8],
    now_list: &[u64],
    now_order: &[usize],
    now_vector: &[u8],
) -> Seen {
    let kept = first.slab.starts_with(now);
    Seen {
        answer: o.answer,
        unchanged: o.untouched && kept && outputs_are(now_list, now_order, now_vector, FILL_BYTE),
        emptied: o.cleared && kept && outputs_are(now_list, now_order, now_vector, 0),
        same: o.cleared && outputs_begin(first, now, now_list, now_order, now_vector),
    }
}

// A call over the buffers that are lent to it, and what is true of them after it.
fn see(
    l: Lent,
    bits: &[u8],
    octets: &[u8],
    first: First,
    now: &mut [u8],
    now_list: &mut [u64],
    now_order: &mut [usize],
    now_vector: &mut [u8],
) -> Seen {
    let o = call(l, bits, octets, now, now_list, now_order, now_vector);
    judge(o, first, now, now_list, now_order, now_vector)
}

// A further call.
pub(crate) fn again(l: Lent, bits: &[u8], first: First) -> Seen {
    let mut now = [0u8; SLAB_ROOM];
    let mut now_list = [FILL_WORD; MOST_LIST];
    let mut now_order = [FILL; LINE_ROOM];
    let mut now_vector = [FILL_BYTE; LINE_ROOM];
    copy(first.slab, &mut now);
    see(
        l,
        &bits[..l.bits.min(bits.len())],
        &first.octets[..l.octets.min(first.octets.len())],
        first,
        &mut now[..l.slab.min(SLAB_ROOM)],
        &mut now_list[..l.list.min(MOST_LIST)],
        &mut now_order[..l.order.min(LINE_ROOM)],
        &mut now_vector[..l.vector.min(LINE_ROOM)],
    )
}
