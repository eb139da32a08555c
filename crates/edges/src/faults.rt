// Calls with a room that is one short, or with a fault or two.
use crate::calls::again;
use crate::said::is_right;
use crate::same::is_refusal;
use crate::told::{First, Lent, Seen};
use solver::{Refusal, Rooms};
use std::io;
use std::io::Write;

// A room that is one short, or a fault, or two faults at once.
#[derive(Clone, Copy, Debug, PartialEq, Eq)]
pub(crate) enum Fault {
    Order,
    Vector,
    Work,
    Scratch,
    Columns,
    Rows,
    Ones,
    Degrees,
    Singles,
    Labels,
    Sizes,
    NoK,
    MoreRows,
    FewerRows,
    NoBytes,
    Matrix,
    Slab,
    NoKNorBytes,
    NoBytesAndOrder,
    OrderAndList,
    Octets,
}

// The rooms but the list's.
pub(crate) const ROOMS: [Fault; 11] = [
    Fault::Order,
    Fault::Vector,
    Fault::Work,
    Fault::Scratch,
    Fault::Columns,
    Fault::Rows,
    Fault::Ones,
    Fault::Degrees,
    Fault::Singles,
    Fault::Labels,
    Fault::Sizes,
];

// The other faults, but the one that is for octet rows that are given.
pub(crate) const FAULTS: [Fault; 9] = [
    Fault::NoK,
    Fault::MoreRows,
    Fault::FewerRows,
    Fault::NoBytes,
    Fault::Matrix,
    Fault::Slab,
    Fault::NoKNorBytes,
    Fault::NoBytesAndOrder,
    Fault::OrderAndList,
];

// Whether a call was refused for this, and changed nothing.
pub(crate) fn is_refused(e: Seen, refusal: Refusal) -> bool {
    e.unchanged && is_refusal(e.answer, refusal)
}

// The working rooms, with one of them one shorter.
fn shorter(r: Rooms, fault: Fault) -> Rooms {
    match fault {
        Fault::Work => Rooms {
            work: r.work.saturating_sub(1),
            ..r
        },
        Fault::Scratch => Rooms {
            scratch: r.scratch.saturating_sub(1),
            ..r
        },
        Fault::Columns => Rooms {
            columns: r.columns.saturating_sub(1),
            ..r
        },
        Fault::Rows => Rooms {
            rows: r.rows.saturating_sub(1),
            ..r
        },
        Fault::Ones => Rooms {
            ones: r.ones.saturating_sub(1),
            ..r
        },
        Fault::Degrees => Rooms {
            degrees: r.degrees.saturating_sub(1),
            ..r
        },
        Fault::Singles => Rooms {
            singles: r.singles.saturating_sub(1),
            ..r
        },
        Fault::Labels => Rooms {
            labels: r.labels.saturating_sub(1),
            ..r
        },
        _ => Rooms {
            sizes: r.sizes.saturating_sub(1),
            ..r
        },
    }
}

// A call with a fault.
pub(crate) fn with_fault(l: Lent, fault: Fault) -> Lent {
    let order = l.order.saturating_sub(1);
    match fault {
        Fault::Order => Lent { order, ..l },
        Fault::Vector => Lent {
            vector: l.vector.saturating_sub(1),
            ..l
        },
        Fault::NoK => Lent { k: 0, ..l },
        Fault::MoreRows => Lent {
            m: l.m.saturating_add(1),
            ..l
        },
        Fault::FewerRows => Lent {
            m: l.m.saturating_sub(1),
            ..l
        },
        Fault::NoBytes => Lent { t: 0, ..l },
        Fault::Matrix => Lent {
            bits: l.bits.saturating_sub(1),
            ..l
        },
        Fault::Slab => Lent {
            slab: l.slab.saturating_sub(1),
            ..l
        },
        Fault::NoKNorBytes => Lent { k: 0, t: 0, ..l },
        Fault::NoBytesAndOrder => Lent { t: 0, order, ..l },
        Fault::OrderAndList => Lent {
            order,
            list: l.list.saturating_sub(1),
            ..l
        },
        Fault::Octets => Lent {
            octets: l.octets.saturating_sub(1),
            ..l
        },
        room => Lent {
            rooms: shorter(l.rooms, room),
            ..l
        },
    }
}

// Why such a call is refused.
fn wanted(fault: Fault) -> Refusal {
    match fault {
        Fault::NoK | Fault::NoKNorBytes => Refusal::BadCount,
        Fault::MoreRows
        | Fault::FewerRows
        | Fault::NoBytes
        | Fault::Matrix
        | Fault::Slab
        | Fault::NoBytesAndOrder
        | Fault::Octets => Refusal::BadShape,
        _ => Refusal::NoRoom,
    }
}

// The name of what was tried.
fn name(fault: Fault) -> &'static str {
    match fault {
        Fault::Order => "order",
        Fault::Vector => "vector",
        Fault::Work => "work",
        Fault::Scratch => "scratch",
        Fault::Columns => "columns",
        Fault::Rows => "rows",
        Fault::Ones => "ones",
        Fault::Degrees => "degrees",
        Fault::Singles => "singles",
        Fault::Labels => "labels",
        Fault::Sizes => "sizes",
        Fault::NoK => "K 0",
        Fault::MoreRows => "M + 1",
        Fault::FewerRows => "M - 1",
        Fault::NoBytes => "T 0",
        Fault::Matrix => "matrix",
        Fault::Slab => "slab",
        Fault::NoKNorBytes => "K and T",
        Fault::NoBytesAndOrder => "T, order",
        Fault::OrderAndList => "order, list",
        Fault::Octets => "octets",
    }
}

// Whether a call with a fault is refused for it; else it is said to be wrong.
pub(crate) fn is_fault_refused<W: Write>(
    out: &mut W,
    l: Lent,
    fault: Fault,
    bits: &[u8],
    first: First,
) -> io::Result<bool> {
    let e = again(with_fault(l, fault), bits, first);
    is_right(out, is_refused(e, wanted(fault)), name(fault), e.answer)
}

// How many calls with these faults are refused.
pub(crate) fn refused<W: Write>(
    out: &mut W,
    l: Lent,
    faults: &[Fault],
    bits: &[u8],
    first: First,
) -> io::Result<usize> {
    let mut right = 0usize;
    for fault in faults {
        if is_fault_refused(out, l, *fault, bits, first)? {
            right = right.saturating_add(1);
        }
    }
    Ok(right)
}
