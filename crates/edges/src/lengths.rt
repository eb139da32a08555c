// The list room of a call.
use crate::MOST_LIST;
use crate::calls::again;
use crate::said::is_right_at;
use crate::same::is_refusal;
use crate::told::{First, Halved, Lent, Seen};
use solver::Refusal;
use std::io;
use std::io::Write;

// Whether a call is as the first one.
pub(crate) fn is_same(e: Seen, first: First) -> bool {
    e.same && e.answer == first.outcome.answer
}

// Whether a call found its list room too short.
fn is_full(e: Seen) -> bool {
    e.emptied && is_refusal(e.answer, Refusal::ListFull)
}

// The smallest list room that is not too short.
pub(crate) fn halve<W: Write>(
    out: &mut W,
    l: Lent,
    bits: &[u8],
    first: First,
) -> io::Result<Halved> {
    let mut low = 0;
    let mut high = MOST_LIST;
    let mut right = 0usize;
    while low < high {
        let room = low + (high - low) / 2;
        let e = again(Lent { list: room, ..l }, bits, first);
        if is_right_at(
            out,
            is_full(e) || is_same(e, first),
            "list room",
            room,
            e.answer,
        )? {
            right = right.saturating_add(1);
        }
        if is_refusal(e.answer, Refusal::ListFull) {
            low = room + 1;
        } else {
            high = room;
        }
    }
    Ok(Halved { length: low, right })
}

// Whether there is a list room one shorter, and it is too short.
pub(crate) fn is_short_full<W: Write>(
    out: &mut W,
    l: Lent,
    bits: &[u8],
    first: First,
) -> io::Result<bool> {
    if l.list < 1 {
        return Ok(false);
    }
    let room = l.list - 1;
    let e = again(Lent { list: room, ..l }, bits, first);
    is_right_at(out, is_full(e), "list short", room, e.answer)
}
