// Calls with a 2 in the binary matrix.
use crate::calls::again;
use crate::faults::{Fault, is_refused, with_fault};
use crate::lengths::is_same;
use crate::said::is_right_at;
use crate::told::{First, Lent, Seen};
use params::Sizes;
use solver::Refusal;
use std::io;
use std::io::Write;

// Where the 2 is: the first or the last place of the binary matrix, the last before or the first after the octet rows, their first or last; or
// the first again, and the order is one short.
#[derive(Clone, Copy, Debug, PartialEq, Eq)]
enum Two {
    First,
    Last,
    BeforeOctets,
    AfterOctets,
    OctetsFirst,
    OctetsLast,
    FirstInShortOrder,
}

const TWOS: [Two; 7] = [
    Two::First,
    Two::Last,
    Two::BeforeOctets,
    Two::AfterOctets,
    Two::OctetsFirst,
    Two::OctetsLast,
    Two::FirstInShortOrder,
];

// The place of a 2, where there is one.
fn place(g: Sizes, bits: usize, two: Two) -> usize {
    let from = g.s.saturating_mul(g.l);
    let end = g.s.saturating_add(g.h).saturating_mul(g.l);
    match two {
        Two::First | Two::FirstInShortOrder => 0,
        Two::Last => bits.saturating_sub(1),
        Two::BeforeOctets => from.saturating_sub(1),
        Two::AfterOctets => end,
        Two::OctetsFirst => from,
        Two::OctetsLast => end.saturating_sub(1),
    }
}

// Whether a call with a 2 is right: refused, or, in the place of a given octet row, as the first one.
fn is_two_right(octet: bool, two: Two, e: Seen, first: First) -> bool {
    if octet && (two == Two::OctetsFirst || two == Two::OctetsLast) {
        return is_same(e, first);
    }
    is_refused(e, Refusal::BadEntry)
}

// The call with a 2.
fn with_two(l: Lent, two: Two) -> Lent {
    if two == Two::FirstInShortOrder {
        return with_fault(l, Fault::Order);
    }
    l
}

// Whether there is such a place in the binary matrix, and a call with a 2 there is right.
fn try_two<W: Write>(
    out: &mut W,
    l: Lent,
    g: Sizes,
    two: Two,
    bits: &mut [u8],
    first: First,
) -> io::Result<bool> {
    let p = place(g, bits.len(), two);
    if bits.len() <= p {
        return Ok(false);
    }
    let old = bits[p];
    bits[p] = 2;
    let e = again(with_two(l, two), bits, first);
    bits[p] = old;
    is_right_at(
        out,
        is_two_right(l.octet, two, e, first),
        "two at",
        p,
        e.answer,
    )
}

// How many calls with a 2 in the binary matrix are right.
pub(crate) fn twos_right<W: Write>(
    out: &mut W,
    l: Lent,
    g: Sizes,
    bits: &mut [u8],
    first: First,
) -> io::Result<usize> {
    let mut right = 0usize;
    for two in TWOS {
        if try_two(out, l, g, two, bits, first)? {
            right = right.saturating_add(1);
        }
    }
    Ok(right)
}
