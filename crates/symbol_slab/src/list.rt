// A list of operations applied to a flat slab, and undone, on a part of each row at a time.
ghost use Rattle.std.specs.Prelude.{◌≡◌, true, length, get_or, ◌+◌, ◌-◌, ◌<◌};
ghost use Rattle.octet.specs.Octet.{inverse as inv};
ghost use Rattle.octets.specs.Multiples.{Blank};
ghost use Rattle.oplist.specs.Word.{meaning};
ghost use Rattle.oplist.specs.Listed.{ops_of};
ghost use Rattle.algebra.specs.Rows.{inverse, undo};
ghost use Rattle.algebra.specs.Flat.{acts};
ghost use Rattle.symbol_slab.specs.Placed.{Ready};
ghost use Rattle.symbol_slab.specs.Columns.{Cols};
ghost use Rattle.symbol_slab.specs.Turns.{PlacedWord, AllPlaced, word_ops, source, Applied};

use crate::part::{Part, Room};
use octet::Octet;
use octets::multiples::ROOM;
use oplist::Op;

// The row of which a word's operation adds a multiple, if it adds one.
#[tactic(auto, unfolding(crate::specs::Turns::source))]
fn source_of(w: u64) -> Option<usize>
    ensures { result ≡ source (meaning w) }
{
    match oplist::unpack(w) {
        Some(Op::FMA(_, source, _)) => Some(source),
        _ => None,
    }
}

// Whether the operation at place i of a list and the one before it add multiples of one row. Only the time that they take depends on it.
fn again(list: &[u64], i: usize) -> bool
    ensures { result ≡ true → source (meaning (get_or list.now (i - 1) 0)) ≡ source (meaning (get_or list.now i 0)) }
{
    0 < i
        && i < list.len()
        && source_of(list[i]).is_some()
        && source_of(list[i - 1]) == source_of(list[i])
}

// The slab after the operation of a word, if it is one's, on a part of each row.
fn apply_word(slab: &mut [u8], room: &mut Room, part: Part, again: bool, word: Option<Op>)
    requires { PlacedWord part.t word (length slab.old) × Ready part.n room.old.held slab.old room.old.bytes }
    ensures { Applied part.t part.at part.n (word_ops word) slab.old slab.new room.new.bytes room.new.held }
{
    if let Some(op) = word {
        crate::row::apply(slab, room, part, again, op);
    }
}

// The slab after the operations of a list, first to last, on a part of each row.
fn apply_columns(slab: &mut [u8], room: &mut Room, part: Part, list: &[u64])
    requires { AllPlaced part.t (ops_of list.now) (length slab.old) × Blank room.old.bytes }
    ensures { Cols part.t part.at (part.at + part.n) (ops_of list.now) slab.old slab.new × Blank room.new.bytes }
{
    room.held = slab.len();
    for i in 0..list.len() {
        let word = oplist::unpack(list[i]);
        apply_word(slab, room, part, again(list, i + 1), word);
    }
}

// The slab after the operations of a list, first to last.
pub fn apply_all(slab: &mut [u8], t: usize, list: &[u64])
    requires { AllPlaced t (ops_of list.now) (length slab.old) }
    ensures { slab.new ≡ acts t (ops_of list.now) slab.old }
{
    let mut room = Room {
        bytes: [0; ROOM],
        held: slab.len(),
    };
    let mut at = 0;
    while at < t {
        let part = Part::new(t, at);
        apply_columns(slab, &mut room, part, list);
        at += part.n;
    }
}

// The inverse of a scalar, and zero for zero.
fn inverse_of(k: u8) -> u8
    ensures { result ≡ inv k }
{
    match Octet::ONE.div(Octet { value: k }) {
        Ok(q) => q.value,
        Err(_) => 0,
    }
}

// The operation that undoes another.
fn inverted(op: Op) -> Op
    ensures { result ≡ inverse op }
{
    match op {
        Op::MulAssign(d, k) => Op::MulAssign(d, inverse_of(k)),
        Op::AddAssign(..) | Op::FMA(..) => op,
    }
}

// The slab after the operations of a list are undone, last to first, on a part of each row.
// Not one function with apply_columns: the words go the other way, and a contract for both ways would be longer than both.
fn undo_columns(slab: &mut [u8], room: &mut Room, part: Part, list: &[u64])
    requires { AllPlaced part.t (ops_of list.now) (length slab.old) × Blank room.old.bytes }
    ensures { Cols part.t part.at (part.at + part.n) (undo (ops_of list.now)) slab.old slab.new × Blank room.new.bytes }
{
    room.held = slab.len();
    for i in (0..list.len()).rev() {
        let word = oplist::unpack(list[i]).map(inverted);
        apply_word(slab, room, part, again(list, i), word);
    }
}

// The slab after the operations of a list are undone, last to first.
// Not one function with apply_all: what a closure does to two lent buffers takes a longer contract than this loop.
pub fn undo_all(slab: &mut [u8], t: usize, list: &[u64])
    requires { AllPlaced t (ops_of list.now) (length slab.old) }
    ensures { slab.new ≡ acts t (undo (ops_of list.now)) slab.old }
{
    let mut room = Room {
        bytes: [0; ROOM],
        held: slab.len(),
    };
    let mut at = 0;
    while at < t {
        let part = Part::new(t, at);
        undo_columns(slab, &mut room, part, list);
        at += part.n;
    }
}
