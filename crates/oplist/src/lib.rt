// Row operations: what they are, and how a list of them is kept in a lent room.
#![tactic(auto)]

ghost use Rattle.std.specs.Prelude.{◌≡◌, ◌<◌};
ghost use Rattle.loops.specs.Room.{log, put};
ghost use Rattle.oplist.specs.Word.{word, Small, packed, meaning};
ghost use Rattle.oplist.specs.Multiple.{multiple};
ghost use Rattle.oplist.specs.Listed.{ops_of};
ghost use Rattle.oplist.specs.Count.{adds_in, muls_in, adds, muls};
ghost use Rattle.oplist.specs.Check.{shape_fine, two_rows, op_fine, word_fine, list_fine, word_undoable, undoable};

mod order;

pub use order::{Entry, order_fine};

// One operation on the rows of a slab, rows by their number.
#[derive(Debug, Clone, Copy, PartialEq, Eq)]
pub enum Op {
    // dest, src: dest gets dest + src.
    AddAssign(usize, usize),
    // dest, scalar: dest gets scalar times dest.
    MulAssign(usize, u8),
    // dest, src, scalar: dest gets dest + scalar times src.
    FMA(usize, usize, u8),
}

// Four fields in one word: in memory, lowest byte first, src, dest, scalar, kind.
fn join(kind: u64, scalar: u8, dest: usize, src: usize) -> u64
    requires { (kind < 256) × (dest < 65536) × (src < 65536) }
    ensures { result ≡ word kind scalar dest src }
{
    // `u64` has no `From<usize>`; rows fit.
    kind * 1099511627776 + u64::from(scalar) * 4294967296 + dest as u64 * 65536 + src as u64
}

// The word of an operation whose rows are below 65,536.
#[tactic(auto, unfolding(crate::specs::Word::packed))]
pub fn pack(op: Op) -> u64
    requires { Small op }
    ensures { result ≡ packed op }
{
    match op {
        Op::AddAssign(d, s) => join(1, 0, d, s),
        Op::MulAssign(d, x) => join(2, x, d, 0),
        Op::FMA(d, s, x) => join(3, x, d, s),
    }
}

// The operation of a word; none where no operation has that word.
#[tactic(auto, unfolding(crate::specs::Word::meaning))]
pub fn unpack(w: u64) -> Option<Op>
    ensures { result ≡ meaning w }
{
    // Each field fits what it is cut to; there is no `From<u64>`.
    let scalar = (w / 4294967296 % 256) as u8;
    let dest = (w / 65536 % 65536) as usize;
    let src = (w % 65536) as usize;
    match w / 1099511627776 {
        1 if scalar == 0 => Some(Op::AddAssign(dest, src)),
        2 if src == 0 => Some(Op::MulAssign(dest, scalar)),
        3 => Some(Op::FMA(dest, src, scalar)),
        _ => None,
    }
}

// The operation that adds c times row x to row y.
#[tactic(auto, unfolding(crate::specs::Multiple::multiple))]
pub fn multiple_of(c: u8, y: usize, x: usize) -> Op
    ensures { result ≡ multiple c y x }
{
    if c == 1 {
        return Op::AddAssign(y, x);
    }
    Op::FMA(y, x, c)
}

// One operation more in a room that holds n, or n one above the room where it has no place.
#[tactic(auto, unfolding(loops::specs::Room::put))]
pub fn record(list: &mut [u64], n: usize, op: Op) -> usize
    requires { Small op }
    ensures { log list.new result ≡ put packed (log list.old n) op }
{
    if n < list.len() {
        list[n] = pack(op);
        return n + 1;
    }
    list.len() + 1
}

// How many additions an operation asks for.
pub fn adds_of(op: Op) -> usize
    ensures { result ≡ adds_in op }
{
    match op {
        Op::AddAssign(..) | Op::FMA(..) => 1,
        Op::MulAssign(..) => 0,
    }
}

// How many multiplications an operation asks for.
pub fn muls_of(op: Op) -> usize
    ensures { result ≡ muls_in op }
{
    match op {
        Op::AddAssign(..) => 0,
        Op::MulAssign(..) | Op::FMA(..) => 1,
    }
}

// How many additions the list asks for.
pub fn additions(list: &[u64]) -> usize
    ensures { result ≡ adds (ops_of list.now) }
{
    list.iter().map(|w| unpack(*w).map_or(0, adds_of)).sum()
}

// How many multiplications the list asks for.
pub fn multiplications(list: &[u64]) -> usize
    ensures { result ≡ muls (ops_of list.now) }
{
    list.iter().map(|w| unpack(*w).map_or(0, muls_of)).sum()
}

// Whether n operations on m rows, for l columns, keep to the bounds.
#[tactic(auto, unfolding(crate::specs::Check::shape_fine))]
pub fn shape_fine(m: usize, l: usize, n: usize) -> bool
    ensures { result ≡ shape_fine m l n }
{
    1 <= l && l <= m && m <= bounds::MOST_ROWS && n <= bounds::MOST_OPS
}

// Whether d and s are two different rows of m.
fn two_rows(m: usize, d: usize, s: usize) -> bool
    ensures { result ≡ two_rows m d s }
{
    d < m && s < m && d != s
}

// Whether an operation keeps to m rows, and writes no row that it adds.
#[tactic(auto, unfolding(crate::specs::Check::op_fine))]
pub fn op_fine(m: usize, op: Op) -> bool
    ensures { result ≡ op_fine m op }
{
    match op {
        Op::AddAssign(d, s) | Op::FMA(d, s, _) => two_rows(m, d, s),
        Op::MulAssign(d, _) => d < m,
    }
}

// Whether a word is an operation's, and passes its check.
pub fn word_fine(m: usize, w: u64) -> bool
    ensures { result ≡ word_fine m (meaning w) }
{
    unpack(w).is_some_and(|op| op_fine(m, op))
}

// Whether each word of a list is an operation's, and passes its check.
pub fn list_fine(m: usize, list: &[u64]) -> bool
    ensures { result ≡ list_fine m list.now }
{
    list.iter().all(|w| word_fine(m, *w))
}

// Whether the operation of a word can be undone: it is no scaling by zero.
fn word_undoable(w: u64) -> bool
    ensures { result ≡ word_undoable (meaning w) }
{
    match unpack(w) {
        Some(Op::MulAssign(_, scalar)) => scalar != 0,
        _ => true,
    }
}

// Whether a list can be undone: it has no MulAssign by zero.
pub fn can_undo(list: &[u64]) -> bool
    ensures { result ≡ undoable (ops_of list.now) }
{
    list.iter().all(|w| word_undoable(*w))
}
