// Phases three to five over lent rooms (RFC 6330, 5.4.2.4 to 5.4.2.6), the order, and the vector of a Singular answer.
#![tactic(auto)]

ghost use Rattle.std.specs.Prelude.{◌≡◌, [], ◌+◌, ◌-◌, ◌*◌, length};
ghost use Rattle.loops.specs.Part.{part};
ghost use Rattle.loops.specs.Entry.{entry_at};
ghost use Rattle.loops.specs.Room.{notes};
ghost use Rattle.oplist.specs.Ops.{dest};
ghost use Rattle.grid.specs.Grid.{Under, Figures};
ghost use Rattle.tally.specs.Book.{book_of, note};
ghost use Rattle.rest.specs.Marks.{flag_of, kept_by};
ghost use Rattle.phases.specs.One.{entry};
ghost use Rattle.phases.specs.Rest.{gather, weigh};
ghost use Rattle.rest.specs.Again.{op_at, Reading, Listing, third, fifth};
ghost use Rattle.rest.specs.Gather.{paired, One, Gathering, Chosen, fourth};
ghost use Rattle.rest.specs.Columns.{Blank, Ordering, placed};
ghost use Rattle.rest.specs.Vector.{looked, valued, Singular, Valuing, Weighing};

use grid::Grid;
use octet::Octet;
use oplist::Op;
use tally::Journal;

// 1 at each row of xs, 0 elsewhere.
pub fn mark(marks: &mut [usize], xs: &[usize])
    requires { Under (length marks.old) xs.now }
    ensures { Figures (flag_of xs.now) (length marks.old) marks.new }
{
    marks.fill(0);
    for &x in xs {
        marks[x] = 1;
    }
}

// The row that an operation changes.
fn dest_of(op: Op) -> usize
    ensures { result ≡ dest op }
{
    match op {
        Op::AddAssign(y, _) | Op::MulAssign(y, _) | Op::FMA(y, _, _) => y,
    }
}

// The operation of word k is recorded again if it writes a marked row.
fn again(journal: &mut Journal<'_>, marks: &[usize], k: usize)
    requires { Reading marks.now k (book_of journal.old) }
    ensures same_room { journal.new.room.ghost_name ≡ journal.old.room.ghost_name }
    ensures recorded { book_of journal.new ≡ notes note (book_of journal.old) (kept_by marks.now (op_at journal.old.room.now k)) }
{
    match oplist::unpack(journal.room[k]) {
        Some(op) if marks[dest_of(op)] == 1 => journal.record(op),
        Some(_) => {}
        None => {}
    }
}

// Those of the first n operations that write a marked row, last one first.
pub fn phase_three(journal: &mut Journal<'_>, marks: &[usize], n: usize)
    requires { Listing marks.now n (book_of journal.old) }
    ensures same_room { journal.new.room.ghost_name ≡ journal.old.room.ghost_name }
    ensures recorded { book_of journal.new ≡ third marks.now n (book_of journal.old) }
{
    journal.next_phase();
    for k in (0..n).rev() {
        again(journal, marks, k);
    }
}

// Those of the first n operations that write a marked row, first to last.
// Not one function with `phase_three`: a contract over any order of places is longer than this body.
pub fn phase_five(journal: &mut Journal<'_>, marks: &[usize], n: usize)
    requires { Listing marks.now n (book_of journal.old) }
    ensures same_room { journal.new.room.ghost_name ≡ journal.old.room.ghost_name }
    ensures recorded { book_of journal.new ≡ fifth marks.now n (book_of journal.old) }
{
    journal.next_phase();
    for k in 0..n {
        again(journal, marks, k);
    }
}

// Row x gets row y if it has a one in column q.
fn gather_one(g: Grid<'_>, x: usize, q: usize, y: usize, journal: &mut Journal<'_>)
    requires { One g.bits.now g.l x q y (book_of journal.old) }
    ensures same_room { journal.new.room.ghost_name ≡ journal.old.room.ghost_name }
    ensures recorded { book_of journal.new ≡ notes note (book_of journal.old) (entry (entry_at g.entry.l g.entry.bits.now x q) x y []) }
{
    if g.has(x, q) {
        journal.record(Op::AddAssign(x, y));
    }
}

// Row x gets each row of ys whose column it has a one in.
fn gather_row(g: Grid<'_>, x: usize, cs: &[usize], ys: &[usize], journal: &mut Journal<'_>)
    requires { Gathering g.bits.now g.l x cs.now ys.now (book_of journal.old) }
    ensures same_room { journal.new.room.ghost_name ≡ journal.old.room.ghost_name }
    ensures recorded { book_of journal.new ≡ notes note (book_of journal.old) (gather (entry_at g.entry.l g.entry.bits.now) x (paired cs.now ys.now)) }
{
    for (&q, &y) in cs.iter().zip(ys) {
        gather_one(g, x, q, y, journal);
    }
}

// Each of the first i rows gets those of the rows behind it, up to place l, whose column it has a one in.
pub fn phase_four(g: Grid<'_>, i: usize, c: &[usize], d: &[usize], journal: &mut Journal<'_>)
    requires { Chosen g.bits.now g.l i c.now d.now (book_of journal.old) }
    ensures same_room { journal.new.room.ghost_name ≡ journal.old.room.ghost_name }
    ensures recorded { book_of journal.new ≡ fourth g.entry.bits.now g.entry.l i c.now d.now (book_of journal.old) }
{
    journal.next_phase();
    for &x in &d[..i] {
        gather_row(g, x, &c[i..g.l], &d[i..g.l], journal);
    }
}

// The symbol of column c[k] is in row d[k]: into a cleared room, by column. From the last place on, as the definition goes.
pub fn order_of(order: &mut [usize], c: &[usize], d: &[usize])
    requires { Ordering order.old c.now d.now }
    ensures { order.new ≡ placed (length c.now) c.now d.now order.old }
{
    for k in (0..c.len()).rev() {
        let q = c[k];
        order[q] = d[k];
    }
}

// What a row makes of the vector's entries at the columns cs: the products, summed, from the last place on, as the definition goes.
fn weigh_row(row: &[u8], cs: &[usize], vector: &[u8]) -> u8
    requires { Weighing row.now cs.now vector.now }
    ensures { result ≡ weigh row.now (looked vector.now cs.now) }
{
    let mut sum = Octet::ZERO;
    for k in (0..cs.len()).rev() {
        let q = cs[k];
        let a = Octet { value: row[k] };
        let b = Octet { value: vector[q] };
        let x = a.mul(b);
        sum = sum.add(x);
    }
    sum.value
}

// What row x, from place b on and before place g, makes of the vector.
fn row_value(work: &[u8], l: usize, x: usize, b: usize, g: usize, c: &[usize], vector: &[u8]) -> u8
    requires { Valuing work.now l x b g c.now vector.now }
    ensures { result ≡ weigh (part (x * l + b) (g - b) work.now) (looked vector.now (part b (g - b) c.now)) }
{
    let a = x * l + b;
    let e = a + (g - b);
    weigh_row(&work[a..e], &c[b..g], vector)
}

// Into a cleared vector, by column: 1 at the column at place q, 0 at later ones, the rest by substitution. The store's rows have place i first.
pub fn vector_of(
    work: &[u8],
    l: usize,
    c: &[usize],
    d: &[usize],
    i: usize,
    q: usize,
    vector: &mut [u8],
)
    requires singular { Singular work.now l c.now d.now i q }
    requires blank { Blank l vector.old }
    ensures { vector.new ≡ placed l c.now (valued work.now l d.now i q) vector.old }
{
    let last = c[q];
    vector[last] = 1;
    let g = q + 1;
    for p in (0..q).rev() {
        let b = i.max(p + 1);
        let x = d[p];
        let v = row_value(work, l, x, b, g, c, vector);
        let y = c[p];
        vector[y] = v;
    }
}
