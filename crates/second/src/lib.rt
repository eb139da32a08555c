// Phase two over lent rooms: the working matrix, Gaussian elimination of the rows that were not chosen, and what it records.
#![tactic(auto)]

ghost use Rattle.std.specs.Prelude.{◌≡◌, [], ◌∷◌, map, ℕ, ◌-◌, ◌*◌, ◌^◌, ◌≤◌, ◌<◌, length, get_or, set, take, drop};
ghost use Rattle.oplist.specs.Ops.{Within, Each};
ghost use Rattle.oplist.specs.Word.{meaning};
ghost use Rattle.oplist.specs.Listed.{ops_of, with_op};
ghost use Rattle.oplist.specs.Facts.{Rows};
ghost use Rattle.phases.specs.One.{entry, clears};
ghost use Rattle.phases.specs.Two.{at, act, acts, working, scaled, forward as columns, backward as cleared};
ghost use Rattle.tally.specs.Book.{book_of, Fair};
ghost use Rattle.second.specs.Store.{store_of, matrix, Place, Rooms, Sized};
ghost use Rattle.second.specs.Clear.{Fit, Performed};
ghost use Rattle.second.specs.Step.{Ready, Stepped};
ghost use Rattle.second.specs.Forward.{Eliminated};
ghost use Rattle.second.specs.Backward.{Above, Backable, Cleared};
ghost use Rattle.second.specs.Fill.{Filling, picked, entries};
ghost use Rattle.second.specs.Whole.{both, Prepared, Reduced};

use grid::Shape;
use octet::Octet;
use oplist::Op;
use tally::Journal;

// The place of a column that has no row.
#[derive(Debug, Clone, Copy, PartialEq, Eq)]
pub struct Singular {
    pub place: usize,
}

// The part of the working matrix that is used: m rows of l bytes, of which the places from i on.
// The lent slices stay beside it: with them in it, each function would have to promise that its numbers and references stay.
#[derive(Clone, Copy)]
struct Area {
    m: usize,
    l: usize,
    i: usize,
}

impl Area {
    // Where the part of row y begins, and where it ends.
    fn span(self, y: usize) -> (usize, usize)
        requires y_lt_m { (y < self.m) × (self.i ≤ self.l) }
        requires l_bound { self.m * self.l < 2 ^ 64 }
        ensures start { Place self.m self.l y self.i result.0 }
        ensures stop { Place self.m self.l y self.l result.1 }
    {
        (
            cell(self.m, self.l, y, self.i),
            cell(self.m, self.l, y, self.l),
        )
    }
}

// Where place q of row y stands in the store, or would: q may be l.
fn cell(m: usize, l: usize, y: usize, q: usize) -> usize
    requires y_lt_m { (y < m) × (q ≤ l) }
    requires l_bound { m * l < 2 ^ 64 }
    ensures { Place m l y q result }
{
    y * l + q
}

// The entry of row y at place q.
fn read(work: &[u8], area: Area, y: usize, q: usize) -> u8
    requires sized { Sized area.m area.l area.i work.now }
    requires y_lt_m { (y < area.m) × (area.i ≤ q) × (q < area.l) }
    ensures { result ≡ at (matrix area work.now) y (q - area.i) }
{
    let k = cell(area.m, area.l, y, q);
    work[k]
}

// The part of row x goes to the scratch.
fn lift(work: &[u8], area: Area, x: usize, scratch: &mut [u8])
    requires sized { Sized area.m area.l area.i work.now }
    requires x_lt_m { (x < area.m) × (length scratch.old ≡ area.l - area.i) }
    ensures { scratch.new ≡ get_or (matrix area work.now) x [] }
{
    let (a, b) = area.span(x);
    scratch.copy_from_slice(&work[a..b]);
}

// The part of row y is multiplied by c.
fn scale_row(work: &mut [u8], area: Area, y: usize, c: u8)
    requires sized { Sized area.m area.l area.i work.old }
    requires y_lt_m { y < area.m }
    ensures { matrix area work.new ≡ act (Op.MulAssign y c) (matrix area work.old) }
{
    let (a, b) = area.span(y);
    octets::scale(&mut work[a..b], Octet { value: c });
}

// The part of row x is added to that of row y.
fn add_row(work: &mut [u8], area: Area, scratch: &mut [u8], y: usize, x: usize)
    requires rooms { Rooms area.m area.l area.i work.old scratch.old }
    requires y_lt_m { (y < area.m) × (x < area.m) }
    ensures { matrix area work.new ≡ act (Op.AddAssign y x) (matrix area work.old) }
{
    let row = &mut scratch[..area.l - area.i];
    lift(work, area, x, row);
    let (a, b) = area.span(y);
    octets::add(&mut work[a..b], row);
}

// c times the part of row x is added to that of row y.
// Not one function with `add_row`: an addition multiplies nothing, and another row function does it.
fn fma_row(work: &mut [u8], area: Area, scratch: &mut [u8], y: usize, x: usize, c: u8)
    requires rooms { Rooms area.m area.l area.i work.old scratch.old }
    requires y_lt_m { (y < area.m) × (x < area.m) }
    ensures { matrix area work.new ≡ act (Op.FMA y x c) (matrix area work.old) }
{
    let row = &mut scratch[..area.l - area.i];
    lift(work, area, x, row);
    let (a, b) = area.span(y);
    octets::fma(&mut work[a..b], row, Octet { value: c });
}

// An operation on the parts of rows.
fn apply(work: &mut [u8], area: Area, scratch: &mut [u8], op: Op)
    requires rooms { Rooms area.m area.l area.i work.old scratch.old }
    requires within { Within area.m op }
    ensures { matrix area work.new ≡ act op (matrix area work.old) }
{
    match op {
        Op::AddAssign(dest, src) => add_row(work, area, scratch, dest, src),
        Op::MulAssign(dest, scalar) => scale_row(work, area, dest, scalar),
        Op::FMA(dest, src, scalar) => fma_row(work, area, scratch, dest, src, scalar),
    }
}

// An operation is done on the store, and recorded.
fn perform(work: &mut [u8], area: Area, scratch: &mut [u8], journal: &mut Journal<'_>, op: Op)
    requires rooms { Rooms area.m area.l area.i work.old scratch.old }
    requires fair { Fair (book_of journal.old) }
    requires fit { Fit area.m op }
    ensures same_room { journal.new.room.ghost_name ≡ journal.old.room.ghost_name }
    ensures performed { Performed area.m area.l area.i (op ∷ []) work.old (book_of journal.old) work.new (book_of journal.new) }
{
    apply(work, area, scratch, op);
    journal.record(op);
}

// Row y is divided by its entry at place q.
fn scale_pivot(
    work: &mut [u8],
    area: Area,
    q: usize,
    y: usize,
    scratch: &mut [u8],
    journal: &mut Journal<'_>,
)
    requires rooms { Rooms area.m area.l area.i work.old scratch.old }
    requires fair { Fair (book_of journal.old) }
    requires y_lt_m { (y < area.m) × (area.i ≤ q) × (q < area.l) }
    ensures same_room { journal.new.room.ghost_name ≡ journal.old.room.ghost_name }
    ensures performed { Performed area.m area.l area.i (scaled (at (matrix area work.old) y (q - area.i)) y) work.old (book_of journal.old) work.new (book_of journal.new) }
{
    let c = read(work, area, y, q);
    if c == 1 {
        return;
    }
    if let Ok(v) = Octet::ONE.div(Octet { value: c }) {
        perform(work, area, scratch, journal, Op::MulAssign(y, v.value));
    }
}

// Place q of row y is cleared by row x.
fn clear_row(
    work: &mut [u8],
    area: Area,
    q: usize,
    x: usize,
    y: usize,
    scratch: &mut [u8],
    journal: &mut Journal<'_>,
)
    requires rooms { Rooms area.m area.l area.i work.old scratch.old }
    requires fair { Fair (book_of journal.old) }
    requires x_lt_m { (x < area.m) × (y < area.m) × (area.i ≤ q) × (q < area.l) }
    ensures same_room { journal.new.room.ghost_name ≡ journal.old.room.ghost_name }
    ensures performed { Performed area.m area.l area.i (entry (at (matrix area work.old) y (q - area.i)) y x []) work.old (book_of journal.old) work.new (book_of journal.new) }
{
    let c = read(work, area, y, q);
    if c == 0 {
        return;
    }
    let op = oplist::multiple_of(c, y, x);
    perform(work, area, scratch, journal, op);
}

// Place q is cleared in the rows ys by row x.
fn clear_below(
    work: &mut [u8],
    area: Area,
    q: usize,
    x: usize,
    ys: &[usize],
    scratch: &mut [u8],
    journal: &mut Journal<'_>,
)
    requires rooms { Rooms area.m area.l area.i work.old scratch.old }
    requires fair { Fair (book_of journal.old) }
    requires rows { Rows area.m (x ∷ ys.now) }
    requires i_le_q { (area.i ≤ q) × (q < area.l) }
    ensures same_room { journal.new.room.ghost_name ≡ journal.old.room.ghost_name }
    ensures performed { Performed area.m area.l area.i (clears (λ z. at (matrix area work.old) z (q - area.i)) x ys.now) work.old (book_of journal.old) work.new (book_of journal.new) }
{
    for &y in ys {
        clear_row(work, area, q, x, y, scratch, journal);
    }
}

// The row at place p comes to place q, is scaled, and clears place q below.
fn pivot_step(
    work: &mut [u8],
    area: Area,
    q: usize,
    p: usize,
    d: &mut [usize],
    scratch: &mut [u8],
    journal: &mut Journal<'_>,
)
    requires ready { Ready area.m area.l area.i work.old scratch.old d.old (book_of journal.old) }
    requires i_le_q { (area.i ≤ q) × (q < area.l) × (q ≤ p) × (p < area.m) }
    ensures same_room { journal.new.room.ghost_name ≡ journal.old.room.ghost_name }
    ensures stepped { Stepped area.m area.l area.i q (get_or d.old p 0) work.old d.old (book_of journal.old) work.new d.new (book_of journal.new) }
{
    columns::swap(d, q, p);
    let x = d[q];
    scale_pivot(work, area, q, x, scratch, journal);
    let below = q + 1;
    clear_below(work, area, q, x, &d[below..], scratch, journal);
}

// Columns from place i on are brought to echelon form; the first row with a nonzero is a column's.
fn forward(
    work: &mut [u8],
    area: Area,
    d: &mut [usize],
    scratch: &mut [u8],
    journal: &mut Journal<'_>,
) -> Result<(), Singular>
    requires { Ready area.m area.l area.i work.old scratch.old d.old (book_of journal.old) }
    ensures same_room { journal.new.room.ghost_name ≡ journal.old.room.ghost_name }
    ensures eliminated { Eliminated columns area.m area.l area.i work.old d.old (book_of journal.old) result work.new d.new (book_of journal.new) }
{
    'columns: {
        for q in area.i..area.l {
            // Not a `for`: the search leaves both loops at the first column that has no row.
            let mut p = q;
            'rows: loop {
                if p == area.m {
                    break 'columns Err(Singular { place: q });
                }
                if read(work, area, d[p], q) != 0 {
                    break 'rows;
                }
                p += 1;
            }
            pivot_step(work, area, q, p, d, scratch, journal);
        }
        Ok(())
    }
}

// c times row x is added to row y: the operation is only recorded.
fn note_multiple(journal: &mut Journal<'_>, c: u8, y: usize, x: usize)
    requires fair { Fair (book_of journal.old) }
    requires y_bound { (y < 65536) × (x < 65536) }
    ensures same_room { journal.new.room.ghost_name ≡ journal.old.room.ghost_name }
    ensures cleared { Cleared (entry c y x []) (book_of journal.old) (book_of journal.new) }
{
    if c == 0 {
        return;
    }
    let op = oplist::multiple_of(c, y, x);
    journal.record(op);
}

// Place q is cleared in the rows ys by row x; the matrix stays, since nothing reads it any more.
fn clear_above(work: &[u8], area: Area, q: usize, x: usize, ys: &[usize], journal: &mut Journal<'_>)
    requires above { Above area.m area.l area.i q x work.now ys.now }
    requires fair { Fair (book_of journal.old) }
    ensures same_room { journal.new.room.ghost_name ≡ journal.old.room.ghost_name }
    ensures cleared { Cleared (clears (λ z. at (matrix area work.now) z (q - area.i)) x ys.now) (book_of journal.old) (book_of journal.new) }
{
    for &y in ys {
        let c = read(work, area, y, q);
        note_multiple(journal, c, y, x);
    }
}

// Each column from place i on is cleared above, the last one first.
fn backward(work: &[u8], area: Area, d: &[usize], journal: &mut Journal<'_>)
    requires { Backable area.m area.l area.i work.now d.now (book_of journal.old) }
    ensures same_room { journal.new.room.ghost_name ≡ journal.old.room.ghost_name }
    ensures cleared { Cleared (cleared (matrix area work.now) (take (area.l - area.i) (drop area.i d.now)) (area.l - area.i)) (book_of journal.old) (book_of journal.new) }
{
    for q in (area.i..area.l).rev() {
        let x = d[q];
        clear_above(work, area, q, x, &d[area.i..q], journal);
    }
}

// The entries of a row at the columns cols.
fn gather(dest: &mut [u8], row: &[u8], cols: &[usize])
    requires dest_len { length dest.old ≡ length cols.now }
    requires by_index { (k : ℕ) → k < length cols.now → get_or cols.now k 0 < length row.now }
    ensures { dest.new ≡ map (λ q. get_or row.now q 0) cols.now }
{
    for (k, x) in dest.iter_mut().enumerate() {
        *x = row[cols[k]];
    }
}

// Row y of the store gets the entries of row j of src, which has h rows, at the columns cols.
fn fill_row(work: &mut [u8], area: Area, y: usize, src: &[u8], h: usize, j: usize, cols: &[usize])
    requires sized { Sized area.m area.l area.i work.old }
    requires src_len { (length src.now ≡ h * area.l) × (length cols.now ≡ area.l - area.i) }
    requires y_lt_m { (y < area.m) × (j < h) }
    requires by_index { (k : ℕ) → k < length cols.now → get_or cols.now k 0 < area.l }
    ensures { matrix area work.new ≡ set (matrix area work.old) y (picked area.l src.now j cols.now) }
{
    let (a, b) = area.span(y);
    let p = cell(h, area.l, j, 0);
    let e = cell(h, area.l, j, area.l);
    gather(&mut work[a..b], &src[p..e], cols);
}

// Row y of the store gets its entries, from the octet rows where it is one of them.
fn fill_combined(
    work: &mut [u8],
    z: Shape,
    i: usize,
    bits: &[u8],
    octets: &[u8],
    y: usize,
    cols: &[usize],
)
    requires filling { Filling z.m z.l z.s z.h i work.old bits.now octets.now cols.now }
    requires y_lt_m { y < z.m }
    ensures { store_of z.m z.l i work.new ≡ set (store_of z.m z.l i work.old) y (map (entries z.m z.l z.s z.h bits.now octets.now y) cols.now) }
{
    let area = Area { m: z.m, l: z.l, i };
    if z.s <= y && y < z.s + z.h {
        fill_row(work, area, y, octets, z.h, y - z.s, cols);
    } else {
        fill_row(work, area, y, bits, z.m, y, cols);
    }
}

// The working matrix: of every row its entries at the columns cols.
fn fill(work: &mut [u8], z: Shape, i: usize, bits: &[u8], octets: &[u8], cols: &[usize])
    requires { Filling z.m z.l z.s z.h i work.old bits.now octets.now cols.now }
    ensures { store_of z.m z.l i work.new ≡ working (entries z.m z.l z.s z.h bits.now octets.now) z.m cols.now }
{
    for y in 0..z.m {
        fill_combined(work, z, i, bits, octets, y, cols);
    }
}

// The operation of a word; a word that is no operation's does nothing.
fn apply_word(work: &mut [u8], area: Area, scratch: &mut [u8], w: u64)
    requires rooms { Rooms area.m area.l area.i work.old scratch.old }
    requires each { Each (Within area.m) (with_op (meaning w) []) }
    ensures { matrix area work.new ≡ acts (with_op (meaning w) []) (matrix area work.old) }
{
    if let Some(op) = oplist::unpack(w) {
        apply(work, area, scratch, op);
    }
}

// The operations of a list's words, one after the other.
fn apply_list(work: &mut [u8], area: Area, scratch: &mut [u8], list: &[u64])
    requires rooms { Rooms area.m area.l area.i work.old scratch.old }
    requires each { Each (Within area.m) (ops_of list.now) }
    ensures { matrix area work.new ≡ acts (ops_of list.now) (matrix area work.old) }
{
    for &w in list {
        apply_word(work, area, scratch, w);
    }
}

// The columns from place i on: to echelon form, and then cleared above.
fn eliminate(
    work: &mut [u8],
    area: Area,
    d: &mut [usize],
    scratch: &mut [u8],
    journal: &mut Journal<'_>,
) -> Result<(), Singular>
    requires { Ready area.m area.l area.i work.old scratch.old d.old (book_of journal.old) }
    ensures same_room { journal.new.room.ghost_name ≡ journal.old.room.ghost_name }
    ensures eliminated { Eliminated both area.m area.l area.i work.old d.old (book_of journal.old) result work.new d.new (book_of journal.new) }
{
    forward(work, area, d, scratch, journal)?;
    backward(work, area, d, journal);
    Ok(())
}

// Phase two: the working matrix is filled, gets phase one's list, and is then eliminated; only this phase's operations are counted.
pub fn phase_two(
    bits: &[u8],
    octets: &[u8],
    z: Shape,
    i: usize,
    c: &[usize],
    d: &mut [usize],
    work: &mut [u8],
    scratch: &mut [u8],
    journal: &mut Journal<'_>,
) -> Result<(), Singular>
    requires { Prepared z.m z.l z.s z.h i bits.now octets.now c.now d.old work.old scratch.old (book_of journal.old) }
    ensures same_room { journal.new.room.ghost_name ≡ journal.old.room.ghost_name }
    ensures reduced { Reduced z.m z.l z.s z.h i bits.now octets.now c.now d.old (book_of journal.old) result work.new d.new (book_of journal.new) }
{
    let area = Area { m: z.m, l: z.l, i };
    fill(work, z, i, bits, octets, &c[i..z.l]);
    apply_list(work, area, scratch, journal.words());
    journal.next_phase();
    eliminate(work, area, d, scratch, journal)
}
