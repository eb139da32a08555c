// A step of phase one, recorded: the chosen row is added to the rows below it with a nonzero in its column, binary rows first, then octet rows.
#![tactic(auto)]

ghost use Rattle.std.specs.Prelude.{◌≡◌, ◌+◌, ◌-◌, ◌*◌, ◌≤◌, ◌<◌, length};
ghost use Rattle.loops.specs.Entry.{entry_at};
ghost use Rattle.phases.specs.System.{range};
ghost use Rattle.phases.specs.One.{clears};
ghost use Rattle.grid.specs.Grid.{Under, Rows};
ghost use Rattle.tally.specs.Book.{book_of, Fair};
ghost use Rattle.clearing.specs.Clear.{Binary, Listed};

use grid::Grid;
use oplist::Op;
use tally::Journal;

// Row x is added to each of the rows ys with a one in column q, from the top.
pub fn clear_rows(g: Grid<'_>, q: usize, x: usize, ys: &[usize], journal: &mut Journal<'_>)
    requires rows { (Rows g.l (length g.bits.now) ys.now) × (Binary g.l g.bits.now q ys.now) × (Under 65536 ys.now) × (q < g.l) × (x < 65536) }
    requires fair { Fair (book_of journal.old) }
    ensures same_room { journal.new.room.ghost_name ≡ journal.old.room.ghost_name }
    ensures listed { Listed (book_of journal.old) (clears (λ y. entry_at g.entry.l g.entry.bits.now y q) x ys.now) (book_of journal.new) }
{
    for &y in ys {
        if g.has(y, q) {
            journal.record(Op::AddAssign(y, x));
        }
    }
}

// A multiple of row x is added to each of the h octet rows, row s + j being octet row j, with a nonzero in column q.
pub fn clear_octets(
    octets: &[u8],
    l: usize,
    s: usize,
    h: usize,
    q: usize,
    x: usize,
    journal: &mut Journal<'_>,
)
    requires l_in_bounds { (h * l ≤ length octets.now) × (s + h ≤ 65536) × (q < l) × (x < 65536) }
    requires fair { Fair (book_of journal.old) }
    ensures same_room { journal.new.room.ghost_name ≡ journal.old.room.ghost_name }
    ensures listed { Listed (book_of journal.old) (clears (λ y. entry_at l octets.now (y - s) q) x (range s h)) (book_of journal.new) }
{
    for j in 0..h {
        let c = octets[j * l + q];
        if c != 0 {
            journal.record(oplist::multiple_of(c, s + j, x));
        }
    }
}
