// Phase one: the loop of steps, with its list.
#![tactic(auto)]

ghost use Rattle.std.specs.Prelude.{◌≡◌, ℕ, ◌+◌, ◌*◌, ◌≤◌, length};
ghost use Rattle.loops.specs.Entry.{entry_at};
ghost use Rattle.tally.specs.Book.{book_of, Fair};
ghost use Rattle.clearing.specs.Clear.{Listed};
ghost use Rattle.stepping.specs.Turns.{as_shape};
ghost use Rattle.figures.specs.Told.{told};
ghost use Rattle.phases.specs.System.{combined};
ghost use Rattle.phases.specs.One.{degree, phase_one};
ghost use Rattle.stepping.specs.Stands.{Given, Standing};
ghost use Rattle.firstphase.specs.Clears.{Clear, step_ops};
ghost use Rattle.firstphase.specs.Ended.{Outcome};
ghost use Rattle.firstphase.specs.Begins.{Lent};

use grid::Grid;
use labels::Labels;
use singles::Singles;
use stepping::{Shape, State};
use tally::Journal;

// Phase one is done, after so many steps: V is empty.
#[derive(Debug, Clone, Copy, PartialEq, Eq)]
pub struct Done {
    pub steps: usize,
}

// Phase one stops before V is empty: no eligible row has a one in it.
#[derive(Debug, Clone, Copy, PartialEq, Eq)]
pub struct NoPivot;

// The row at place i, chosen last, is added to the rows below it with a nonzero in its column.
fn clear_step(
    bits: &[u8],
    octets: &[u8],
    z: Shape,
    i: usize,
    c: &[usize],
    d: &[usize],
    journal: &mut Journal<'_>,
)
    requires clear { Clear (as_shape z) bits.now octets.now i c.now d.now }
    requires fair { Fair (book_of journal.old) }
    ensures same_room { journal.new.room.ghost_name ≡ journal.old.room.ghost_name }
    ensures listed { Listed (book_of journal.old) (step_ops (as_shape z) bits.now octets.now i c.now d.now) (book_of journal.new) }
{
    let g = Grid { bits, l: z.l };
    let q = c[i];
    let x = d[i];
    let below = &d[i + 1..z.m - z.h];
    clearing::clear_rows(g, q, x, below, journal);
    clearing::clear_octets(octets, z.l, z.s, z.h, q, x, journal);
}

// Steps are made until V is empty or no row can be chosen.
fn steps(
    bits: &[u8],
    octets: &[u8],
    z: Shape,
    c: &mut [usize],
    d: &mut [usize],
    ones: &mut [usize],
    deg: &[usize],
    singles: &mut Singles<'_>,
    labels: &mut Labels<'_>,
    sizes: &mut [usize],
    journal: &mut Journal<'_>,
    first: State,
) -> Result<Done, NoPivot>
    requires given { Given (as_shape z) bits.now }
    requires standing { Standing (as_shape z) bits.now c.old d.old ones.old singles.old.room.now labels.old.of.now first.i first.u singles.old.used labels.old.next }
    requires deg_len { (length deg.now ≡ z.m) × ((x : ℕ) → told deg.now x ≡ degree (entry_at z.l bits.now) (as_shape z) x) × (z.l + z.l + 1 ≤ length sizes.old) }
    requires i_value { (first.i ≡ 0) × (z.h * z.l ≤ length octets.now) × (Fair (book_of journal.old)) }
    ensures same_room { journal.new.room.ghost_name ≡ journal.old.room.ghost_name }
    ensures outcome { Outcome (as_shape z) bits.now octets.now (phase_one (entry_at z.l bits.now) (as_shape z)) (book_of journal.old) c.new d.new (book_of journal.new) result }
{
    let mut st = first;
    while st.i + st.u < z.l {
        let i = st.i;
        let turned = stepping::turn(bits, z, c, d, ones, deg, singles, labels, sizes, st);
        let next = turned.ok_or(NoPivot)?;
        clear_step(bits, octets, z, i, c, d, journal);
        st = next;
    }
    Ok(Done { steps: st.i })
}

// Phase one over the lent, unchanged matrix: c and d become the columns and rows by place, and its list is recorded.
pub fn phase_one(
    bits: &[u8],
    octets: &[u8],
    z: Shape,
    c: &mut [usize],
    d: &mut [usize],
    ones: &mut [usize],
    deg: &mut [usize],
    s: &mut [usize],
    labels: &mut [usize],
    sizes: &mut [usize],
    journal: &mut Journal<'_>,
) -> Result<Done, NoPivot>
    requires given { Given (as_shape z) bits.now }
    requires lent { Lent (as_shape z) (length octets.now) (length c.old) (length d.old) (length ones.old) (length deg.old) (length s.old) (length labels.old) (length sizes.old) }
    requires fair { Fair (book_of journal.old) }
    ensures same_room { journal.new.room.ghost_name ≡ journal.old.room.ghost_name }
    ensures outcome { Outcome (as_shape z) bits.now octets.now (phase_one (combined (as_shape z) bits.now octets.now) (as_shape z)) (book_of journal.old) c.new d.new (book_of journal.new) result }
{
    let mut labels = Labels {
        of: labels,
        next: 1,
    };
    let mut singles = opening::start(bits, z, c, d, ones, deg, s, &mut labels, sizes);
    let first = State { i: 0, u: z.l - z.w };
    steps(
        bits,
        octets,
        z,
        c,
        d,
        ones,
        deg,
        &mut singles,
        &mut labels,
        sizes,
        journal,
        first,
    )
}
