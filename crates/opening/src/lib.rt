// Phase one before its first step: the order of columns and rows, the row figures, the rows with a single one, and the labels of columns.
#![tactic(auto)]

ghost use Rattle.std.specs.Prelude.{◌≡◌, ℕ, ◌+◌, ◌≤◌, ◌<◌, length};
ghost use Rattle.rule.specs.Lists.{filter};
ghost use Rattle.rule.specs.Rule.{add_pairs};
ghost use Rattle.grid.specs.Grid.{bit, Under, Rows};
ghost use Rattle.labels.specs.Labs.{labs};
ghost use Rattle.labels.specs.Marking.{marks_of, Ready, Marked, Right};
ghost use Rattle.phases.specs.System.{range};
ghost use Rattle.opening.specs.Rows.{rows_at_first};
ghost use Rattle.opening.specs.Marks.{is_two, Outside, Seen, Numbered, Given, FirstMarked};
ghost use Rattle.opening.specs.Opened.{shape, Lent, Figured, Opens, Opened};

use grid::{Grid, Shape};
use labels::Labels;
use singles::Singles;

// The numbers from 0 on.
fn numbers(s: &mut [usize])
    ensures { s.new ≡ range 0 (length s.old) }
{
    for (k, x) in s.iter_mut().enumerate() {
        *x = k;
    }
}

// The rows by place: the h octet rows, from row s on, stand last, each exchanged with one of the last h rows.
fn first_rows(d: &mut [usize], s: usize, h: usize)
    requires { s + h + h ≤ length d.old }
    ensures { d.new ≡ rows_at_first (length d.old) s h }
{
    numbers(d);
    let b = d.len() - h;
    for j in 0..h {
        columns::swap(d, s + j, b + j);
    }
}

// The rows of ys with two ones in v, by the figures, are joined, from the top.
#[tactic(auto, unfolding(crate::specs::Marks::is_two))]
fn add_twos(g: Grid<'_>, ys: &[usize], v: &[usize], fig: &[usize], labels: &mut Labels<'_>)
    requires { (Rows g.l (length g.bits.now) ys.now) × (Under (length fig.now) ys.now) × (Under g.l v.now) × (Right (bit g.l g.bits.now) v.now ys.now fig.now) × (Ready labels.old.of.now labels.old.next) × (g.l ≤ length labels.old.of.now) }
    ensures same_labels { labels.new.of.ghost_name ≡ labels.old.of.ghost_name }
    ensures marked { Marked (add_pairs (bit g.entry.l g.entry.bits.now) v.now (marks_of labels.old.of.now labels.old.next) (filter (is_two fig.now) ys.now)) labels.old.of.now labels.old.next labels.new.of.now labels.new.next }
{
    for &y in ys {
        if figures::ones_of(fig, y) == 2 {
            labels.add_row(g, y, v);
        }
    }
}

// One more than the first column that has label a, which is c if none was seen before.
fn first_seen(least: &mut [usize], a: usize, c: usize) -> usize
    requires { (a < length least.old) × (c + 1 < 18446744073709551616) }
    ensures { Seen a c least.old least.new result }
{
    if least[a] == 0 {
        least[a] = c + 1;
    }
    least[a]
}

// Each label becomes one more than the least column that has it; w is the columns in V, and `least` is room, one entry a label.
fn by_least(w: usize, labels: &mut Labels<'_>, least: &mut [usize])
    requires { (w ≤ length labels.old.of.now) × (((c : ℕ) → labs labels.old.of.now c < length least.old)) × (Outside (labs labels.old.of.now) (range 0 w)) }
    ensures same_labels { labels.new.of.ghost_name ≡ labels.old.of.ghost_name }
    ensures numbered { Numbered w labels.old.of.now labels.new.of.now }
{
    grid::clear(least);
    for c in 0..w {
        let a = labels.of[c];
        if a != 0 {
            labels.of[c] = first_seen(least, a, c);
        }
    }
}

// The labels before the first step: e is the eligible rows and v the columns of V, which are those below its length; `least` is room.
fn first_marks(
    g: Grid<'_>,
    e: &[usize],
    v: &[usize],
    fig: &[usize],
    labels: &mut Labels<'_>,
    least: &mut [usize],
)
    requires { Given g.l g.bits.now e.now v.now fig.now (length labels.old.of.now) (length least.old) }
    ensures same_labels { labels.new.of.ghost_name ≡ labels.old.of.ghost_name }
    ensures marked { FirstMarked (bit g.entry.l g.entry.bits.now) v.now e.now (length labels.old.of.now) labels.new.of.now labels.new.next }
{
    grid::clear(labels.of);
    labels.next = 1;
    add_twos(g, e, v, fig, labels);
    let w = v.len();
    by_least(w, labels, least);
    labels.next = w + 1;
}

// The figures before the first step: each row's ones in V, which are its degree too, the rows with a single one, and the labels.
fn figures<'a>(
    g: Grid<'_>,
    e: &[usize],
    v: &[usize],
    ones: &mut [usize],
    deg: &mut [usize],
    s: &'a mut [usize],
    labels: &mut Labels<'_>,
    sizes: &mut [usize],
) -> Singles<'a>
    requires { Lent g.l g.bits.now e.now v.now (length ones.old) (length deg.old) (length s.old) (length labels.old.of.now) (length sizes.old) }
    ensures same_room { result.room.ghost_name ≡ s.entry.ghost_name }
    ensures same_labels { labels.new.of.ghost_name ≡ labels.old.of.ghost_name }
    ensures figured { Figured (bit g.entry.l g.entry.bits.now) e.now v.now (length ones.old) (length deg.old) (length s.old) (length labels.old.of.now) ones.new deg.new result.room.now labels.new.of.now result.used labels.new.next }
{
    figures::counts(g, v, ones);
    figures::degrees(ones, deg);
    first_marks(g, e, v, ones, labels, sizes);
    Singles::new(s, e, ones)
}

// Phase one's slices before its first step; `sizes` is room.
pub fn start<'a>(
    bits: &[u8],
    z: Shape,
    c: &mut [usize],
    d: &mut [usize],
    ones: &mut [usize],
    deg: &mut [usize],
    singles: &'a mut [usize],
    labels: &mut Labels<'_>,
    sizes: &mut [usize],
) -> Singles<'a>
    requires { Opens (shape z.m z.l z.s z.h z.w) (length bits.now) (length c.old) (length d.old) (length ones.old) (length deg.old) (length singles.old) (length labels.old.of.now) (length sizes.old) }
    ensures same_room { result.room.ghost_name ≡ singles.entry.ghost_name }
    ensures same_labels { labels.new.of.ghost_name ≡ labels.old.of.ghost_name }
    ensures opened { Opened (shape z.m z.l z.s z.h z.w) bits.now c.new d.new ones.new deg.new result.room.now labels.new.of.now result.used labels.new.next }
{
    let g = Grid { bits, l: z.l };
    let top = z.m - z.h;
    numbers(c);
    first_rows(d, z.s, z.h);
    figures(g, &d[..top], &c[..z.w], ones, deg, singles, labels, sizes)
}
