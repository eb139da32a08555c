// Phase one's choice of a row, with every tie, over lent lists of rows and columns and the figures that are kept of them.
#![tactic(auto)]

ghost use Rattle.std.specs.Prelude.{◌≡◌, true, ◌&&◌, ◌≤◌, ◌<◌, length, find, eqb};
ghost use Rattle.rule.specs.Lists.{least_pos};
ghost use Rattle.rule.specs.Permitted.{count};
ghost use Rattle.rule.specs.Rule.{size, node, at_node, choose as rowRule};
ghost use Rattle.grid.specs.Grid.{bit, Under, Rows, Figures};
ghost use Rattle.figures.specs.Told.{told};
ghost use Rattle.choice.specs.Sizes.{Labelled, Found};
ghost use Rattle.choice.specs.Choose.{Ready, Decided};

use grid::Grid;

// How many columns of v have each label.
fn sizes_of(v: &[usize], labels: &[usize], sizes: &mut [usize])
    requires under { Under (length labels.now) v.now }
    requires labelled { Labelled (told labels.now) v.now (length sizes.old) }
    ensures { Figures (size (told labels.now) v.now) (length sizes.old) sizes.new }
{
    grid::clear(sizes);
    for &q in v {
        sizes[labels[q]] += 1;
    }
}

// The smallest label below n, and not 0, of the greatest size; `sizes` is room to count in, lent since the solver takes no memory of its own.
fn biggest(v: &[usize], labels: &[usize], n: usize, sizes: &mut [usize]) -> usize
    requires under { Under (length labels.now) v.now }
    requires labelled { Labelled (told labels.now) v.now n }
    requires n_nonzero { (0 < n) × (n ≤ length sizes.old) }
    ensures { Found (told labels.now) v.now n result sizes.old sizes.new }
{
    sizes_of(v, labels, sizes);
    let mut b = 0;
    for c in 1..n {
        if b == 0 || sizes[b] < sizes[c] {
            b = c;
        }
    }
    b
}

// The first column of v with label b.
fn labelled(v: &[usize], labels: &[usize], b: usize) -> Option<usize>
    requires { Under (length labels.now) v.now }
    ensures { result ≡ find (λ q. eqb (told labels.now q) b) v.now }
{
    v.iter().copied().find(|&q| labels[q] == b)
}

// The first row of e with a one at q and two ones in V.
fn at_node(g: Grid<'_>, q: usize, e: &[usize], ones: &[usize]) -> Option<usize>
    requires q_lt_l { q < g.l }
    requires rows { Rows g.l (length g.bits.now) e.now }
    requires under { Under (length ones.now) e.now }
    ensures { result ≡ find (λ y. bit g.entry.l g.entry.bits.now y q && eqb (told ones.now y) 2) e.now }
{
    e.iter()
        .copied()
        .find(|&y| figures::ones_of(ones, y) == 2 && g.has(y, q))
}

// r = 2: the first row at a node of a largest component.
fn choose_pair(
    g: Grid<'_>,
    v: &[usize],
    e: &[usize],
    ones: &[usize],
    labels: &[usize],
    n: usize,
    sizes: &mut [usize],
) -> Option<usize>
    requires { Ready g.l g.bits.now v.now e.now ones.now labels.now n (length sizes.old) }
    ensures { Decided (at_node (bit g.entry.l g.entry.bits.now) v.now e.now (node (told labels.now) n v.now)) true (told labels.now) v.now result sizes.old sizes.new }
{
    let b = biggest(v, labels, n, sizes);
    let node = labelled(v, labels, b)?;
    at_node(g, node, e, ones)
}

// The row rule: r is the least positive number of ones of a row of e, s the rows with a single one in their order, n the next label. The labels
// and n are a `Labels`, which is only read here.
pub fn choose(
    g: Grid<'_>,
    r: usize,
    v: &[usize],
    e: &[usize],
    ones: &[usize],
    deg: &[usize],
    s: &[usize],
    labels: &[usize],
    n: usize,
    sizes: &mut [usize],
) -> Option<usize>
    requires ready { Ready g.l g.bits.now v.now e.now ones.now labels.now n (length sizes.old) }
    requires under { Under (length deg.now) e.now }
    requires under_2 { Under (length deg.now) s.now }
    requires r_value { r ≡ least_pos (count (bit g.l g.bits.now) v.now) e.now }
    ensures { Decided (rowRule (bit g.entry.l g.entry.bits.now) (told deg.now) v.now e.now s.now (told labels.now) n) (eqb r 2) (told labels.now) v.now result sizes.old sizes.new }
{
    match r {
        0 => None,
        1 => figures::least_degree(s, deg),
        2 => choose_pair(g, v, e, ones, labels, n, sizes),
        _ => figures::least_degree_of(e, ones, deg, r),
    }
}
