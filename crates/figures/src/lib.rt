// What is kept of each row: its ones in V (`ones`), and its degree (`deg`). Only these functions read or write an entry of the two.
#![tactic(auto)]

ghost use Rattle.std.specs.Prelude.{◌≡◌, ◌*◌, ◌-◌, ◌≤◌, ◌<◌, length, eqb, ltb, cond};
ghost use Rattle.rule.specs.Lists.{filter, head_least, least_pos};
ghost use Rattle.rule.specs.Permitted.{count};
ghost use Rattle.grid.specs.Grid.{bit, Under, Figures};
ghost use Rattle.figures.specs.Told.{told, Taken};
ghost use Rattle.figures.specs.Picked.{row_of};

use grid::Grid;

// The ones of row x.
pub fn ones_of(ones: &[usize], x: usize) -> usize
    requires { x < length ones.now }
    ensures { result ≡ told ones.now x }
{
    ones[x]
}

// Row x loses a one, if it has one; the ones that it has left.
pub fn take_one(ones: &mut [usize], x: usize) -> usize
    requires { x < length ones.old }
    ensures { Taken ones.old x ones.new result }
{
    let k = ones[x].saturating_sub(1);
    ones[x] = k;
    k
}

// Each row's ones in the columns v.
pub fn counts(g: Grid<'_>, v: &[usize], ones: &mut [usize])
    requires l_in_bounds { length ones.old * g.l ≤ length g.bits.now }
    requires under { Under g.l v.now }
    ensures { Figures (count (bit g.entry.l g.entry.bits.now) v.now) (length ones.old) ones.new }
{
    for (x, n) in ones.iter_mut().enumerate() {
        *n = g.count(x, v);
    }
}

// Each row's degree is its ones.
pub fn degrees(ones: &[usize], deg: &mut [usize])
    requires { length deg.old ≤ length ones.now }
    ensures { Figures (told ones.now) (length deg.old) deg.new }
{
    deg.copy_from_slice(&ones[..deg.len()]);
}

// The least positive number of ones that a row of e has; 0 where there is none.
// A number and not an `Option`: 0 is none in `least_pos`, the rule's own definition.
pub fn least_positive(e: &[usize], ones: &[usize]) -> usize
    requires { Under (length ones.now) e.now }
    ensures { result ≡ least_pos (told ones.now) e.now }
{
    e.iter()
        .map(|&y| ones[y])
        .filter(|&n| n > 0)
        .min()
        .unwrap_or(0)
}

// Of the rows b and y the one of lesser degree, b where the two have the same. `reduce` with it says the tie, which a minimum by a key leaves to the library.
fn lighter(deg: &[usize], b: usize, y: usize) -> usize
    requires { (b < length deg.now) × (y < length deg.now) }
    ensures { result ≡ cond (ltb (told deg.now y) (told deg.now b)) y b }
{
    if deg[y] < deg[b] { y } else { b }
}

// The first row of s of least degree, if s has any.
pub fn least_degree(s: &[usize], deg: &[usize]) -> Option<usize>
    requires { Under (length deg.now) s.now }
    ensures { row_of result ≡ head_least (told deg.now) s.now }
{
    s.iter().copied().reduce(|b, y| lighter(deg, b, y))
}

// The first row of least degree among those of e with r ones, if there are any.
pub fn least_degree_of(e: &[usize], ones: &[usize], deg: &[usize], r: usize) -> Option<usize>
    requires under { Under (length ones.now) e.now }
    requires under_2 { Under (length deg.now) e.now }
    ensures { row_of result ≡ head_least (told deg.now) (filter (λ y. eqb (told ones.now y) r) e.now) }
{
    e.iter()
        .copied()
        .filter(|&y| ones[y] == r)
        .reduce(|b, y| lighter(deg, b, y))
}
