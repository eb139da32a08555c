// Lists of rows and of columns by place: a chosen row and a chosen column come to the front.
#![tactic(auto)]

ghost use Rattle.std.specs.Prelude.{◌≡◌, ◌∷◌, ◌+◌, ◌*◌, ◌≤◌, ◌<◌, length, position, MatchOption};
ghost use Rattle.rule.specs.Lists.{In};
ghost use Rattle.rule.specs.Permitted.{count};
ghost use Rattle.rule.specs.Rule.{without, arrange as columnRule};
ghost use Rattle.grid.specs.Grid.{bit, Under};
ghost use Rattle.columns.specs.Exchange.{swapped, is};
ghost use Rattle.columns.specs.Sweep.{fronted, swept_out, Moved, Laid, LastZero};

use grid::Grid;

// Exchanges the entries at places i and j: `swap`, told in the words of the specs.
pub fn swap(d: &mut [usize], i: usize, j: usize)
    requires { (i < length d.old) × (j < length d.old) }
    ensures { d.new ≡ swapped i j d.old }
{
    d.swap(i, j);
}

// The place of the first x.
pub fn place(e: &[usize], x: usize) -> Option<usize>
    ensures { result ≡ position (is x) e.now }
{
    e.iter().position(|&y| y == x)
}

// The chosen row x is exchanged with the first: it stands before the rows that stay eligible.
pub fn bring_row(e: &mut [usize], x: usize)
    requires { In x e.old }
    ensures { e.new ≡ x ∷ without x e.old }
{
    let k = place(e, x).unwrap();
    swap(e, 0, k);
}

// The rightmost place from k on whose column has a zero of row x. A `for`, since what the closure of an `rposition` asks did not prove.
fn last_zero(v: &[usize], g: Grid<'_>, x: usize, k: usize) -> Option<usize>
    requires l_in_bounds { x * g.l + g.l ≤ length g.bits.now }
    requires under { Under g.l v.now }
    ensures { MatchOption result (LastZero v.now (bit g.entry.l g.entry.bits.now x) k (length v.now)) (λ z. (z < length v.now) × LastZero v.now (bit g.entry.l g.entry.bits.now x) k z) }
{
    for z in (k..v.len()).rev() {
        if !g.has(x, v[z]) {
            return Some(z);
        }
    }
    None
}

// Each one between place 1 and k is exchanged with the rightmost zero from k on.
fn sweep(v: &mut [usize], g: Grid<'_>, x: usize, k: usize)
    requires l_in_bounds { (x * g.l + g.l ≤ length g.bits.now) × (1 ≤ k) × (k ≤ length v.old) }
    requires under { Under g.l v.old }
    ensures { Moved g.entry.l (swept_out (bit g.entry.l g.entry.bits.now x) k v.old) v.old v.new }
{
    for c in 1..k {
        if g.has(x, v[c]) {
            if let Some(z) = last_zero(v, g, x, k) {
                swap(v, c, z);
            }
        }
    }
}

// The place of the first column of v that has a one of row x.
fn first_one(v: &[usize], g: Grid<'_>, x: usize) -> Option<usize>
    requires l_in_bounds { x * g.l + g.l ≤ length g.bits.now }
    requires under { Under g.l v.now }
    ensures { result ≡ position (bit g.entry.l g.entry.bits.now x) v.now }
{
    v.iter().position(|&q| g.has(x, q))
}

// The first one among the first k columns is exchanged with the first column.
fn front_one(v: &mut [usize], g: Grid<'_>, x: usize, k: usize)
    requires l_in_bounds { (x * g.l + g.l ≤ length g.bits.now) × (1 ≤ k) × (k ≤ length v.old) }
    requires under { Under g.l v.old }
    ensures { Moved g.entry.l (fronted (bit g.entry.l g.entry.bits.now x) k v.old) v.old v.new }
{
    if g.has(x, v[0]) {
        return;
    }
    if let Some(j) = first_one(&v[1..k], g, x) {
        swap(v, 0, j + 1);
    }
}

// The column rule for row x, which has r ones in V's columns v: a one comes first, its other r - 1 ones come last.
#[tactic(auto, using(crate::specs::Sweep::ones_upto))]
pub fn arrange(v: &mut [usize], g: Grid<'_>, x: usize, r: usize)
    requires l_in_bounds { (x * g.l + g.l ≤ length g.bits.now) × (0 < r) × (r ≡ count (bit g.l g.bits.now) v.old x) }
    requires under { Under g.l v.old }
    ensures { Laid g.entry.l (columnRule (bit g.entry.l g.entry.bits.now) v.old x) v.old v.new }
{
    let k = v.len() - (r - 1);
    front_one(v, g, x, k);
    sweep(v, g, x, k);
}
