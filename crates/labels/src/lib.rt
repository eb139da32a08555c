// One label a column, changed in place as pairs of columns are joined: what `relabel`, `next_label` and `add_pairs` of the crate `rule` say.
#![tactic(auto)]

ghost use Rattle.std.specs.Prelude.{◌≡◌, ℕ, ◌+◌, ◌*◌, ◌^◌, ◌<◌, ◌≤◌, length, eqb, true, false, cond, ◌||◌};
ghost use Rattle.std.specs.List.{list_any};
ghost use Rattle.rule.specs.Lists.{filter};
ghost use Rattle.rule.specs.Permitted.{ones as ones_in, count};
ghost use Rattle.rule.specs.Rule.{joint, next_label, relabel, add_pair, add_pairs};
ghost use Rattle.grid.specs.Grid.{bit, Under, Rows};
ghost use Rattle.labels.specs.Labs.{labs, Alike};
ghost use Rattle.labels.specs.Marking.{marks_of, Ready, Marked, Next, Right, is_noted, noted_by};

use grid::Grid;

// The label of each column, 0 for none, and the next new one.
#[derive(Drop)]
pub struct Labels<'a> {
    pub of: &'a mut [usize],
    pub next: usize,
}

// The label of two columns with labels a and b once they are joined; n is the next new label, and 0 is none.
fn join(a: usize, b: usize, n: usize) -> usize
    ensures { result ≡ joint a b n }
{
    match (a, b) {
        (0, 0) => n,
        (0, _) => b,
        (_, 0) => a,
        _ => a.min(b),
    }
}

// The next new label once columns with labels a and b are joined.
fn following(a: usize, b: usize, n: usize) -> usize
    requires { n + 1 < 2 ^ 64 }
    ensures { result ≡ next_label a b n }
{
    if a == 0 && b == 0 { n + 1 } else { n }
}

// The label of a column with label v once the labels a and b are one, j.
fn renamed(v: usize, a: usize, b: usize, j: usize) -> usize
    ensures { result ≡ cond (eqb v a || eqb v b) j v }
{
    if v == a || v == b { j } else { v }
}

// Whether two columns have a label each, and not the same.
fn differ(a: usize, b: usize) -> bool
    ensures { (result ≡ false → Alike a b) × (result ≡ true → (0 < a) × (0 < b)) }
{
    a != 0 && b != 0 && a != b
}

// The first place of v, from k on, whose column has a one of row y. A `for`, since what the closure of a `position` asks did not prove.
fn next_one(g: Grid<'_>, y: usize, v: &[usize], k: usize) -> Option<usize>
    requires { (y * g.l + g.l ≤ length g.bits.now) × (Under g.l v.now) × (k ≤ length v.now) }
    ensures { Next (bit g.entry.l g.entry.bits.now y) v.now k result }
{
    for p in k..v.len() {
        if g.has(y, v[p]) {
            return Some(p);
        }
    }
    None
}

// Whether row y has a one in the columns v.
fn touches(g: Grid<'_>, y: usize, v: &[usize]) -> bool
    requires { (y * g.l + g.l ≤ length g.bits.now) × (Under g.l v.now) }
    ensures { result ≡ list_any (bit g.entry.l g.entry.bits.now y) v.now }
{
    v.iter().any(|&q| g.has(y, q))
}

// Whether row y came down to two ones when column c left V, the columns cs after it; fig has the ones that each row has left.
#[tactic(auto, using(crate::specs::Marking::spared_is), unfolding(crate::specs::Marking::is_noted))]
fn is_noted(g: Grid<'_>, fig: &[usize], c: usize, cs: &[usize], y: usize) -> bool
    requires { (y * g.l + g.l ≤ length g.bits.now) × (Under g.l cs.now) × (c < g.l) × (y < length fig.now) }
    ensures { result ≡ is_noted (bit g.entry.l g.entry.bits.now) fig.now c cs.now y }
{
    figures::ones_of(fig, y) == 2 && g.has(y, c) && !touches(g, y, cs)
}

impl<'a> Labels<'a> {
    // The pair p, q, whose columns have labels, is added: all columns with one of them take the joint label.
    fn merge(&mut self, p: usize, q: usize)
        requires { (p < length self.old.of.now) × (q < length self.old.of.now) × (self.old.next + 1 < 2 ^ 64) × (0 < labs self.old.of.now p) × (0 < labs self.old.of.now q) }
        ensures same_room { self.new.of.ghost_name ≡ self.old.of.ghost_name }
        ensures kept { length self.new.of.now ≡ length self.old.of.now }
        ensures next { self.new.next ≡ next_label (labs self.old.of.now p) (labs self.old.of.now q) self.old.next }
        ensures each { (c : ℕ) → labs self.new.of.now c ≡ relabel (labs self.old.of.now) self.old.next p q c }
    {
        let a = self.of[p];
        let b = self.of[q];
        let j = join(a, b, self.next);
        for x in self.of.iter_mut() {
            *x = renamed(*x, a, b, j);
        }
        self.next = following(a, b, self.next);
    }

    // The pair p, q is added: its columns, and all with one of their labels, take the joint label. Where they do not bring two labels together, no other
    // column gets another label.
    fn add_pair(&mut self, p: usize, q: usize)
        requires { (p < length self.old.of.now) × (q < length self.old.of.now) × (self.old.next + 1 < 2 ^ 64) }
        ensures same_room { self.new.of.ghost_name ≡ self.old.of.ghost_name }
        ensures kept { length self.new.of.now ≡ length self.old.of.now }
        ensures next { self.new.next ≡ next_label (labs self.old.of.now p) (labs self.old.of.now q) self.old.next }
        ensures each { (c : ℕ) → labs self.new.of.now c ≡ relabel (labs self.old.of.now) self.old.next p q c }
    {
        let a = self.of[p];
        let b = self.of[q];
        if differ(a, b) {
            return self.merge(p, q);
        }
        let j = join(a, b, self.next);
        self.of[p] = j;
        self.of[q] = j;
        self.next = following(a, b, self.next);
    }

    // Row y, with two ones in v, is joined.
    pub fn add_row(&mut self, g: Grid<'_>, y: usize, v: &[usize])
        requires { (y * g.l + g.l ≤ length g.bits.now) × (Under g.l v.now) × (count (bit g.l g.bits.now) v.now y ≡ 2) × (Ready self.old.of.now self.old.next) × (g.l ≤ length self.old.of.now) }
        ensures same_room { self.new.of.ghost_name ≡ self.old.of.ghost_name }
        ensures marked { Marked (add_pair (marks_of self.old.of.now self.old.next) (ones_in (bit g.entry.l g.entry.bits.now) v.now y)) self.old.of.now self.old.next self.new.of.now self.new.next }
    {
        let a = next_one(g, y, v, 0).unwrap();
        let b = next_one(g, y, v, a + 1).unwrap();
        self.add_pair(v[a], v[b]);
    }

    // The rows of ys that column c brought down to two ones, the columns cs after it, are joined.
    pub fn note_col(
        &mut self,
        g: Grid<'_>,
        c: usize,
        cs: &[usize],
        ys: &[usize],
        v: &[usize],
        fig: &[usize],
    )
        requires { (Rows g.l (length g.bits.now) ys.now) × (Under (length fig.now) ys.now) × (c < g.l) × (Under g.l cs.now) × (Under g.l v.now) × (Right (bit g.l g.bits.now) v.now ys.now fig.now) × (Ready self.old.of.now self.old.next) × (g.l ≤ length self.old.of.now) }
        ensures same_room { self.new.of.ghost_name ≡ self.old.of.ghost_name }
        ensures marked { Marked (add_pairs (bit g.entry.l g.entry.bits.now) v.now (marks_of self.old.of.now self.old.next) (filter (is_noted (bit g.entry.l g.entry.bits.now) fig.now c cs.now) ys.now)) self.old.of.now self.old.next self.new.of.now self.new.next }
    {
        for &y in ys {
            if is_noted(g, fig, c, cs, y) {
                self.add_row(g, y, v);
            }
        }
    }

    // The same for each of the columns cs, one after another.
    pub fn note_cols(&mut self, g: Grid<'_>, cs: &[usize], ys: &[usize], v: &[usize], fig: &[usize])
        requires { (Rows g.l (length g.bits.now) ys.now) × (Under (length fig.now) ys.now) × (Under g.l cs.now) × (Under g.l v.now) × (Right (bit g.l g.bits.now) v.now ys.now fig.now) × (Ready self.old.of.now self.old.next) × (g.l ≤ length self.old.of.now) }
        ensures same_room { self.new.of.ghost_name ≡ self.old.of.ghost_name }
        ensures marked { Marked (add_pairs (bit g.entry.l g.entry.bits.now) v.now (marks_of self.old.of.now self.old.next) (noted_by (bit g.entry.l g.entry.bits.now) fig.now cs.now ys.now)) self.old.of.now self.old.next self.new.of.now self.new.next }
    {
        for (k, &c) in cs.iter().enumerate() {
            self.note_col(g, c, &cs[k + 1..], ys, v, fig);
        }
    }
}
