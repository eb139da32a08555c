// One step of phase one over lent slices.
#![tactic(auto)]

ghost use Rattle.std.specs.Prelude.{◌≡◌, ◌∷◌, ℕ, ◌+◌, ◌-◌, ◌*◌, ◌≤◌, ◌<◌, length};
ghost use Rattle.loops.specs.Part.{part, put};
ghost use Rattle.loops.specs.Entry.{entry_at};
ghost use Rattle.rule.specs.Lists.{In};
ghost use Rattle.rule.specs.Permitted.{count};
ghost use Rattle.rule.specs.Rule.{without, arrange};
ghost use Rattle.grid.specs.Grid.{bit, Under};
ghost use Rattle.columns.specs.Sweep.{laid};
ghost use Rattle.std.proofs.Math.Option.{some};
ghost use Rattle.figures.specs.Told.{told};
ghost use Rattle.figures.specs.Picked.{row_of};
ghost use Rattle.phases.specs.One.{degree};
ghost use Rattle.stepping.specs.Due.{Due, Shrunk};
ghost use Rattle.stepping.specs.Stands.{Given, Standing, row_at};
ghost use Rattle.stepping.specs.Turns.{as_shape, Turned};

use grid::Grid;
pub use grid::Shape;
use labels::Labels;
use singles::Singles;

// Steps done, inactive columns.
#[derive(Clone, Copy)]
pub struct State {
    pub i: usize,
    pub u: usize,
}

// Row x, with r ones in V, comes to place i, and V's columns, at places i to e, are arranged for it; eligible rows stand at places i to top.
fn places(
    g: Grid<'_>,
    x: usize,
    r: usize,
    i: usize,
    e: usize,
    top: usize,
    c: &mut [usize],
    d: &mut [usize],
)
    requires { (i ≤ e) × (e ≤ length c.old) × (i ≤ top) × (top ≤ length d.old) × (In x (part i (top - i) d.old)) × (x * g.l + g.l ≤ length g.bits.now) × (0 < r) × (r ≡ count (bit g.l g.bits.now) (part i (e - i) c.old) x) × (Under g.l (part i (e - i) c.old)) }
    ensures { (d.new ≡ put i (top - i) d.old (x ∷ without x (part i (top - i) d.old))) × (c.new ≡ put i (e - i) c.old (laid (arrange (bit g.entry.l g.entry.bits.now) (part i (e - i) c.old) x))) × (Under g.entry.l (laid (arrange (bit g.entry.l g.entry.bits.now) (part i (e - i) c.old) x))) }
{
    columns::bring_row(&mut d[i..top], x);
    columns::arrange(&mut c[i..e], g, x, r);
}

// The figures after a step: v is V as it was arranged, of which the columns from place k on go; e begins with the chosen row x.
fn figures(
    g: Grid<'_>,
    x: usize,
    k: usize,
    v: &[usize],
    e: &[usize],
    ones: &mut [usize],
    singles: &mut Singles<'_>,
    labels: &mut Labels<'_>,
)
    requires { Due g.l g.bits.now x k v.now e.now ones.old singles.old.room.now singles.old.used labels.old.of.now labels.old.next }
    ensures same_room { singles.new.room.ghost_name ≡ singles.old.room.ghost_name }
    ensures same_labels { labels.new.of.ghost_name ≡ labels.old.of.ghost_name }
    ensures shrunk { Shrunk (bit g.entry.l g.entry.bits.now) x k v.now e.now ones.old singles.old.room.now singles.old.used labels.old.of.now labels.old.next ones.new singles.new.room.now singles.new.used labels.new.of.now labels.new.next }
{
    let pivot = v[0];
    let gone = &v[k..];
    let rest = &v[1..k];
    let ys = &e[1..];
    singles.next(g, x, ys, e, pivot, gone, ones);
    labels.note_col(g, pivot, gone, ys, rest, ones);
    labels.note_cols(g, gone, ys, rest, ones);
}

// One step: row x is chosen.
fn step(
    bits: &[u8],
    z: Shape,
    x: usize,
    c: &mut [usize],
    d: &mut [usize],
    ones: &mut [usize],
    singles: &mut Singles<'_>,
    labels: &mut Labels<'_>,
    st: State,
) -> State
    requires given { Given (as_shape z) bits.now }
    requires standing { Standing (as_shape z) bits.now c.old d.old ones.old singles.old.room.now labels.old.of.now st.i st.u singles.old.used labels.old.next }
    requires i_value { row_at (as_shape z) bits.now st.i ≡ some x }
    ensures same_room { singles.new.room.ghost_name ≡ singles.old.room.ghost_name }
    ensures same_labels { labels.new.of.ghost_name ≡ labels.old.of.ghost_name }
    ensures stepped { (result.i ≡ st.i + 1) × (Standing (as_shape z) bits.now c.new d.new ones.new singles.new.room.now labels.new.of.now result.i result.u singles.new.used labels.new.next) }
{
    let g = Grid { bits, l: z.l };
    let i = st.i;
    let e = z.l - st.u;
    let top = z.m - z.h;
    let r = figures::ones_of(ones, x);
    places(g, x, r, i, e, top, c, d);
    let k = e - i - (r - 1);
    figures(g, x, k, &c[i..e], &d[i..top], ones, singles, labels);
    State {
        i: i + 1,
        u: st.u + (r - 1),
    }
}

// The row of the next step, if one can be chosen.
fn chosen(
    bits: &[u8],
    z: Shape,
    c: &[usize],
    d: &[usize],
    ones: &[usize],
    deg: &[usize],
    singles: &Singles<'_>,
    labels: &Labels<'_>,
    sizes: &mut [usize],
    st: State,
) -> Option<usize>
    requires given { Given (as_shape z) bits.now }
    requires standing { Standing (as_shape z) bits.now c.now d.now ones.now singles.now.room.now labels.now.of.now st.i st.u singles.now.used labels.now.next }
    requires deg_len { (length deg.now ≡ z.m) × ((x : ℕ) → told deg.now x ≡ degree (entry_at z.l bits.now) (as_shape z) x) × (z.l + z.l + 1 ≤ length sizes.old) }
    ensures { row_of result ≡ row_at (as_shape z) bits.now st.i }
{
    let g = Grid { bits, l: z.l };
    let v = &c[st.i..z.l - st.u];
    let e = &d[st.i..z.m - z.h];
    let s = &singles.room[..singles.used];
    let r = figures::least_positive(e, ones);
    choice::choose(g, r, v, e, ones, deg, s, labels.of, labels.next, sizes)
}

// The next step, if a row can be chosen.
// The slices of phase one's state are lent one by one: each part of a step takes some of them, so that a struct would be taken apart in every function.
pub fn turn(
    bits: &[u8],
    z: Shape,
    c: &mut [usize],
    d: &mut [usize],
    ones: &mut [usize],
    deg: &[usize],
    singles: &mut Singles<'_>,
    labels: &mut Labels<'_>,
    sizes: &mut [usize],
    st: State,
) -> Option<State>
    requires given { Given (as_shape z) bits.now }
    requires standing { Standing (as_shape z) bits.now c.old d.old ones.old singles.old.room.now labels.old.of.now st.i st.u singles.old.used labels.old.next }
    requires deg_len { (length deg.now ≡ z.m) × ((x : ℕ) → told deg.now x ≡ degree (entry_at z.l bits.now) (as_shape z) x) × (z.l + z.l + 1 ≤ length sizes.old) }
    ensures same_room { singles.new.room.ghost_name ≡ singles.old.room.ghost_name }
    ensures same_labels { labels.new.of.ghost_name ≡ labels.old.of.ghost_name }
    ensures turned { Turned (as_shape z) bits.now st c.new d.new ones.new singles.new.room.now singles.new.used labels.new.of.now labels.new.next result }
{
    let x = chosen(bits, z, c, d, ones, deg, singles, labels, sizes, st)?;
    Some(step(bits, z, x, c, d, ones, singles, labels, st))
}
