// The solver: a system in; its operation list, its order and the solved slab out.
#![tactic(auto)]

ghost use Rattle.std.specs.Prelude.{◌≡◌, option_map};
ghost use Rattle.call.specs.Call.{rows_of, buffers, outcome};
ghost use Rattle.call.specs.Called.{Called};
ghost use Rattle.call.specs.Space.{working_of, Kept};
ghost use Rattle.solver.specs.Judge.{if_given, judged};

pub use answers::{Answer, Counts, Display, Refusal, Report, Rooms, needs, number, shown};
use call::Lengths;
pub use call::Workspace;
use grid::Shape;

// A number that counts only where octet rows are given.
#[tactic(auto, unfolding(crate::specs::Judge::if_given))]
fn if_given(given: bool, n: usize) -> usize
    ensures { result ≡ if_given given n }
{
    if given { n } else { 0 }
}

// The shape of a call that is taken, or why it is refused. The tests need no more of its buffers than their lengths.
fn judge(
    k: usize,
    m: usize,
    t: usize,
    bits: &[u8],
    given: bool,
    n: Lengths,
) -> Result<Shape, Refusal>
    ensures { result ≡ judged k m t bits.now given n }
{
    let g = params::params(k)?;
    let l = g.l;
    let s = g.s;
    let h = if_given(given, g.h);
    if !call::checks::is_shaped(l, h, m, t, bits.len(), n) {
        return Err(Refusal::BadShape);
    }
    if !call::checks::is_entered(bits, m, l, s, h) {
        return Err(Refusal::BadEntry);
    }
    if !call::checks::has_room(answers::rooms_for(m, l), n) {
        return Err(Refusal::NoRoom);
    }
    let w = g.w;
    Ok(Shape { m, l, s, h, w })
}

// Solves a system of m rows of t bytes for k source symbols: the binary matrix by rows, and the octet rows, which stand in rows S to S + H - 1
// where they are given; where they are not, every row is binary. Slab, list, order and vector are lent one by one, since a caller reads each after the call.
pub fn solve(
    k: usize,
    m: usize,
    t: usize,
    bits: &[u8],
    octets: Option<&[u8]>,
    slab: &mut [u8],
    list: &mut [u64],
    order: &mut [usize],
    vector: &mut [u8],
    w: &mut Workspace<'_>,
) -> Answer
    ensures kept { Kept w.old w.new }
    ensures called { Called k m t bits.now (rows_of (option_map (λ x. x.now) octets.entry)) (buffers slab.old list.old order.old vector.old (working_of w.old)) (outcome result (buffers slab.new list.new order.new vector.new (working_of w.new))) }
{
    let given = octets.is_some();
    let octets: &[u8] = octets.unwrap_or(&[]);
    let n = Lengths {
        octets: octets.len(),
        slab: slab.len(),
        list: list.len(),
        order: order.len(),
        vector: vector.len(),
        work: w.work.len(),
        scratch: w.scratch.len(),
        columns: w.columns.len(),
        rows: w.rows.len(),
        ones: w.ones.len(),
        degrees: w.degrees.len(),
        singles: w.singles.len(),
        labels: w.labels.len(),
        sizes: w.sizes.len(),
    };
    let z = judge(k, m, t, bits, given, n)?;
    tested::solve_tested(z, t, bits, octets, slab, list, order, vector, w)
}
