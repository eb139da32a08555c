// A call that passed its tests: its run, and the list applied to the slab.
#![tactic(auto)]

ghost use Rattle.std.specs.Prelude.{◌≡◌, length};
ghost use Rattle.call.specs.Call.{buffers, outcome, ended, told};
ghost use Rattle.call.specs.Space.{working_of, Kept};
ghost use Rattle.ending.specs.Ran.{as_shape, Posed, ops_in};
ghost use Rattle.running.specs.Lent.{Roomed};
ghost use Rattle.tested.specs.Parts.{Settling, Settled, Slabbed};

use answers::Answer;
use call::Workspace;
use grid::Shape;

// How many operations an answer reports.
fn operations(a: Answer) -> usize
    ensures { result ≡ ops_in a }
{
    match a {
        Ok(r) => r.operations,
        Err(_) => 0,
    }
}

// The list of an answer is applied to the slab, and the room after it cleared.
fn settle(a: Answer, m: usize, l: usize, t: usize, slab: &mut [u8], list: &mut [u64])
    requires { Settling m l t (ops_in a) list.old slab.old }
    ensures { Settled t (ops_in a) list.old slab.old list.new slab.new }
{
    let n = operations(a);
    let _ = symbol_slab::replay(m, l, t, &list[0..n], None, slab);
    call::clear::words(list, n);
}

// A call that passed the tests.
pub fn solve_tested(
    z: Shape,
    t: usize,
    bits: &[u8],
    octets: &[u8],
    slab: &mut [u8],
    list: &mut [u64],
    order: &mut [usize],
    vector: &mut [u8],
    w: &mut Workspace<'_>,
) -> Answer
    requires posed { Posed z bits.now octets.now }
    requires roomed { Roomed z order.old vector.old (working_of w.old) }
    requires slabbed { Slabbed z t list.old slab.old }
    ensures kept { Kept w.old w.new }
    ensures is { outcome result (buffers slab.new list.new order.new vector.new (working_of w.new)) ≡ ended t (buffers slab.old list.old order.old vector.old (working_of w.old)) (told (as_shape z) bits.now octets.now (length list.old)) }
{
    let a = running::work_out(z, bits, octets, list, order, vector, w);
    let m = z.m;
    let l = z.l;
    settle(a, m, l, t, slab, list);
    a
}
