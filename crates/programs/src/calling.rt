// The call over working rooms for any system within the bounds.
ghost use Rattle.std.specs.Prelude.{◌≡◌, option_map};
ghost use Rattle.call.specs.Call.{rows_of};
ghost use Rattle.programs.specs.Calls.{given as rowsGiven, Calls, Solves};

use solver::{Answer, Workspace};
use systems::System;

// The octet rows of a case, or none.
pub fn octet_rows(given: bool, octets: &[u8]) -> Option<&[u8]>
    ensures { option_map (λ x. x.now) result ≡ rowsGiven given octets.now }
{
    given.then_some(octets)
}

// The call, over working rooms of its own.
fn call(
    s: System,
    bits: &[u8],
    octets: &[u8],
    slab: &mut [u8],
    list: &mut [u64],
    order: &mut [usize],
    vector: &mut [u8],
) -> Answer
    ensures { Calls s.k s.m s.t bits.now (rows_of (rowsGiven s.octet octets.now)) slab.old list.old order.old vector.old result slab.new list.new order.new vector.new }
{
    let mut work = [0u8; crate::WORK_ROOM];
    let mut scratch = [0u8; crate::LINE_ROOM];
    let mut columns = [0usize; crate::LINE_ROOM];
    let mut rows = [0usize; crate::LINE_ROOM];
    let mut ones = [0usize; crate::LINE_ROOM];
    let mut degrees = [0usize; crate::LINE_ROOM];
    let mut singles = [0usize; crate::LINE_ROOM];
    let mut labels = [0usize; crate::LINE_ROOM];
    let mut sizes = [0usize; crate::SIZES_ROOM];
    let mut w = Workspace {
        work: &mut work,
        scratch: &mut scratch,
        columns: &mut columns,
        rows: &mut rows,
        ones: &mut ones,
        degrees: &mut degrees,
        singles: &mut singles,
        labels: &mut labels,
        sizes: &mut sizes,
    };
    solver::solve(
        s.k,
        s.m,
        s.t,
        bits,
        octet_rows(s.octet, octets),
        slab,
        list,
        order,
        vector,
        &mut w,
    )
}

// Solves the case whose inputs are at the front of the buffers.
pub fn solve_case(
    s: System,
    bits: &[u8],
    octets: &[u8],
    slab: &mut [u8],
    list: &mut [u64],
    order: &mut [usize],
    vector: &mut [u8],
) -> Answer
    ensures { Solves s bits.now octets.now slab.old list.old order.old vector.old result slab.new list.new order.new vector.new }
{
    let b = s.bits.min(bits.len());
    let o = s.octets.min(octets.len());
    let n = s.slab.min(slab.len());
    call(
        s,
        &bits[..b],
        &octets[..o],
        &mut slab[..n],
        list,
        order,
        vector,
    )
}
