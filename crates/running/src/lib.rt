// The defined run over lent rooms: its answer, list, order and vector, and the working slices cleared after it.
#![tactic(auto)]

ghost use Rattle.std.specs.Prelude.{length};
ghost use Rattle.call.specs.Call.{working, told};
ghost use Rattle.call.specs.Space.{working_of, Kept, Long};
ghost use Rattle.ending.specs.Ran.{as_shape, Posed, Ran};
ghost use Rattle.running.specs.Lent.{Roomed, Cut, Worked};

use answers::{Answer, Refusal};
use call::Workspace;
use grid::Shape;
use tally::{Journal, Tally};

// The defined run, over working slices that are cut to their needs. They come one by one: a struct made of parts of a struct's slices gets no proof.
fn run(
    z: Shape,
    bits: &[u8],
    octets: &[u8],
    list: &mut [u64],
    order: &mut [usize],
    vector: &mut [u8],
    work: &mut [u8],
    scratch: &mut [u8],
    columns: &mut [usize],
    rows: &mut [usize],
    ones: &mut [usize],
    degrees: &mut [usize],
    singles: &mut [usize],
    labels: &mut [usize],
    sizes: &mut [usize],
) -> Answer
    requires posed { Posed z bits.now octets.now }
    requires cut { Cut z order.old vector.old (working work.old scratch.old columns.old rows.old ones.old degrees.old singles.old labels.old sizes.old) }
    ensures { Ran (told (as_shape z) bits.now octets.now (length list.old)) result list.new order.old vector.old order.new vector.new }
{
    call::clear::numbers(order);
    call::clear::bytes(vector);
    let tally = Tally {
        used: 0,
        adds: 0,
        muls: 0,
    };
    let mut journal = Journal { room: list, tally };
    match firstphase::phase_one(
        bits,
        octets,
        z,
        columns,
        rows,
        ones,
        degrees,
        singles,
        labels,
        sizes,
        &mut journal,
    ) {
        Err(_) => {
            // At each end, since a full list comes before what the phase would answer; so in `ending`.
            let used = journal.tally.used;
            if journal.room.len() < used {
                return Err(Refusal::ListFull);
            }
            Err(Refusal::NoPivot)
        }
        Ok(done) => {
            let used = journal.tally.used;
            if journal.room.len() < used {
                return Err(Refusal::ListFull);
            }
            ending::go_on(
                z,
                done.steps,
                bits,
                octets,
                columns,
                rows,
                work,
                scratch,
                singles,
                &mut journal,
                order,
                vector,
            )
        }
    }
}

// The run, over working slices that may be longer than their needs.
fn run_within(
    z: Shape,
    bits: &[u8],
    octets: &[u8],
    list: &mut [u64],
    order: &mut [usize],
    vector: &mut [u8],
    w: &mut Workspace<'_>,
) -> Answer
    requires posed { Posed z bits.now octets.now }
    requires roomed { Roomed z order.old vector.old (working_of w.old) }
    ensures kept { Kept w.old w.new }
    ensures long { Long w.old w.new }
    ensures ran { Ran (told (as_shape z) bits.now octets.now (length list.old)) result list.new order.old vector.old order.new vector.new }
{
    let m = z.m;
    let l = z.l;
    let e = m * l;
    let k = 2 * l + 2;
    let work = &mut *w.work;
    let scratch = &mut *w.scratch;
    let columns = &mut *w.columns;
    let rows = &mut *w.rows;
    let ones = &mut *w.ones;
    let degrees = &mut *w.degrees;
    let singles = &mut *w.singles;
    let labels = &mut *w.labels;
    let sizes = &mut *w.sizes;
    run(
        z,
        bits,
        octets,
        list,
        order,
        vector,
        &mut work[0..e],
        &mut scratch[0..l],
        &mut columns[0..l],
        &mut rows[0..m],
        &mut ones[0..m],
        &mut degrees[0..m],
        &mut singles[0..m],
        &mut labels[0..l],
        &mut sizes[0..k],
    )
}

// The run, with the working slices cleared after it.
pub fn work_out(
    z: Shape,
    bits: &[u8],
    octets: &[u8],
    list: &mut [u64],
    order: &mut [usize],
    vector: &mut [u8],
    w: &mut Workspace<'_>,
) -> Answer
    requires posed { Posed z bits.now octets.now }
    requires roomed { Roomed z order.old vector.old (working_of w.old) }
    ensures kept { Kept w.old w.new }
    ensures worked { Worked (told (as_shape z) bits.now octets.now (length list.old)) result list.new order.old vector.old order.new vector.new (working_of w.old) (working_of w.new) }
{
    let a = run_within(z, bits, octets, list, order, vector, w);
    call::clear::slices(w);
    a
}
