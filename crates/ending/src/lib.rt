// What follows phase one: phase two; phases three to five and the order; or the vector.
#![tactic(auto)]

ghost use Rattle.std.specs.Prelude.{◌≡◌, length};
ghost use Rattle.call.specs.Call.{told};
ghost use Rattle.ending.specs.Ran.{as_shape, Posed, Ran, Placed, Going};
ghost use Rattle.ending.specs.After.{First, Reached};
ghost use Rattle.ending.specs.Ends.{counts_of, Ending};

use answers::{Answer, Counts, Refusal, Report};
use grid::{Grid, Shape};
use second::Singular;
use tally::{Journal, Tally};

// What a phase counted, as it is reported.
fn counts_of(t: Tally) -> Counts
    ensures { result ≡ counts_of t.adds t.muls }
{
    Counts {
        adds: t.adds,
        muls: t.muls,
    }
}

// Phases three to five after a phase two that went through, and the order; `octets` only says of what system.
fn finish(
    z: Shape,
    i: usize,
    bits: &[u8],
    octets: &[u8],
    columns: &[usize],
    rows: &[usize],
    marks: &mut [usize],
    journal: &mut Journal<'_>,
    order: &mut [usize],
    one: Tally,
) -> Answer
    requires posed { Posed z bits.now octets.now }
    requires reached { Reached z bits.now octets.now i columns.now rows.now journal.old.room.now one journal.old.tally }
    requires placed { Placed z columns.now rows.now marks.old order.old }
    ensures same_room { journal.new.room.ghost_name ≡ journal.old.room.ghost_name }
    ensures long { length journal.new.room.now ≡ length journal.old.room.now }
    ensures ending { Ending (told (as_shape z) bits.now octets.now (length journal.old.room.now)) result journal.new.room.now order.old order.new }
{
    let l = z.l;
    let n = one.used;
    let two = journal.tally;
    rest::mark(marks, &rows[0..i]);
    rest::phase_three(journal, marks, n);
    let three = journal.tally;
    rest::phase_four(Grid { bits, l }, i, columns, rows, journal);
    let four = journal.tally;
    rest::phase_five(journal, marks, n);
    let five = journal.tally;
    let used = five.used;
    if journal.room.len() < used {
        return Err(Refusal::ListFull);
    }
    rest::order_of(order, columns, rows);
    Ok(Report {
        operations: used,
        one: counts_of(one),
        two: counts_of(two),
        three: counts_of(three),
        four: counts_of(four),
        five: counts_of(five),
    })
}

// Phase two and what follows it, after a phase one of i steps that emptied V.
pub fn go_on(
    z: Shape,
    i: usize,
    bits: &[u8],
    octets: &[u8],
    columns: &[usize],
    rows: &mut [usize],
    work: &mut [u8],
    scratch: &mut [u8],
    marks: &mut [usize],
    journal: &mut Journal<'_>,
    order: &mut [usize],
    vector: &mut [u8],
) -> Answer
    requires posed { Posed z bits.now octets.now }
    requires first { First z bits.now octets.now i columns.now rows.old journal.old.room.now journal.old.tally }
    requires going { Going z columns.now rows.old work.old scratch.old marks.old journal.old.room.now order.old vector.old journal.old.tally }
    ensures same_room { journal.new.room.ghost_name ≡ journal.old.room.ghost_name }
    ensures long { length journal.new.room.now ≡ length journal.old.room.now }
    ensures ran { Ran (told (as_shape z) bits.now octets.now (length journal.old.room.now)) result journal.new.room.now order.old vector.old order.new vector.new }
{
    let one = journal.tally;
    match second::phase_two(bits, octets, z, i, columns, rows, work, scratch, journal) {
        Ok(()) => finish(
            z, i, bits, octets, columns, rows, marks, journal, order, one,
        ),
        Err(Singular { place: q }) => {
            let used = journal.tally.used;
            if journal.room.len() < used {
                return Err(Refusal::ListFull);
            }
            rest::vector_of(work, z.l, columns, rows, i, q, vector);
            Err(Refusal::Singular)
        }
    }
}
