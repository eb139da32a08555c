// Row operations on a flat slab, on a part of each row. Two rows of one slab are lent at once only by a split, one of two for their two orders: a row that
// gains another is worked on within the slab, and one that gains a multiple of another gets it from a room, which holds multiples of that row for a run of
// operations with the same row, or a copy of it for one alone.
ghost use Rattle.std.specs.Prelude.{◌≡◌, [], ◌∷◌, length, ◌+◌, ◌≤◌, ◌<◌};
ghost use Rattle.octets.specs.Spans.{Span};
ghost use Rattle.octets.specs.Multiples.{Blank, Multiples, entry};
ghost use Rattle.symbol_slab.specs.Placed.{TwoRows, Placed, add_at, fma_at, scale_at, Ready};
ghost use Rattle.symbol_slab.specs.Turns.{Applied};

use crate::part::{Part, Room};
use octet::Octet;
use octets::multiples::BLOCK;
use oplist::Op;

// The n bytes from dest on gain the n bytes from src on. The two do not overlap.
fn add_part(slab: &mut [u8], dest: usize, src: usize, n: usize)
    requires { TwoRows dest src n (length slab.old) }
    ensures { Span (add_at slab.old dest src) slab.old dest (dest + n) slab.new }
{
    for i in 0..n {
        slab[dest + i] ^= slab[src + i];
    }
}

// The n bytes from dest on are multiplied by k.
fn scale_part(slab: &mut [u8], dest: usize, n: usize, k: u8)
    requires { dest + n ≤ length slab.old }
    ensures { Span (scale_at slab.old k) slab.old dest (dest + n) slab.new }
{
    let end = dest + n;
    octets::scale(&mut slab[dest..end], Octet { value: k });
}

// The room gets the multiples of the n bytes from src on, unless it holds them.
#[tactic(auto, using(crate::specs::Placed::held_part, crate::proofs::Held::held_still))]
fn hold(slab: &[u8], room: &mut Room, src: usize, n: usize)
    requires { (src + n ≤ length slab.now) × (n ≤ 1280) × Ready n room.old.held slab.now room.old.bytes }
    ensures { Multiples n (entry slab.now src) room.new.bytes × Blank room.new.bytes × (room.new.held ≡ src) }
{
    if room.held != src {
        let end = src + n;
        octets::multiples::fill(&mut room.bytes, &slab[src..end]);
        room.held = src;
    }
}

// The n bytes from dest on gain k times the n bytes from src on, from their multiples. The two do not overlap.
fn fma_run(slab: &mut [u8], room: &mut Room, dest: usize, src: usize, n: usize, k: u8)
    requires { TwoRows dest src n (length slab.old) × (n ≤ 1280) × Ready n room.old.held slab.old room.old.bytes }
    ensures { Span (fma_at slab.old dest src k) slab.old dest (dest + n) slab.new × Ready n room.new.held slab.new room.new.bytes }
{
    hold(slab, room, src, n);
    let end = dest + n;
    octets::multiples::gather(&mut slab[dest..end], &room.bytes, Octet { value: k });
}

// The n bytes from dest on gain k times the n bytes from src on, from a copy of them in the second block of the room, which is none of the digit 0.
fn fma_once(slab: &mut [u8], room: &mut [u8], dest: usize, src: usize, n: usize, k: u8)
    requires { TwoRows dest src n (length slab.old) × (n ≤ 1280) × Blank room.old }
    ensures { Span (fma_at slab.old dest src k) slab.old dest (dest + n) slab.new × Blank room.new }
{
    let dest_end = dest + n;
    let src_end = src + n;
    let block_end = BLOCK + n;
    room[BLOCK..block_end].copy_from_slice(&slab[src..src_end]);
    octets::fma(
        &mut slab[dest..dest_end],
        &room[BLOCK..block_end],
        Octet { value: k },
    );
}

// The n bytes from dest on gain k times the n bytes from src on: from their multiples, if the room holds them or the next operation has the same source
// again, else from a copy. The two do not overlap.
fn fma_part(slab: &mut [u8], room: &mut Room, dest: usize, src: usize, n: usize, k: u8, again: bool)
    requires { TwoRows dest src n (length slab.old) × (0 < n) × (n ≤ 1280) × Ready n room.old.held slab.old room.old.bytes }
    ensures { Span (fma_at slab.old dest src k) slab.old dest (dest + n) slab.new × Ready n room.new.held slab.new room.new.bytes }
{
    if again || room.held == src {
        fma_run(slab, room, dest, src, n, k);
        return;
    }
    fma_once(slab, &mut room.bytes, dest, src, n, k);
    room.held = slab.len();
}

// The slab after one operation on a part of each row; again says whether the next one adds a multiple of the same row.
pub fn apply(slab: &mut [u8], room: &mut Room, part: Part, again: bool, op: Op)
    requires { Placed part.t op (length slab.old) × Ready part.n room.old.held slab.old room.old.bytes }
    ensures { Applied part.t part.at part.n (op ∷ []) slab.old slab.new room.new.bytes room.new.held }
{
    match op {
        Op::AddAssign(d, s) => {
            add_part(slab, part.start(d), part.start(s), part.n);
            room.held = slab.len();
        }
        Op::MulAssign(d, k) => {
            scale_part(slab, part.start(d), part.n, k);
            room.held = slab.len();
        }
        Op::FMA(d, s, k) => {
            fma_part(slab, room, part.start(d), part.start(s), part.n, k, again);
        }
    }
}
