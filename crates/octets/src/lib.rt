// Rows of octets: add, scale, and add a multiple.
#![tactic(auto)]

ghost use Rattle.std.specs.Prelude.{◌≡◌, length, ◌+◌, ◌-◌, ◌/◌, ◌%◌, ◌≤◌, ◌<◌};
ghost use Rattle.octet.specs.Octet.{times, mul};
ghost use Rattle.octets.specs.Rows.{Added, Scaled, Fused};
ghost use Rattle.octets.specs.Spans.{Span, Last, fma_at, from_end};

use octet::Octet;

pub mod multiples;

// The octets of a block: the width of a vector.
const LANES: usize = 16;

// Twice x.
#[tactic(auto, using(crate::proofs::Doubling::doubled), unfolding(octet::specs::Octet::add))]
fn twice(x: u8) -> u8
    ensures { result ≡ mul 2 x }
{
    ((x % 128) * 2) ^ (x / 128 * 29)
}

// m where the power of 2 p is among the binary digits of x, else zero.
#[tactic(auto, unfolding(octet::specs::Octet::times))]
fn digit(x: u8, p: u8, m: u8) -> u8
    requires { 0 < p }
    ensures { result ≡ times (x / p % 2) m }
{
    if x / p % 2 == 1 { m } else { 0 }
}

// k x: no table and no branch on x, so that a loop of it becomes vector code.
fn product(x: u8, k: u8) -> u8
    ensures { result ≡ mul k x }
{
    let k1 = twice(k);
    let k2 = twice(k1);
    let k3 = twice(k2);
    let k4 = twice(k3);
    let k5 = twice(k4);
    let k6 = twice(k5);
    let k7 = twice(k6);
    digit(x, 1, k)
        ^ digit(x, 2, k1)
        ^ digit(x, 4, k2)
        ^ digit(x, 8, k3)
        ^ digit(x, 16, k4)
        ^ digit(x, 32, k5)
        ^ digit(x, 64, k6)
        ^ digit(x, 128, k7)
}

// Adds src to dest, which is as long.
pub fn add(dest: &mut [u8], src: &[u8])
    requires { length dest.old ≡ length src.now }
    ensures { Added dest.old src.now dest.new }
{
    // By place, here and below: of a `zip` with `iter_mut` a proof knows only the length.
    for (i, d) in dest.iter_mut().enumerate() {
        *d ^= src[i];
    }
}

// Multiplies dest by scalar.
pub fn scale(dest: &mut [u8], scalar: Octet)
    ensures { Scaled dest.old scalar.value dest.new }
{
    let k = scalar.value;
    for d in dest.iter_mut() {
        *d = product(*d, k);
    }
}

// Adds k src to dest, octet by octet.
fn fma_short(dest: &mut [u8], src: &[u8], k: u8)
    requires { length dest.old ≡ length src.now }
    ensures { Fused dest.old src.now k dest.new }
{
    for (i, d) in dest.iter_mut().enumerate() {
        *d ^= product(src[i], k);
    }
}

// What the last sixteen octets of dest are to be once k src is added.
fn fma_last(dest: &[u8], src: &[u8], k: u8) -> [u8; LANES]
    requires { (16 ≤ length dest.now) × (length dest.now ≡ length src.now) }
    ensures { Last (fma_at dest.now src.now k) dest.now result }
{
    let at = dest.len() - LANES;
    let mut last = [0u8; LANES];
    for (j, x) in last.iter_mut().enumerate() {
        *x = dest[at + j] ^ product(src[at + j], k);
    }
    last
}

// Adds k src to dest in the sixteen places from at on.
fn fma_block(dest: &mut [u8], src: &[u8], at: usize, k: u8)
    requires { (at + 16 ≤ length dest.old) × (length dest.old ≡ length src.now) }
    ensures { Span (fma_at dest.old src.now k) dest.old at (at + 16) dest.new }
{
    for i in at..at + LANES {
        dest[i] ^= product(src[i], k);
    }
}

// Puts p in the last sixteen places of dest.
fn store_last(dest: &mut [u8], p: &[u8; LANES])
    requires { 16 ≤ length dest.old }
    ensures { Span (from_end dest.old p.now) dest.old (length dest.old - 16) (length dest.old) dest.new }
{
    let at = dest.len() - LANES;
    dest[at..].copy_from_slice(p);
}

// Adds k src to dest in blocks. The last block may overlap the one before it, so it is worked out
// before any octet changes.
fn fma_long(dest: &mut [u8], src: &[u8], k: u8)
    requires { (16 ≤ length dest.old) × (length dest.old ≡ length src.now) }
    ensures { Fused dest.old src.now k dest.new }
{
    let last = fma_last(dest, src, k);
    let mut i = 0;
    while i + LANES < dest.len() {
        fma_block(dest, src, i, k);
        i += LANES;
    }
    store_last(dest, &last);
}

// Adds scalar times src to dest, which is as long.
pub fn fma(dest: &mut [u8], src: &[u8], scalar: Octet)
    requires { length dest.old ≡ length src.now }
    ensures { Fused dest.old src.now scalar.value dest.new }
{
    let k = scalar.value;
    if dest.len() <= LANES {
        fma_short(dest, src, k);
    } else {
        fma_long(dest, src, k);
    }
}
