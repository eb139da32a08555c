// The tests on a call whose count is in the table.
ghost use Rattle.std.specs.Prelude.{◌≡◌, ◌+◌, ◌*◌, ◌≤◌, length};
ghost use Rattle.bounds.specs.Bounds.{most_rows};
ghost use Rattle.call.specs.Call.{shaped, bitwise, entered, roomy_in};

use crate::Lengths;
use answers::Rooms;

// Whether m, t, the list room and the lengths of the inputs fit a system of l columns and h octet rows.
#[tactic(auto, unfolding(crate::specs::Call::shaped))]
pub fn is_shaped(l: usize, h: usize, m: usize, t: usize, bits: usize, n: Lengths) -> bool
    requires { (l ≤ most_rows) × (h ≤ most_rows) }
    ensures { result ≡ shaped l h m t n.list bits n.octets n.slab }
{
    l <= m
        && m <= bounds::MOST_ROWS
        && 1 <= t
        && t <= bounds::MOST_BYTES
        && n.list <= bounds::MOST_OPS
        && bits == m * l
        && n.octets == h * l
        && n.slab == m * t
}

// Whether every entry is 0 or 1. It goes on after one that is not, so that the loop becomes vector code:
// `all` takes 13 times as long.
#[tactic(auto, using(crate::specs::Tests::sofar_next, crate::specs::Tests::sofar_bad))]
fn is_binary(bits: &[u8]) -> bool
    ensures { result ≡ bitwise bits.now }
{
    let mut fine = true;
    for bit in bits {
        if 1 < *bit {
            fine = false;
        }
    }
    fine
}

// Whether every entry of the m rows outside the octet rows is 0 or 1.
pub fn is_entered(bits: &[u8], m: usize, l: usize, s: usize, h: usize) -> bool
    requires { (length bits.now ≡ m * l) × (s + h ≤ m) × (m ≤ most_rows) × (l ≤ most_rows) }
    ensures { result ≡ entered l s h bits.now }
{
    is_binary(&bits[..s * l]) && is_binary(&bits[(s + h) * l..])
}

// Whether order, vector and the working slices hold their needs.
#[tactic(auto, unfolding(crate::specs::Call::roomy))]
pub fn has_room(r: Rooms, n: Lengths) -> bool
    ensures { result ≡ roomy_in r n }
{
    r.order <= n.order
        && r.vector <= n.vector
        && r.work <= n.work
        && r.scratch <= n.scratch
        && r.columns <= n.columns
        && r.rows <= n.rows
        && r.ones <= n.ones
        && r.degrees <= n.degrees
        && r.singles <= n.singles
        && r.labels <= n.labels
        && r.sizes <= n.sizes
}
