// Multiples of a row, worked out once for all who add a multiple of it. A scalar is four digits of base 4; the room has a block for each digit c of each
// place j, from j * 5120 + c * 1280 on, which holds c 4^j times the row. A multiple of the row is then the sum of four blocks.
ghost use Rattle.std.specs.Prelude.{◌≡◌, length, ◌+◌, ◌≤◌, ◌<◌};
ghost use Rattle.octet.specs.Octet.{mul};
ghost use Rattle.octets.specs.Spans.{Span};
ghost use Rattle.octets.specs.Multiples.{Blank, Multiples, entry, filled_at, digits_at};

use octet::Octet;

// The bytes of a block, of a place's four, and of all sixteen.
pub const BLOCK: usize = 1280;

const PLACE: usize = 4 * BLOCK;

pub const ROOM: usize = 4 * PLACE;

// Puts x, 2 x and 3 x in their blocks, the block of the digit 0 being from at on; the answer is 4 x.
fn put_digits(room: &mut [u8; ROOM], at: usize, x: u8) -> u8
    requires { at + 3840 < 20480 }
    ensures { (room.new ≡ filled_at at x room.old) × (result ≡ mul 4 x) }
{
    let y = crate::twice(x);
    room[at + BLOCK] = x;
    room[at + 2 * BLOCK] = y;
    room[at + 3 * BLOCK] = x ^ y;
    crate::twice(y)
}

// Fills the room with the multiples of src; the blocks of the digit 0 stay zeros.
pub fn fill(room: &mut [u8; ROOM], src: &[u8])
    requires { (length src.now ≤ 1280) × Blank room.old }
    ensures { Multiples (length src.now) (entry src.now 0) room.new × Blank room.new }
{
    for (i, s) in src.iter().enumerate() {
        let x = put_digits(room, i, *s);
        let y = put_digits(room, PLACE + i, x);
        let z = put_digits(room, 2 * PLACE + i, y);
        put_digits(room, 3 * PLACE + i, z);
    }
}

// Adds to dest the four blocks of the scalar's digits: scalar times the row whose multiples the room holds.
pub fn gather(dest: &mut [u8], room: &[u8; ROOM], scalar: Octet)
    requires { length dest.old ≤ 1280 }
    ensures { Span (digits_at dest.old room.now scalar.value) dest.old 0 (length dest.old) dest.new }
{
    let k = usize::from(scalar.value);
    let a = k % 4 * BLOCK;
    let b = PLACE + k / 4 % 4 * BLOCK;
    let c = 2 * PLACE + k / 16 % 4 * BLOCK;
    let d = 3 * PLACE + k / 64 % 4 * BLOCK;
    for (i, x) in dest.iter_mut().enumerate() {
        *x = *x ^ room[a + i] ^ room[b + i] ^ room[c + i] ^ room[d + i];
    }
}
