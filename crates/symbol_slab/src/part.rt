// A part of each row of a slab, which is worked on at a time, and a room for multiples of one.
ghost use Rattle.std.specs.Prelude.{◌≡◌, ◌+◌, ◌*◌, ◌^◌, ◌≤◌, ◌<◌};

use octets::multiples::{BLOCK, ROOM};

// The n bytes from at on of each row of t bytes; a block of the room takes them.
#[derive(Clone, Copy)]
pub struct Part {
    pub t: usize,
    pub at: usize,
    pub n: usize,
    ghost some: { 0 < n },
    ghost few: { n ≤ 1280 },
    ghost within: { at + n ≤ t },
}

impl Part {
    // The part of rows of t bytes that begins at a place.
    pub fn new(t: usize, at: usize) -> Part
        requires { at < t }
        ensures rows { result.t ≡ t }
        ensures place { result.at ≡ at }
    {
        let n = BLOCK.min(t - at);
        Part { t, at, n }
    }

    // Where the part of a row begins.
    pub fn start(self, row: usize) -> usize
        requires { row * self.t + self.t < 2 ^ 64 }
        ensures { result ≡ row * self.t + self.at }
    {
        row * self.t + self.at
    }
}

// A room for the multiples of a row, and where the bytes stand whose multiples it holds; at the slab's end, if it holds none.
#[derive(Drop)]
pub struct Room {
    pub bytes: [u8; ROOM],
    // No Option: the laws of the room speak of a number, past which no bytes stand.
    pub held: usize,
}
