// What is lent to a call, and what is seen of it.
use solver::{Answer, Rooms};

// The numbers of a call, and how many entries of each slice are lent to it.
// `octet` stands beside its count: a call with octet rows may be lent too few octets, or none, and the buffer is cut by the count.
#[derive(Clone, Copy)]
pub struct Lent {
    pub k: usize,
    pub m: usize,
    pub t: usize,
    pub octet: bool,
    pub bits: usize,
    pub octets: usize,
    pub slab: usize,
    pub list: usize,
    pub order: usize,
    pub vector: usize,
    pub rooms: Rooms,
}

// An answer, and whether the working slices are as before the call, and whether they are all zeros.
#[derive(Clone, Copy)]
pub struct Outcome {
    pub answer: Answer,
    pub untouched: bool,
    pub cleared: bool,
}

// Octet rows and slab of a case, and what its first call answered and left: solved slab, list, order and vector.
#[derive(Clone, Copy)]
pub struct First<'a> {
    pub octets: &'a [u8],
    pub slab: &'a [u8],
    pub outcome: Outcome,
    pub solved: &'a [u8],
    pub list: &'a [u64],
    pub order: &'a [usize],
    pub vector: &'a [u8],
}

// An answer, and what is true of all buffers after it: none changed; the slab did not and the others are zeros; they are as after the first call.
#[derive(Clone, Copy)]
pub struct Seen {
    pub answer: Answer,
    pub unchanged: bool,
    pub emptied: bool,
    pub same: bool,
}

// The length of a case's list, and how many calls of the search for it were right.
#[derive(Clone, Copy)]
pub struct Halved {
    pub length: usize,
    pub right: usize,
}

// What is said of a case.
#[derive(Clone, Copy)]
pub struct Compared {
    pub answer: usize,
    pub length: usize,
    pub clean: bool,
    pub halving: usize,
    pub full: bool,
    pub short: usize,
    pub damaged: usize,
    pub twos: usize,
}
