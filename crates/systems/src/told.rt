// What a text says of its cases.

// What a case says, how many entries of each buffer it has filled, and whether the line of its slab is still to come.
// `octet` and `due` stand beside their counts: a case that has octet rows begins with none of them read, and callers cut the buffers by the counts.
#[derive(Clone, Copy, Debug, PartialEq, Eq)]
pub struct System {
    pub k: usize,
    pub octet: bool,
    pub m: usize,
    pub t: usize,
    pub l: usize,
    pub bits: usize,
    pub octets: usize,
    pub slab: usize,
    pub due: bool,
}

// Where the line of a case's name begins and ends, and where the text goes on.
#[derive(Clone, Copy, Debug, PartialEq, Eq)]
pub struct Place {
    pub from: usize,
    pub end: usize,
    pub next: usize,
}

// The first case from a place on; or its name and, as `next`, where the line begins that has no place in it; or no case.
// Three kinds, two of which have a place, so neither an `Option` nor a `Result`.
#[derive(Clone, Copy, Debug, PartialEq, Eq)]
pub enum Read {
    Case(System, Place),
    Malformed(Place),
    End,
}

// What a line that has a place in a case does to it.
// An `Option` in the `Option` that says whether a line has a place would not say what the line does.
#[derive(Clone, Copy, Debug, PartialEq, Eq)]
pub enum Turn {
    On(System),
    Go,
}
