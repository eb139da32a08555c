// What a call takes, answers and leaves: its definition, the tests on its input, cleared buffers.
#![tactic(auto)]

pub mod checks;
pub mod clear;

// The lengths of what is lent to a call, but for the binary matrix.
#[derive(Debug, Clone, Copy, PartialEq, Eq)]
pub struct Lengths {
    pub octets: usize,
    pub slab: usize,
    pub list: usize,
    pub order: usize,
    pub vector: usize,
    pub work: usize,
    pub scratch: usize,
    pub columns: usize,
    pub rows: usize,
    pub ones: usize,
    pub degrees: usize,
    pub singles: usize,
    pub labels: usize,
    pub sizes: usize,
}

// The working slices of a call.
#[derive(Drop)]
pub struct Workspace<'a> {
    pub work: &'a mut [u8],
    pub scratch: &'a mut [u8],
    pub columns: &'a mut [usize],
    pub rows: &'a mut [usize],
    pub ones: &'a mut [usize],
    pub degrees: &'a mut [usize],
    pub singles: &'a mut [usize],
    pub labels: &'a mut [usize],
    pub sizes: &'a mut [usize],
}
