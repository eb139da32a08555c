// The shape of a system.

// m rows of l columns, of which h from row s on are octet rows, and w columns that phase one starts from.
#[derive(Debug, Clone, Copy, PartialEq, Eq)]
pub struct Shape {
    pub m: usize,
    pub l: usize,
    pub s: usize,
    pub h: usize,
    pub w: usize,
}
