// The lent binary matrix: an entry, and a row's ones; and zeros in a lent slice.
#![tactic(auto)]

mod shapes;

ghost use Rattle.std.specs.Prelude.{◌≡◌, ◌+◌, ◌*◌, ◌≤◌, ◌<◌, length};
ghost use Rattle.rule.specs.Permitted.{count as ones};
ghost use Rattle.grid.specs.Grid.{bit, Under, Figures};

pub use shapes::Shape;

// The matrix as it is lent: rows of l columns, one after another.
#[derive(Clone, Copy)]
pub struct Grid<'a> {
    pub bits: &'a [u8],
    pub l: usize,
}

impl<'a> Grid<'a> {
    // Whether row x has a one in column q.
    pub fn has(self, x: usize, q: usize) -> bool
        requires { (x * self.l + self.l ≤ length self.bits.now) × (q < self.l) }
        ensures { result ≡ bit self.entry.l self.entry.bits.now x q }
    {
        self.bits[x * self.l + q] == 1
    }

    // The ones of row x in the columns v. Each test is added as a number, since `filter` and `count` branch at each entry.
    pub fn count(self, x: usize, v: &[usize]) -> usize
        requires l_in_bounds { x * self.l + self.l ≤ length self.bits.now }
        requires under { Under self.l v.now }
        ensures { result ≡ ones (bit self.entry.l self.entry.bits.now) v.now x }
    {
        v.iter().map(|&q| usize::from(self.has(x, q))).sum()
    }
}

// Zeros, told as figures, which those who count in them cite.
pub fn clear(s: &mut [usize])
    ensures { Figures (λ _. 0) (length s.old) s.new }
{
    s.fill(0);
}
