// Buffers that end in zeros.
ghost use Rattle.std.specs.Prelude.{◌≡◌, ◌≤◌, length};
ghost use Rattle.call.specs.Over.{blank, keep};
ghost use Rattle.call.specs.Call.{wiped};
ghost use Rattle.call.specs.Space.{working_of, Kept};

use crate::Workspace;

// `fill`, told in the words of the specs: a function for each type, of a line, where one for all would need a trait for their zero.

// All bytes become zeros.
pub fn bytes(s: &mut [u8])
    ensures { s.new ≡ blank s.old }
{
    s.fill(0);
}

// All numbers become zeros.
pub fn numbers(s: &mut [usize])
    ensures { s.new ≡ blank s.old }
{
    s.fill(0);
}

// Zeros from place n on.
pub fn words(s: &mut [u64], n: usize)
    requires { n ≤ length s.old }
    ensures { s.new ≡ keep n s.old }
{
    s[n..].fill(0);
}

// The working slices of a call.
pub fn slices(w: &mut Workspace<'_>)
    ensures kept { Kept w.old w.new }
    ensures wiped { working_of w.new ≡ wiped (working_of w.old) }
{
    bytes(w.work);
    bytes(w.scratch);
    numbers(w.columns);
    numbers(w.rows);
    numbers(w.ones);
    numbers(w.degrees);
    numbers(w.singles);
    numbers(w.labels);
    numbers(w.sizes);
}
