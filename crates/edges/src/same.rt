// Whether slices and answers are as they are to be.
ghost use Rattle.std.specs.Prelude.{◌≡◌};
ghost use Rattle.answers.specs.Answers.{number_of};

use crate::told::First;
use solver::{Answer, Refusal};

// Whether every entry is this one.
pub(crate) fn all_are<T: PartialEq + Copy>(s: &[T], x: T) -> bool {
    s.iter().all(|y| *y == x)
}

// Whether every entry of list, order and vector is this number.
pub(crate) fn outputs_are(list: &[u64], order: &[usize], vector: &[u8], x: u8) -> bool {
    all_are(list, u64::from(x)) && all_are(order, usize::from(x)) && all_are(vector, x)
}

// Whether the buffers begin those of the first call.
pub(crate) fn outputs_begin(
    first: First,
    now: &[u8],
    now_list: &[u64],
    now_order: &[usize],
    now_vector: &[u8],
) -> bool {
    first.solved.starts_with(now)
        && first.list.starts_with(now_list)
        && first.order.starts_with(now_order)
        && first.vector.starts_with(now_vector)
}

// The number of a refusal, as the solver is to answer it.
fn number_of_refusal(refusal: Refusal) -> usize
    ensures { result ≡ number_of (Err refusal) }
{
    match refusal {
        Refusal::BadCount => 1,
        Refusal::BadShape => 2,
        Refusal::BadEntry => 3,
        Refusal::NoRoom => 4,
        Refusal::ListFull => 5,
        Refusal::NoPivot => 6,
        Refusal::Singular => 7,
    }
}

// Whether an answer is this refusal, and has its number.
pub(crate) fn is_refusal(a: Answer, refusal: Refusal) -> bool {
    a == Err(refusal) && solver::number(a) == number_of_refusal(refusal)
}
