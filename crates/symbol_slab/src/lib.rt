// A flat slab of symbols, row r being the t bytes from r * t on: a list of operations applied to it, and undone.
// A list is words of `oplist`. With an order, symbol q of the l symbols is in row order[q] after the list; without one, in row q.
#![tactic(auto)]

ghost use Rattle.std.specs.Prelude.{◌≡◌, [], is_some, unwrap_or, option_copied};
ghost use Rattle.symbol_slab.specs.Replay.{slab_shaped, checked, Replayed, Undone};

mod list;
mod part;
mod row;

// Where the symbols are read once a list is applied or undone.
#[derive(Debug, Clone, Copy, PartialEq, Eq)]
pub enum Place {
    // Symbol q in row order[q].
    ByOrder,
    // Symbol q in row q.
    InPlace,
}

// Why a call is refused; it changed nothing.
#[derive(Debug, Clone, Copy, PartialEq, Eq)]
pub enum Refusal {
    // A number is out of its bounds, or a length does not match.
    BadShape,
    // The list or the order is none of m rows.
    BadList,
    // A row was multiplied by zero.
    NotUndoable,
}

// Whether n operations on m rows of t bytes, for l symbols, keep to the bounds, and the slab's size is right.
#[tactic(auto, unfolding(crate::specs::Replay::slab_shaped))]
fn slab_shaped(m: usize, l: usize, t: usize, n: usize, size: usize) -> bool
    ensures { result ≡ slab_shaped m l t n size }
{
    oplist::shape_fine(m, l, n) && 1 <= t && t <= bounds::MOST_BYTES && size == m * t
}

// The checks on a call, in the order in which they refuse.
#[tactic(auto, unfolding(crate::specs::Replay::checked))]
fn check_call(
    m: usize,
    l: usize,
    t: usize,
    list: &[u64],
    order: Option<&[usize]>,
    size: usize,
) -> Result<(), Refusal>
    ensures { let o = option_copied order.entry in result ≡ checked m l t list.now (is_some o) (unwrap_or o []) size }
{
    if !slab_shaped(m, l, t, list.len(), size) {
        return Err(Refusal::BadShape);
    }
    if !oplist::list_fine(m, list) || !oplist::order_fine(m, l, order) {
        return Err(Refusal::BadList);
    }
    Ok(())
}

// Applies a list to a slab of m rows of t bytes.
pub fn replay(
    m: usize,
    l: usize,
    t: usize,
    list: &[u64],
    order: Option<&[usize]>,
    slab: &mut [u8],
) -> Result<Place, Refusal>
    ensures { let o = option_copied order.entry in Replayed m l t list.now (is_some o) (unwrap_or o []) slab.old result slab.new }
{
    check_call(m, l, t, list, order, slab.len())?;
    list::apply_all(slab, t, list);
    match order {
        Some(_) => Ok(Place::ByOrder),
        None => Ok(Place::InPlace),
    }
}

// Runs a list backwards on a slab of m rows of t bytes: what replay did is undone.
pub fn undo(
    m: usize,
    l: usize,
    t: usize,
    list: &[u64],
    order: Option<&[usize]>,
    slab: &mut [u8],
) -> Result<Place, Refusal>
    ensures { let o = option_copied order.entry in Undone m l t list.now (is_some o) (unwrap_or o []) slab.old result slab.new }
{
    check_call(m, l, t, list, order, slab.len())?;
    if !oplist::can_undo(list) {
        return Err(Refusal::NotUndoable);
    }
    list::undo_all(slab, t, list);
    Ok(Place::InPlace)
}
