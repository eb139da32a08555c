// An order: the rows in which the symbols stand after a list, one entry for each symbol.
ghost use Rattle.std.specs.Prelude.{◌≡◌, ℕ, List, map, is_some, unwrap_or, option_map, []};
ghost use Rattle.std.proofs.Common.{sym};
ghost use Rattle.std.proofs.lemmas.List.{map-id};
ghost use Rattle.oplist.specs.Check.{has, rows_fine, order_fine};

// What an order may be made of: each entry names a row.
pub trait Entry: Copy {
    // The row that an entry names, and the rows that entries name.
    ghost row: { Self → ℕ };

    ghost rows: { List Self → List ℕ };

    fn row(self) -> usize
        ensures { result ≡ row self };

    ghost rows_each: { (xs : List Self) → rows xs ≡ map row xs };
}

impl Entry for usize {
    ghost row = { λ x. x };

    ghost rows = { λ xs. xs };

    ghost rows_each = { λ xs. sym (map-id xs) };

    fn row(self) -> usize {
        self
    }
}

impl Entry for u8 {
    ghost row = { λ x. x };

    ghost rows = { λ xs. xs };

    ghost rows_each = { λ xs. sym (map-id xs) };

    fn row(self) -> usize {
        usize::from(self)
    }
}

// Whether an entry names row x.
fn stands<T: Entry>(order: &[T], x: usize) -> bool
    ensures { result ≡ has x (T.rows order.now) }
{
    order.iter().any(|y| y.row() == x)
}

// Whether the entries name different rows of m.
fn rows_fine<T: Entry>(m: usize, order: &[T]) -> bool
    ensures { result ≡ rows_fine m (T.rows order.now) }
{
    let mut rest = order;
    while let Some((x, tail)) = rest.split_first() {
        if m <= x.row() || stands(tail, x.row()) {
            return false;
        }
        rest = tail;
    }
    true
}

// Whether an order, where there is one, names l rows below m, none twice.
pub fn order_fine<T: Entry>(m: usize, l: usize, order: Option<&[T]>) -> bool
    ensures { let o = option_map (λ x. T.rows x.now) order.entry in
        result ≡ order_fine m l (is_some o) (unwrap_or o []) }
{
    order.is_none_or(|entries| entries.len() == l && rows_fine(m, entries))
}
