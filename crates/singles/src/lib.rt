// The list of singles: a lent slice, of which the first entries are in use.
#![tactic(auto)]

ghost use Rattle.std.specs.Prelude.{◌≡◌, [], ◌∷◌, ◌++◌, ◌+◌, ◌<◌, ◌≤◌, length, get_or, take, eqb};
ghost use Rattle.rule.specs.Lists.{filter};
ghost use Rattle.rule.specs.Rule.{swap_remove, lose as losing, lose_first};
ghost use Rattle.grid.specs.Grid.{bit, Under, Rows};
ghost use Rattle.singles.specs.Facts.{Kept};
ghost use Rattle.singles.specs.Figures.{Sound, Done, lose_one, first_loss, renew_one, drop_col, drop_cols, renew, shrunk};

use grid::Grid;

// The rows with a single one: the first `used` entries of the room.
#[derive(Drop)]
pub struct Singles<'a> {
    pub room: &'a mut [usize],
    pub used: usize,
}

impl<'a> Singles<'a> {
    // The rows of e with a single one, in their order.
    pub fn new(room: &'a mut [usize], e: &[usize], ones: &[usize]) -> Singles<'a>
        requires { (Under (length ones.now) e.now) × (length e.now ≤ length room.old) }
        ensures same_room { result.room.ghost_name ≡ room.entry.ghost_name }
        ensures kept { Kept room.old result.room.now result.used (filter (λ x. eqb (get_or ones.now x 0) 1) e.now) }
    {
        let mut s = Singles { room, used: 0 };
        for &y in e {
            if figures::ones_of(ones, y) == 1 {
                s.put_in(y);
            }
        }
        s
    }

    // y is taken out, if it is there, and the last one takes its place.
    fn take_out(&mut self, y: usize)
        requires { self.old.used ≤ length self.old.room.now }
        ensures same_room { self.new.room.ghost_name ≡ self.old.room.ghost_name }
        ensures kept { Kept self.old.room.now self.new.room.now self.new.used (swap_remove y (take self.old.used self.old.room.now)) }
    {
        let n = self.used;
        let room: &mut [usize] = self.room;
        if let Some(k) = columns::place(&room[..n], y) {
            room[k] = room[n - 1];
            self.used = n - 1;
        }
    }

    // y is put last.
    fn put_in(&mut self, y: usize)
        requires { self.old.used < length self.old.room.now }
        ensures same_room { self.new.room.ghost_name ≡ self.old.room.ghost_name }
        ensures kept { Kept self.old.room.now self.new.room.now self.new.used (take self.old.used self.old.room.now ++ (y ∷ [])) }
        ensures more { self.new.used ≡ self.old.used + 1 }
    {
        self.room[self.used] = y;
        self.used += 1;
    }

    // Row y has lost a one of V and now has k.
    fn lose(&mut self, y: usize, k: usize)
        requires { (self.old.used ≤ length self.old.room.now) × (k ≡ 1 → self.old.used < length self.old.room.now) }
        ensures same_room { self.new.room.ghost_name ≡ self.old.room.ghost_name }
        ensures kept { Kept self.old.room.now self.new.room.now self.new.used (losing (take self.old.used self.old.room.now) y k) }
    {
        match k {
            0 => self.take_out(y),
            1 => self.put_in(y),
            _ => {}
        }
    }

    // The chosen row has lost its first one and now has k.
    fn lose_first(&mut self, y: usize, k: usize)
        requires { self.old.used ≤ length self.old.room.now }
        ensures same_room { self.new.room.ghost_name ≡ self.old.room.ghost_name }
        ensures kept { Kept self.old.room.now self.new.room.now self.new.used (lose_first (take self.old.used self.old.room.now) y k) }
    {
        if k == 0 {
            self.take_out(y);
        }
    }

    // Row y loses a one.
    fn lose_one(&mut self, ones: &mut [usize], y: usize)
        requires { (Sound ones.old self.old.room.now self.old.used) × (y < length ones.old) }
        ensures same_room { self.new.room.ghost_name ≡ self.old.room.ghost_name }
        ensures done { Done (lose_one y) ones.old self.old.room.now self.old.used ones.new self.new.room.now self.new.used }
    {
        let k = figures::take_one(ones, y);
        self.lose(y, k);
    }

    // The chosen row y loses its first one.
    // Beside `lose_one`, since a closure for the step that differs would need the list's clauses again; so does `refresh_all` stand beside `lose_col`.
    fn first_loss(&mut self, ones: &mut [usize], y: usize)
        requires { (Sound ones.old self.old.room.now self.old.used) × (y < length ones.old) }
        ensures same_room { self.new.room.ghost_name ≡ self.old.room.ghost_name }
        ensures done { Done (first_loss y) ones.old self.old.room.now self.old.used ones.new self.new.room.now self.new.used }
    {
        let k = figures::take_one(ones, y);
        self.lose_first(y, k);
    }

    // Row y is taken out, and put in last if that is one.
    fn refresh(&mut self, ones: &[usize], y: usize)
        requires { (Sound ones.now self.old.room.now self.old.used) × (y < length ones.now) }
        ensures same_room { self.new.room.ghost_name ≡ self.old.room.ghost_name }
        ensures done { Done (renew_one y) ones.now self.old.room.now self.old.used ones.now self.new.room.now self.new.used }
    {
        self.take_out(y);
        if figures::ones_of(ones, y) == 1 {
            self.put_in(y);
        }
    }

    // Column q leaves V: the rows ys, from the top.
    fn lose_col(&mut self, g: Grid<'_>, q: usize, ys: &[usize], ones: &mut [usize])
        requires { (Rows g.l (length g.bits.now) ys.now) × (q < g.l) × (Under (length ones.old) ys.now) × (Sound ones.old self.old.room.now self.old.used) }
        ensures same_room { self.new.room.ghost_name ≡ self.old.room.ghost_name }
        ensures done { Done (drop_col (bit g.entry.l g.entry.bits.now) q ys.now) ones.old self.old.room.now self.old.used ones.new self.new.room.now self.new.used }
    {
        for &y in ys {
            if g.has(y, q) {
                self.lose_one(ones, y);
            }
        }
    }

    // The columns qs leave V one after another.
    fn lose_cols(&mut self, g: Grid<'_>, qs: &[usize], ys: &[usize], ones: &mut [usize])
        requires { (Rows g.l (length g.bits.now) ys.now) × (Under g.l qs.now) × (Under (length ones.old) ys.now) × (Sound ones.old self.old.room.now self.old.used) }
        ensures same_room { self.new.room.ghost_name ≡ self.old.room.ghost_name }
        ensures done { Done (drop_cols (bit g.entry.l g.entry.bits.now) qs.now ys.now) ones.old self.old.room.now self.old.used ones.new self.new.room.now self.new.used }
    {
        for &q in qs {
            self.lose_col(g, q, ys, ones);
        }
    }

    // The rows ys with a one in column q are taken out, and put in last where they have a single one.
    fn refresh_all(&mut self, g: Grid<'_>, q: usize, ys: &[usize], ones: &[usize])
        requires { (Rows g.l (length g.bits.now) ys.now) × (q < g.l) × (Under (length ones.now) ys.now) × (Sound ones.now self.old.room.now self.old.used) }
        ensures same_room { self.new.room.ghost_name ≡ self.old.room.ghost_name }
        ensures done { Done (renew (bit g.entry.l g.entry.bits.now) q ys.now) ones.now self.old.room.now self.old.used ones.now self.new.room.now self.new.used }
    {
        for &y in ys {
            if g.has(y, q) {
                self.refresh(ones, y);
            }
        }
    }

    // A step: row x is chosen, the rows ys stay, e is both; the column pivot and then the columns gone leave V.
    pub fn next(
        &mut self,
        g: Grid<'_>,
        x: usize,
        ys: &[usize],
        e: &[usize],
        pivot: usize,
        gone: &[usize],
        ones: &mut [usize],
    )
        requires { (Rows g.l (length g.bits.now) e.now) × (Under g.l gone.now) × (Under (length ones.old) e.now) × (Sound ones.old self.old.room.now self.old.used) × (pivot < g.l) × (e.now ≡ x ∷ ys.now) }
        ensures same_room { self.new.room.ghost_name ≡ self.old.room.ghost_name }
        ensures done { Done (shrunk (bit g.entry.l g.entry.bits.now) x ys.now pivot gone.now) ones.old self.old.room.now self.old.used ones.new self.new.room.now self.new.used }
    {
        self.first_loss(ones, x);
        self.lose_col(g, pivot, ys, ones);
        self.lose_cols(g, gone, e, ones);
        if gone.is_empty() {
            return;
        }
        self.refresh_all(g, pivot, ys, ones);
    }
}
