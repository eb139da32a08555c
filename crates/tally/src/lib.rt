// The journal of a run: the list's room, and the running counts of a phase.
#![tactic(auto)]

ghost use Rattle.std.specs.Prelude.{◌≡◌, ◌≤◌, length, take};
ghost use Rattle.oplist.specs.Word.{Small};
ghost use Rattle.tally.specs.Book.{book_of, Fair, Noted, anew};

use oplist::Op;

// How many operations a list room holds, or one above the room; and the additions and multiplications of the phase.
#[derive(Debug, Clone, Copy, PartialEq, Eq)]
pub struct Tally {
    pub used: usize,
    pub adds: usize,
    pub muls: usize,
}

// The list's room, and how much of it is used, with the counts of the phase.
#[derive(Drop)]
pub struct Journal<'a> {
    pub room: &'a mut [u64],
    pub tally: Tally,
}

impl<'a> Journal<'a> {
    // One operation more: stored and counted where there is room, else only told by the number of those used.
    pub fn record(&mut self, op: Op)
        requires small { Small op }
        requires fair { Fair (book_of self.old) }
        ensures same_room { self.new.room.ghost_name ≡ self.old.room.ghost_name }
        ensures noted { Noted (book_of self.old) op (book_of self.new) }
    {
        let t = self.tally;
        let room: &mut [u64] = self.room;
        let used = oplist::record(room, t.used, op);
        self.tally = if t.used < room.len() {
            Tally {
                used,
                adds: t.adds + oplist::adds_of(op),
                muls: t.muls + oplist::muls_of(op),
            }
        } else {
            Tally { used, ..t }
        };
    }

    // The words of the operations recorded, where they fit the room.
    pub fn words(&self) -> &[u64]
        requires { self.now.tally.used ≤ length self.now.room.now }
        ensures { result.now ≡ take self.now.tally.used self.now.room.now }
    {
        &self.room[..self.tally.used]
    }

    // The counts begin anew.
    pub fn next_phase(&mut self)
        ensures same_room { self.new.room.ghost_name ≡ self.old.room.ghost_name }
        ensures begun { book_of self.new ≡ anew (book_of self.old) }
    {
        self.tally = Tally {
            adds: 0,
            muls: 0,
            ..self.tally
        };
    }
}
