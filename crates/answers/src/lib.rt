// What a call answers, the number of each answer, what the receiver shows for it, and the rooms that a call needs.
#![tactic(auto)]

ghost use Rattle.std.specs.Prelude.{◌≡◌, ◌≤◌};
ghost use Rattle.bounds.specs.Bounds.{most_rows};
ghost use Rattle.answers.specs.Answers.{number_of, shown_of};
ghost use Rattle.answers.specs.Rooms.{rooms_of, Needed};

// The additions and multiplications of a phase.
#[derive(Debug, Clone, Copy, PartialEq, Eq)]
pub struct Counts {
    pub adds: usize,
    pub muls: usize,
}

// How many operations the list has, and the counts of each phase.
#[derive(Debug, Clone, Copy, PartialEq, Eq)]
pub struct Report {
    pub operations: usize,
    pub one: Counts,
    pub two: Counts,
    pub three: Counts,
    pub four: Counts,
    pub five: Counts,
}

// Why a call is refused.
#[derive(Debug, Clone, Copy, PartialEq, Eq)]
pub enum Refusal {
    BadCount,
    BadShape,
    BadEntry,
    NoRoom,
    ListFull,
    NoPivot,
    Singular,
}

impl From<params::BadCount> for Refusal {
    ghost use Rattle.answers.specs.declared.Refusal.{Refusal};

    ghost from_gives = { λ _ e. e ≡ Refusal.BadCount };

    fn from(_: params::BadCount) -> Refusal {
        Refusal::BadCount
    }
}

// What a call answers: the report of what it solved, or why it is refused.
pub type Answer = Result<Report, Refusal>;

// What the receiver shows for an answer.
#[derive(Debug, Clone, Copy, PartialEq, Eq)]
pub enum Display {
    Solved,
    BadCount,
    BadShape,
    BadEntry,
    NoRoom,
    ListFull,
    ShortOfRank,
}

// How many entries order, vector and each working slice have to hold, and how many bytes the working slices take in all.
#[derive(Debug, Clone, Copy, PartialEq, Eq)]
pub struct Rooms {
    pub order: usize,
    pub vector: usize,
    pub work: usize,
    pub scratch: usize,
    pub columns: usize,
    pub rows: usize,
    pub ones: usize,
    pub degrees: usize,
    pub singles: usize,
    pub labels: usize,
    pub sizes: usize,
    pub bytes: usize,
}

// The number of an answer.
pub fn number(a: Answer) -> usize
    ensures { result ≡ number_of a }
{
    match a {
        Ok(_) => 0,
        Err(Refusal::BadCount) => 1,
        Err(Refusal::BadShape) => 2,
        Err(Refusal::BadEntry) => 3,
        Err(Refusal::NoRoom) => 4,
        Err(Refusal::ListFull) => 5,
        Err(Refusal::NoPivot) => 6,
        Err(Refusal::Singular) => 7,
    }
}

// What the receiver shows: NoPivot and Singular are a block short of rank, any other answer shows its name.
pub fn shown(a: Answer) -> Display
    ensures { result ≡ shown_of a }
{
    match a {
        Ok(_) => Display::Solved,
        Err(Refusal::BadCount) => Display::BadCount,
        Err(Refusal::BadShape) => Display::BadShape,
        Err(Refusal::BadEntry) => Display::BadEntry,
        Err(Refusal::NoRoom) => Display::NoRoom,
        Err(Refusal::ListFull) => Display::ListFull,
        Err(Refusal::NoPivot) => Display::ShortOfRank,
        Err(Refusal::Singular) => Display::ShortOfRank,
    }
}

// The rooms for m rows and l columns, for any number of octet rows.
#[tactic(auto, using(crate::proofs::Short::short_is, crate::proofs::Short::short_number))]
pub fn needs(m: usize, l: usize) -> Result<Rooms, Refusal>
    ensures { Needed m l result }
{
    if l < 1 {
        return Err(Refusal::BadShape);
    }
    if m < l {
        return Err(Refusal::BadShape);
    }
    if bounds::MOST_ROWS < m {
        return Err(Refusal::BadShape);
    }
    Ok(rooms_for(m, l))
}

// The needs of order, vector and the working slices for m rows and l columns.
pub fn rooms_for(m: usize, l: usize) -> Rooms
    requires { (m ≤ most_rows) × (l ≤ most_rows) }
    ensures { result ≡ rooms_of m l }
{
    Rooms {
        order: l,
        vector: l,
        work: m * l,
        scratch: l,
        columns: l,
        rows: m,
        ones: m,
        degrees: m,
        singles: m,
        labels: l,
        sizes: 2 * l + 2,
        bytes: m * l + 32 * m + 33 * l + 16,
    }
}
