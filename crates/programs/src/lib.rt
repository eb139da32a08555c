// What the programs share: text on a writer, what a reader gives, and the call over rooms for any system within the bounds.
#![tactic(auto)]

mod calling;
mod writing;

pub use calling::{octet_rows, solve_case};
pub use reading::read_full;
pub use writing::{put_bytes, put_name, put_part, put_refused};

// Room for the longest list that there is within the bounds.
pub const LIST_ROOM: usize = 92331;

// Room for an entry of each column, or of each row, of the largest system.
pub const LINE_ROOM: usize = bounds::MOST_ROWS;

// Room for the working matrix of the largest system.
pub const WORK_ROOM: usize = bounds::MOST_ROWS * bounds::MOST_ROWS;

// Room for the sizes of the components of the largest system.
pub const SIZES_ROOM: usize = 2 * bounds::MOST_ROWS + 2;

// Room for the binary matrix of a case, and for a row more, which is the solver's to refuse.
pub const BITS_ROOM: usize = 66000;

// Room for the octet rows of a case, and for more, which are the solver's to refuse.
pub const OCTETS_ROOM: usize = 8192;
