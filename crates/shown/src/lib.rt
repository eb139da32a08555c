// A stored list as text, put into a lent room.
#![tactic(auto)]

ghost use Rattle.std.specs.Prelude.{◌≡◌, [], ◌+◌, ◌%◌, ◌<◌, ◌++◌, length, is_some, unwrap_or};
ghost use Rattle.std.specs.Option.{option_copied};
ghost use Rattle.loops.specs.Room.{log, put, puts};
ghost use Rattle.oplist.specs.Word.{meaning};
ghost use Rattle.oplist.specs.Listed.{ops_of};
ghost use Rattle.shown.specs.Text.{newline, digit_at, decimal, named, op_text, ops_text, entries_text, order_text, shape_text, list_text, refused_text};
ghost use Rattle.stored.specs.Answers.{refusal_number};
ghost use Rattle.shown.specs.Put.{byte, word_text, written};
ghost use Rattle.shown.specs.Filled.{Holds, Filled, room_text, screen, showing};

use oplist::Op;
use stored::{Kept, Refusal};

// The most bytes of a form that is shown.
const MOST_SHOWN: usize = 65536;

// A lent room, and how many bytes of text stand at its front: one above the room once a byte found no place.
#[derive(Drop)]
struct Page<'a> {
    room: &'a mut [u8],
    used: usize,
}

impl Page<'_> {
    // One byte more, where there is room.
    #[tactic(auto, unfolding(loops::specs::Room::put))]
    fn put(&mut self, b: u8)
        ensures same_room { self.new.room.ghost_name ≡ self.old.room.ghost_name }
        ensures text { written self.new ≡ put byte (written self.old) b }
    {
        if self.used < self.room.len() {
            self.room[self.used] = b;
            self.used += 1;
        } else {
            self.used = self.room.len() + 1;
        }
    }

    // The bytes of s more.
    fn put_all(&mut self, s: &[u8])
        ensures same_room { self.new.room.ghost_name ≡ self.old.room.ghost_name }
        ensures text { written self.new ≡ puts byte (written self.old) s.now }
    {
        for b in s {
            self.put(*b);
        }
    }

    // The digit of x at the power p of ten, where x is so large.
    fn put_digit(&mut self, p: usize, x: usize)
        requires { 0 < p }
        ensures same_room { self.new.room.ghost_name ≡ self.old.room.ghost_name }
        ensures text { written self.new ≡ puts byte (written self.old) (digit_at p x) }
    {
        if p <= x {
            self.put(digit(x / p));
        }
    }

    // A number below ten million in decimal.
    // Digit by digit, since no contract says what `write!` puts where.
    #[tactic(auto, using(crate::specs::Put::then, crate::specs::Put::one), unfolding(crate::specs::Text::decimal))]
    fn put_number(&mut self, x: usize)
        ensures same_room { self.new.room.ghost_name ≡ self.old.room.ghost_name }
        ensures text { written self.new ≡ puts byte (written self.old) (decimal x) }
    {
        self.put_digit(1000000, x);
        self.put_digit(100000, x);
        self.put_digit(10000, x);
        self.put_digit(1000, x);
        self.put_digit(100, x);
        self.put_digit(10, x);
        self.put(digit(x));
    }

    // A word and a number after it.
    #[tactic(auto, using(crate::specs::Put::then))]
    fn put_named(&mut self, word: &[u8], x: usize)
        ensures same_room { self.new.room.ghost_name ≡ self.old.room.ghost_name }
        ensures text { written self.new ≡ puts byte (written self.old) (named word.now x) }
    {
        self.put_all(word);
        self.put_number(x);
    }

    // Numbers, a space before each.
    fn put_entries(&mut self, numbers: &[usize])
        ensures same_room { self.new.room.ghost_name ≡ self.old.room.ghost_name }
        ensures text { written self.new ≡ puts byte (written self.old) (entries_text numbers.now) }
    {
        for x in numbers {
            self.put_named(b" ", *x);
        }
    }

    // The first line: rows, columns, operations.
    fn put_shape(&mut self, m: usize, l: usize, ops: usize)
        ensures same_room { self.new.room.ghost_name ≡ self.old.room.ghost_name }
        ensures text { written self.new ≡ puts byte (written self.old) (shape_text m l ops) }
    {
        self.put_named(b"rows ", m);
        self.put_named(b" columns ", l);
        self.put_named(b" operations ", ops);
        self.put_all(b"\n");
    }

    // The line of an operation: its word, dest, and its other fields.
    #[tactic(auto, using(crate::specs::Put::then))]
    fn put_line(&mut self, word: &[u8], dest: usize, fields: &[usize])
        ensures same_room { self.new.room.ghost_name ≡ self.old.room.ghost_name }
        ensures text { written self.new ≡ puts byte (written self.old) (named word.now dest ++ (entries_text fields.now ++ newline)) }
    {
        self.put_named(word, dest);
        self.put_entries(fields);
        self.put_all(b"\n");
    }

    // The line of an operation.
    fn put_op(&mut self, op: Op)
        ensures same_room { self.new.room.ghost_name ≡ self.old.room.ghost_name }
        ensures text { written self.new ≡ puts byte (written self.old) (op_text op) }
    {
        match op {
            Op::AddAssign(dest, src) => self.put_line(b"add ", dest, &[src]),
            Op::MulAssign(dest, scalar) => self.put_line(b"mul ", dest, &[usize::from(scalar)]),
            Op::FMA(dest, src, scalar) => {
                self.put_line(b"fma ", dest, &[src, usize::from(scalar)])
            }
        }
    }

    // The line of a word, where it is an operation's.
    #[tactic(auto, using(crate::specs::Put::nothing))]
    fn put_word(&mut self, w: u64)
        ensures same_room { self.new.room.ghost_name ≡ self.old.room.ghost_name }
        ensures text { written self.new ≡ puts byte (written self.old) (word_text (meaning w)) }
    {
        if let Some(op) = oplist::unpack(w) {
            self.put_op(op);
        }
    }

    // A line for each operation.
    fn put_words(&mut self, list: &[u64])
        ensures same_room { self.new.room.ghost_name ≡ self.old.room.ghost_name }
        ensures text { written self.new ≡ puts byte (written self.old) (ops_text (ops_of list.now)) }
    {
        for w in list {
            self.put_word(*w);
        }
    }

    // The last line: the order, or that there is none.
    #[tactic(auto, unfolding(crate::specs::Text::order_text))]
    fn put_order(&mut self, order: Option<&[usize]>)
        ensures same_room { self.new.room.ghost_name ≡ self.old.room.ghost_name }
        ensures text { let o = option_copied order.entry in written self.new ≡ puts byte (written self.old) (order_text (is_some o) (unwrap_or o [])) }
    {
        match order {
            Some(entries) => {
                self.put_all(b"order");
                self.put_entries(entries);
                self.put_all(b"\n");
            }
            None => self.put_all(b"order none\n"),
        }
    }

    // The text of a list and its order, or the lack of one.
    #[tactic(auto, using(crate::specs::Put::then), unfolding(crate::specs::Text::list_text))]
    fn put_list(&mut self, m: usize, l: usize, list: &[u64], order: Option<&[usize]>)
        requires { length (ops_of list.now) ≡ length list.now }
        ensures same_room { self.new.room.ghost_name ≡ self.old.room.ghost_name }
        ensures text { let o = option_copied order.entry in written self.new ≡ puts byte (written self.old) (list_text m l (ops_of list.now) (is_some o) (unwrap_or o [])) }
    {
        self.put_shape(m, l, list.len());
        self.put_words(list);
        self.put_order(order);
    }

    // The text of a list that was kept, from the rooms that it filled.
    fn put_kept(&mut self, kept: Kept, list: &[u64], order: &[usize])
        requires { Holds kept list.now order.now }
        ensures same_room { self.new.room.ghost_name ≡ self.old.room.ghost_name }
        ensures text { written self.new ≡ puts byte (written self.old) (room_text (Ok kept) list.now order.now) }
    {
        let order = if kept.ordered {
            Some(&order[..kept.columns])
        } else {
            None
        };
        self.put_list(kept.rows, kept.columns, &list[..kept.operations], order);
    }

    // The text of a refusal.
    fn put_refused(&mut self, why: Refusal)
        ensures same_room { self.new.room.ghost_name ≡ self.old.room.ghost_name }
        ensures text { written self.new ≡ puts byte (written self.old) (refused_text (refusal_number why)) }
    {
        self.put_named(b"refused ", why.number());
        self.put_all(b"\n");
    }
}

// The decimal digit x.
fn digit(x: usize) -> u8
    ensures { result ≡ 48 + x % 10 }
{
    // A digit fits; there is no `From<usize>`.
    48 + (x % 10) as u8
}

// The text of what reading answered, from the rooms that it filled.
fn show_answer(
    out: &mut [u8],
    answer: Result<Kept, Refusal>,
    list: &[u64],
    order: &[usize],
) -> usize
    requires { Filled answer list.now order.now }
    ensures { log out.new result ≡ puts byte (log out.old 0) (room_text answer list.now order.now) }
{
    let mut page = Page { room: out, used: 0 };
    match answer {
        Ok(kept) => page.put_kept(kept, list, order),
        Err(why) => page.put_refused(why),
    }
    page.used
}

// The text for the bytes of a form: its list and order, or the refusal. The rooms hold what is read.
#[tactic(auto, unfolding(crate::specs::Filled::showing))]
pub fn show(form: &[u8], list: &mut [u64], order: &mut [usize], out: &mut [u8]) -> usize
    ensures { screen (log out.new result) list.new order.new ≡ showing form.now list.old order.old out.old }
{
    if MOST_SHOWN < form.len() {
        return show_answer(out, Err(Refusal::NoRoom), list, order);
    }
    let answer = stored::read(form, list, order);
    show_answer(out, answer, list, order)
}
