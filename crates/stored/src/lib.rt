// The stored form of a list of operations: read into lent rooms, and written into one.
#![tactic(auto)]

ghost use Rattle.std.specs.Prelude.{◌≡◌, [], ◌+◌, ◌*◌, ◌%◌, ◌≤◌, ◌<◌, length, drop, get_or, is_some, unwrap_or, true, IfOk, if◌then◌else◌};
ghost use Rattle.std.specs.Option.{option_copied};
ghost use Rattle.oplist.specs.Check.{list_fine};
ghost use Rattle.stored.specs.Bytes.{number2, number4, padded};
ghost use Rattle.stored.specs.Form.{order_size, word_at, words_at, unused_at, unused_fine, form_fine};
ghost use Rattle.stored.specs.Laid.{head_of, word_bytes, tail_bytes, laid};
ghost use Rattle.stored.specs.Accepted.{Placed, Sized};
ghost use Rattle.stored.specs.Answers.{refusal_number, judged_by, judged, judged_list, Read, Wrote};

// What a form that is kept says of its list.
#[derive(Debug, Clone, Copy, PartialEq, Eq)]
pub struct Kept {
    pub rows: usize,
    pub columns: usize,
    pub operations: usize,
    pub ordered: bool,
}

// Why a form is not read, or a list not written.
#[derive(Debug, Clone, Copy, PartialEq, Eq)]
pub enum Refusal {
    // Rows, columns or operations pass a bound.
    BadShape,
    // A room is too short.
    NoRoom,
    // An operation or an order entry that no list has.
    BadList,
    // Length, version, an unused byte or the flag is wrong.
    BadForm,
}

impl Refusal {
    // The number by which a refusal is told.
    pub fn number(self) -> usize
        ensures { result ≡ refusal_number self }
    {
        match self {
            Refusal::BadShape => 2,
            Refusal::NoRoom => 4,
            Refusal::BadList => 8,
            Refusal::BadForm => 10,
        }
    }
}

// The number that two bytes say, the higher one first.
fn number2(form: &[u8], at: usize) -> usize
    requires { at + 1 < length form.now }
    ensures { (result ≡ number2 form.now at) × (result < 65536) }
{
    usize::from(u16::from_be_bytes([form[at], form[at + 1]]))
}

// The number that four bytes say, the highest first.
fn number4(form: &[u8], at: usize) -> usize
    requires { at + 3 < length form.now }
    ensures { (result ≡ number4 form.now at) × (result < 4294967296) }
{
    // `usize` has no `From<u32>`.
    u32::from_be_bytes([form[at], form[at + 1], form[at + 2], form[at + 3]]) as usize
}

// How many entries an order has, or the lack of one.
pub fn order_size(ordered: bool, l: usize) -> usize
    ensures { (result ≡ order_size ordered l) × (result ≤ l) }
{
    if ordered { l } else { 0 }
}

// Whether the unused byte of the operation at a place, if its kind has one, is zero.
#[tactic(auto, unfolding(crate::specs::Form::unused_at))]
fn unused_at(form: &[u8], at: usize) -> bool
    requires { at + 3 < length form.now }
    ensures { result ≡ unused_at form.now at }
{
    match form[at] {
        1 => form[at + 3] == 0,
        2 => form[at + 2] == 0,
        _ => true,
    }
}

// Whether the unused bytes of the first n operations are zeros.
#[tactic(auto, using(crate::specs::Scan::unused_fine_next), unfolding(crate::specs::Form::unused_fine))]
fn unused_fine(form: &[u8], n: usize) -> bool
    requires { 13 + 4 * n ≤ length form.now }
    ensures { result ≡ unused_fine form.now 13 n }
{
    for k in 0..n {
        if !unused_at(form, 13 + 4 * k) {
            return false;
        }
    }
    true
}

// Whether length, version, unused bytes and flag are right.
#[tactic(auto, unfolding(crate::specs::Form::form_fine))]
fn form_fine(form: &[u8]) -> bool
    ensures fine { result ≡ form_fine form.now }
    ensures whole { result ≡ true → 14 + 4 * number4 form.now 9 ≤ length form.now }
{
    let size = form.len();
    if size < 14 || number4(form, 0) + 4 != size || form[4] != 1 {
        return false;
    }
    let n = number4(form, 9);
    let at = 13 + 4 * n;
    if size <= at {
        return false;
    }
    let flag = form[at];
    if 1 < flag {
        return false;
    }
    let l = number2(form, 7);
    if size != at + 1 + order_size(flag == 1, l) {
        return false;
    }
    unused_fine(form, n)
}

// The word of the operation at a place.
fn word_at(form: &[u8], at: usize) -> u64
    requires { at + 3 < length form.now }
    ensures { result ≡ word_at form.now at }
{
    u64::from_le_bytes([
        form[at + 2],
        0,
        form[at + 1],
        0,
        form[at + 3],
        form[at],
        0,
        0,
    ])
}

// Whether the first n operations pass the checks for m rows.
#[tactic(auto, using(crate::specs::Scan::list_fine_next), unfolding(crate::specs::Form::words_at, oplist::specs::Check::list_fine))]
fn words_fine(m: usize, form: &[u8], n: usize) -> bool
    requires { 13 + 4 * n ≤ length form.now }
    ensures { result ≡ list_fine m (words_at form.now 13 n) }
{
    for k in 0..n {
        if !oplist::word_fine(m, word_at(form, 13 + 4 * k)) {
            return false;
        }
    }
    true
}

// The order of a form that is well made, where there is one.
fn order_of(form: &[u8], kept: Kept) -> Option<&[u8]>
    requires { 14 + 4 * kept.operations ≤ length form.now }
    ensures { option_copied result ≡ (if kept.ordered then Some (drop (14 + 4 * kept.operations) form.now) else None) }
{
    kept.ordered.then_some(&form[14 + 4 * kept.operations..])
}

// Whether a form that is well made is kept, with what it says.
#[tactic(auto, using(crate::specs::Answers::same_order), unfolding(crate::specs::Answers::judged_by))]
fn judge_by(kept: Kept, form: &[u8], list_room: usize, order_room: usize) -> Result<Kept, Refusal>
    requires { 14 + 4 * kept.operations ≤ length form.now }
    ensures { result ≡ judged_by kept form.now list_room order_room }
{
    if !oplist::shape_fine(kept.rows, kept.columns, kept.operations) {
        return Err(Refusal::BadShape);
    }
    if list_room < kept.operations || order_room < order_size(kept.ordered, kept.columns) {
        return Err(Refusal::NoRoom);
    }
    if !words_fine(kept.rows, form, kept.operations)
        || !oplist::order_fine(kept.rows, kept.columns, order_of(form, kept))
    {
        return Err(Refusal::BadList);
    }
    Ok(kept)
}

// What a form says, if it is kept, with rooms for so many operations and order entries.
#[tactic(auto, unfolding(crate::specs::Answers::judged))]
fn judge(form: &[u8], list_room: usize, order_room: usize) -> Result<Kept, Refusal>
    ensures answer { result ≡ judged form.now list_room order_room }
    ensures placed { IfOk result (λ k. Placed form.now list_room order_room k.operations) }
{
    if !form_fine(form) {
        return Err(Refusal::BadForm);
    }
    let operations = number4(form, 9);
    let said = Kept {
        rows: number2(form, 5),
        columns: number2(form, 7),
        operations,
        ordered: form[13 + 4 * operations] == 1,
    };
    judge_by(said, form, list_room, order_room)
}

// Operation i of a form that has n, or zero past the last.
fn word_or_zero(form: &[u8], n: usize, i: usize) -> u64
    requires { 13 + 4 * n ≤ length form.now }
    ensures { result ≡ get_or (words_at form.now 13 n) i 0 }
{
    if i < n { word_at(form, 13 + 4 * i) } else { 0 }
}

// The n operations of a form into the room, then zeros.
// A function for each of the three rooms, whose entries come from three definitions.
fn fill_list(form: &[u8], n: usize, list: &mut [u64])
    requires { (13 + 4 * n ≤ length form.now) × (n ≤ length list.old) }
    ensures { list.new ≡ padded (words_at form.now 13 n) (length list.old) }
{
    for (i, word) in list.iter_mut().enumerate() {
        *word = word_or_zero(form, n, i);
    }
}

// Entry i of the order, or 0 beyond its end.
fn entry_or_zero(order: &[u8], i: usize) -> usize
    ensures { result ≡ get_or order.now i 0 }
{
    order.get(i).map_or(0, |x| usize::from(*x))
}

// The entries of an order into the room, then zeros.
fn fill_order(order: &[u8], room: &mut [usize])
    requires { length order.now ≤ length room.old }
    ensures { room.new ≡ padded order.now (length room.old) }
{
    for (i, entry) in room.iter_mut().enumerate() {
        *entry = entry_or_zero(order, i);
    }
}

// Reads a stored list and its order into two rooms. A refusal changes neither; else zeros follow what was read.
pub fn read(form: &[u8], list: &mut [u64], order: &mut [usize]) -> Result<Kept, Refusal>
    ensures { Read form.now list.old order.old result list.new order.new }
{
    let kept = judge(form, list.len(), order.len())?;
    let from = 14 + 4 * kept.operations;
    fill_list(form, kept.operations, list);
    fill_order(&form[from..], order);
    Ok(kept)
}

// How many bytes a list takes, if it is written into a room of so many.
#[tactic(auto, unfolding(crate::specs::Answers::judged_list))]
fn judge_list(
    m: usize,
    l: usize,
    list: &[u64],
    order: Option<&[usize]>,
    room: usize,
) -> Result<usize, Refusal>
    ensures sized { IfOk result (λ n. Sized m l (length list.now) n) }
    ensures answer { let o = option_copied order.entry in result ≡ judged_list m l list.now (is_some o) (unwrap_or o []) room }
{
    if !oplist::shape_fine(m, l, list.len()) {
        return Err(Refusal::BadShape);
    }
    let need = 14 + 4 * list.len() + order_size(order.is_some(), l);
    if room < need {
        return Err(Refusal::NoRoom);
    }
    if !oplist::list_fine(m, list) || !oplist::order_fine(m, l, order) {
        return Err(Refusal::BadList);
    }
    Ok(need)
}

// The 13 bytes before the operations.
fn head(follow: usize, m: usize, l: usize, n: usize) -> [u8; 13]
    requires { (follow < 4294967296) × (m < 65536) × (l < 65536) × (n < 4294967296) }
    ensures { result ≡ head_of follow m l n [] }
{
    // Each number fits the bytes that it is cut to.
    let [a, b, c, d] = (follow as u32).to_be_bytes();
    let [e, f] = (m as u16).to_be_bytes();
    let [g, h] = (l as u16).to_be_bytes();
    let [i, j, k, o] = (n as u32).to_be_bytes();
    [a, b, c, d, 1, e, f, g, h, i, j, k, o]
}

// Byte j of the four of an operation.
fn op_byte(w: u64, j: usize) -> u8
    requires { j < 4 }
    ensures { result ≡ get_or (word_bytes w []) j 0 }
{
    let [src, _, dest, _, scalar, kind, _, _] = w.to_le_bytes();
    let four = [kind, dest, src, scalar];
    four[j]
}

// Byte k of the flag and the order.
#[tactic(auto, using(crate::specs::Laid::get_d_tail, crate::specs::Laid::get_or_none, crate::specs::Bytes::get_or_out))]
fn tail_byte(order: Option<&[usize]>, k: usize) -> u8
    ensures { result ≡ get_or (tail_bytes (option_copied order.entry)) k 0 }
{
    let Some(entries) = order else {
        return 0;
    };
    if k == 0 {
        return 1;
    }
    // The last byte of an entry; there is no `From<usize>`.
    entries.get(k - 1).map_or(0, |x| (*x % 256) as u8)
}

// Byte i of a form, or zero past its end.
#[tactic(auto, using(crate::specs::Laid::laid_head, crate::specs::Laid::laid_op, crate::specs::Laid::laid_tail))]
fn form_byte(head: &[u8], list: &[u64], order: Option<&[usize]>, i: usize) -> u8
    ensures { result ≡ get_or (laid head.now list.now (option_copied order.entry)) i 0 }
{
    if i < head.len() {
        return head[i];
    }
    let j = i - head.len();
    if j / 4 < list.len() {
        return op_byte(list[j / 4], j % 4);
    }
    tail_byte(order, j - 4 * list.len())
}

// A form into the room, then zeros.
fn fill_form(head: &[u8], list: &[u64], order: Option<&[usize]>, out: &mut [u8])
    requires { length (laid head.now list.now (option_copied order)) ≤ length out.old }
    ensures { out.new ≡ padded (laid head.now list.now (option_copied order.entry)) (length out.old) }
{
    for (i, byte) in out.iter_mut().enumerate() {
        *byte = form_byte(head, list, order, i);
    }
}

// Writes a list and its order, or none, in the stored form. A refusal changes nothing; else zeros follow what was written.
pub fn write(
    m: usize,
    l: usize,
    list: &[u64],
    order: Option<&[usize]>,
    out: &mut [u8],
) -> Result<usize, Refusal>
    ensures { Wrote m l list.now (option_copied order.entry) out.old result out.new }
{
    let size = judge_list(m, l, list, order, out.len())?;
    let first = head(size - 4, m, l, list.len());
    fill_form(&first, list, order, out);
    Ok(size)
}
