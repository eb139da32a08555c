// Reads and writes stored lists so that every answer is given once, and prints each answer's number with the rooms afterwards. The rooms hold
// sevens before.
#![tactic(auto)]

ghost use Rattle.std.specs.Prelude.{◌≤◌};

use oplist::Op;
use std::fmt::Display;
use std::io;
use stored::Refusal;

// Each number, after a space.
fn put_numbers<T: Display>(rt: &impl Print, numbers: &[T]) -> io::Result<()> {
    for x in numbers {
        print!(rt; " {x}")?;
    }
    Ok(())
}

// The number of an answer: 0, or that of the refusal.
fn number_of<T: Drop>(answer: Result<T, Refusal>) -> usize {
    match answer {
        Ok(_) => 0,
        Err(why) => why.number(),
    }
}

// Reads a form into a room for so many operations, and one for so many entries of an order.
fn read<const LIST: usize, const ORDER: usize>(rt: &impl Print, form: &[u8]) -> io::Result<()>
    requires { (LIST ≤ 4) × (ORDER ≤ 4) }
{
    let mut list = [7u64; LIST];
    let mut order = [7usize; ORDER];
    let answer = stored::read(form, &mut list, &mut order);
    print!(rt; "read {} list", number_of(answer))?;
    put_numbers(rt, &list)?;
    print!(rt; " order")?;
    put_numbers(rt, &order)?;
    println!(rt; "")
}

fn read_all(rt: &impl Print) -> io::Result<()> {
    // three rows, two columns, two operations, an order
    read::<3, 4>(
        rt,
        b"\x00\x00\x00\x14\x01\x00\x03\x00\x02\x00\x00\x00\x02\x01\x00\x01\x00\x02\x02\x00\x8e\x01\x02\x00",
    )?;
    // the same without an order
    read::<3, 4>(
        rt,
        b"\x00\x00\x00\x12\x01\x00\x03\x00\x02\x00\x00\x00\x02\x01\x00\x01\x00\x02\x02\x00\x8e\x00",
    )?;
    // no columns
    read::<3, 4>(
        rt,
        b"\x00\x00\x00\x0a\x01\x00\x03\x00\x00\x00\x00\x00\x00\x00",
    )?;
    // no room for two operations
    read::<1, 4>(
        rt,
        b"\x00\x00\x00\x14\x01\x00\x03\x00\x02\x00\x00\x00\x02\x01\x00\x01\x00\x02\x02\x00\x8e\x01\x02\x00",
    )?;
    // no room for two entries
    read::<3, 1>(
        rt,
        b"\x00\x00\x00\x14\x01\x00\x03\x00\x02\x00\x00\x00\x02\x01\x00\x01\x00\x02\x02\x00\x8e\x01\x02\x00",
    )?;
    // an unknown kind
    read::<3, 4>(
        rt,
        b"\x00\x00\x00\x0e\x01\x00\x03\x00\x02\x00\x00\x00\x01\x04\x00\x01\x09\x00",
    )?;
    // an entry twice
    read::<3, 4>(
        rt,
        b"\x00\x00\x00\x0c\x01\x00\x03\x00\x02\x00\x00\x00\x00\x01\x02\x02",
    )?;
    // a flag that is neither
    read::<3, 4>(
        rt,
        b"\x00\x00\x00\x0e\x01\x00\x03\x00\x02\x00\x00\x00\x01\x01\x00\x01\x00\x02",
    )
}

fn write_once(
    rt: &impl Print,
    m: usize,
    l: usize,
    list: &[u64],
    order: Option<&[usize]>,
) -> io::Result<()> {
    let mut out = [7u8; 24];
    let answer = stored::write(m, l, list, order, &mut out);
    print!(rt; "write {} out", number_of(answer))?;
    put_numbers(rt, &out)?;
    println!(rt; "")
}

fn write_all(rt: &impl Print) -> io::Result<()> {
    let list = [
        oplist::pack(Op::AddAssign(0, 1)),
        oplist::pack(Op::MulAssign(2, 142)),
    ];
    let three = [
        oplist::pack(Op::AddAssign(0, 1)),
        oplist::pack(Op::FMA(1, 2, 3)),
        oplist::pack(Op::AddAssign(2, 0)),
    ];
    let unknown = [0u64; 1];
    let order = [2usize, 0];
    let twice = [2usize, 2];
    write_once(rt, 3, 2, &list, Some(&order))?;
    write_once(rt, 3, 2, &list, None)?;
    write_once(rt, 257, 2, &list, None)?;
    write_once(rt, 3, 2, &three, None)?;
    write_once(rt, 3, 2, &three, Some(&order))?;
    write_once(rt, 3, 2, &unknown, None)?;
    write_once(rt, 3, 2, &list, Some(&twice))?;
    write_once(rt, 3, 2, &list, Some(&[]))
}

fn main(rt: HostRuntime) -> io::Result<()> {
    read_all(&rt)?;
    write_all(&rt)
}
