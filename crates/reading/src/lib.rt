// What a reader gives, in a lent room.
#![tactic(auto)]

ghost use Rattle.std.specs.Prelude.{◌≤◌, length, IfOk};

use std::io;
use std::io::Read;

// Reads until the room is full or the input ends, and returns how many bytes it put at the front.
pub fn read_full<R: Read>(input: &mut R, room: &mut [u8]) -> io::Result<usize>
    ensures { IfOk result (λ n. n ≤ length room.new) }
{
    let mut done = 0;
    while done < room.len() {
        let got = input.read(&mut room[done..])?;
        if got == 0 {
            break;
        }
        done += got;
    }
    Ok(done)
}
