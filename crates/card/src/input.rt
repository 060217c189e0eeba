// The part of standard input that is read.
ghost use Rattle.std.specs.Prelude.{◌≤◌, length, IfOk};

use std::io;
use std::io::Read;

// The most bytes that are read: twenty blocks.
pub const INPUT_BYTES: usize = 81920;

// Fills the buffer from the input, until that ends or the buffer is full, and gives the bytes filled. A `take` with `read_to_end` would not
// keep to memory that is reserved beforehand, and promises no bound.
pub fn read_some<R: Read>(input: &mut R, buffer: &mut [u8]) -> io::Result<usize>
    ensures { IfOk result (λ n. n ≤ length buffer.new) }
{
    let mut filled = 0;
    while filled < buffer.len() {
        let n = input.read(&mut buffer[filled..])?;
        if n == 0 {
            break;
        }
        filled += n;
    }
    Ok(filled)
}
