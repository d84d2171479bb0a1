// An input read whole into a lent buffer: how many bytes it has, or why a read failed.
#![tactic(auto)]

ghost use Rattle.std.specs.Prelude.{◌≤◌, ◌<◌, length, take, IfOk};
ghost use Rattle.std.specs.Io.KnownBytes.{Consumes, IsAtEnd};

use std::io;
use std::io::Read;

// Reads until the buffer is full or the input ends: so many bytes, which stand at the start of the buffer, or why a read failed. A read that a signal interrupts before a byte is moved has failed too.
// They are the bytes that the reader had left, in their order, and where they do not fill the buffer it has none left; which bytes those are is known of a reader over memory alone, for no contract of C's says it.
// A short read does not tell whether the input has ended, so another follows, which has to find the end.
// Once the buffer is full no byte more is asked for, so it is not told whether the input ends there.
pub fn read_whole<R: Read>(reader: &mut R, buffer: &mut [u8]) -> io::Result<usize>
    ensures within { IfOk result (λ n. n ≤ length buffer.new) }
    ensures bytes { IfOk result (λ n. Consumes (R.remaining reader.old) (R.remaining reader.new) (take n buffer.new)) }
    ensures end { IfOk result (λ n. n < length buffer.new → IsAtEnd (R.remaining reader.new)) }
{
    let mut done = 0;
    while done < buffer.len() {
        let more = reader.read(&mut buffer[done..])?;
        if more == 0 {
            return Ok(done);
        }
        done += more;
    }
    Ok(done)
}
