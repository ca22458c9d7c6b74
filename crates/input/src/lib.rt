// Bytes of standard input, for the programs.
#![tactic(auto)]

ghost use Rattle.std.specs.Prelude.{◌≤◌, length, IfOk};

use std::io::{self, Read};

// Reads standard input until the buffer is full or the input ends, and says how many bytes it put at the start of the buffer.
pub fn read_full(rt: &HostRuntime, buf: &mut [u8]) -> io::Result<usize>
    ensures { IfOk result (λ n. n ≤ length buf.new) }
{
    let mut stdin = rt.stdin();
    let mut done = 0;
    while done < buf.len() {
        let n = stdin.read(&mut buf[done..])?;
        if n == 0 {
            break;
        }
        done += n;
    }
    Ok(done)
}
