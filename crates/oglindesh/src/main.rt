// The verdict program: reads a record from standard input and writes its verdict to standard output.
#![tactic(auto)]

ghost use Rattle.std.specs.Prelude.{◌≡◌, ◌≤◌, length};
ghost use Rattle.model.specs.Verdict.{verdict_lines};

use std::io;
use std::io::{Read, Write};

// Writes the lines for an input, and nothing else.
fn print(rt: &HostRuntime, input: &[u8], lines: &[u8]) -> io::Result<()>
    requires { lines.now ≡ verdict_lines input.now }
{
    rt.stdout().write_all(lines)
}

// Reads until the buffer is full, the input ends or a read fails. How many bytes stand at its start then.
fn read_input(rt: &HostRuntime, input: &mut [u8]) -> usize
    ensures same_length { length input.new ≡ length input.old }
    ensures within { result ≤ length input.old }
{
    let mut source = rt.stdin();
    let mut done = 0;
    // Not `read_to_end`, which wants a Vec: there is no heap.
    while done < input.len() {
        let got = source.read(&mut input[done..]).unwrap_or(0);
        if got == 0 {
            break;
        }
        done += got;
    }
    done
}

fn main(rt: HostRuntime) -> io::Result<()> {
    let mut input = [0u8; verdict::INPUT_LIMIT];
    let read = read_input(&rt, &mut input);
    let mut lines = [0u8; verdict::LINES_LIMIT];
    let length = verdict::verdict(&input[..read], &mut lines);
    print(&rt, &input[..read], &lines[..length])
}
