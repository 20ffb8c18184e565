// Prints the list of the image on standard input.
#![tactic(auto)]

ghost use Rattle.std.specs.Prelude.{◌≤◌, length, IfOk};

use listing::{LONGEST_IMAGE, LONGEST_LIST};
use std::io;
use std::io::Read;

// Reads until `image` is full or the input ends, and answers how many bytes stand there.
// Kept: the library has no call that does this without the heap: `read_exact` fails on a shorter input, `read_to_end` fills a `Vec`.
fn read_full<R: Read>(input: &mut R, image: &mut [u8]) -> io::Result<usize>
    ensures { IfOk result (λ n. n ≤ length image.new) }
{
    let mut n = 0;
    while n < image.len() {
        match input.read(&mut image[n..])? {
            0 => break,
            read => n += read,
        }
    }
    Ok(n)
}

// Reads an image into `image` and writes its list by way of `out`, which is long enough for the longest: `listing` never answers 0.
fn print_list(rt: &(impl Input + Print), image: &mut [u8], out: &mut [u8]) -> io::Result<()>
    requires { LONGEST_LIST ≤ length out.old }
{
    let n = read_full(&mut rt.reader(), image)?;
    let end = listing::listing(&image[..n], out);
    rt.write_all(&out[..end])
}

fn main(rt: HostRuntime) -> io::Result<()> {
    // the largest image and one byte more
    let mut image = [0u8; LONGEST_IMAGE + 1];
    let mut out = [0u8; LONGEST_LIST];
    print_list(&rt, &mut image, &mut out)
}
