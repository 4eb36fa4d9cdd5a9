// How lines come in, for the programs that answer each as it comes.
ghost use Rattle.std.specs.Prelude.{◌≡◌, IfOk, OnOk, IfSome, nat_lt, vec_len};
ghost use Rattle.std.specs.Io.Buffered.{reader_remaining};
ghost use Rattle.std.specs.Io.BufRead.{take_through, DropsThrough};
ghost use Rattle.std.specs.Io.KnownBytes.{Keeps};
ghost use Rattle.std.specs.Io.{StopsAt};

use std::io;
use std::io::{BufRead, BufReader, Read, Write};

// Reads the next line, with what ends it, in the place of the last one; says whether there was one. What was written goes out first where more input has to be waited for, so that a person sees each reply at once and a file goes through in large pieces.
pub fn next_line<R: Read, W: Write>(
    input: &mut BufReader<R>,
    out: &mut W,
    line: &mut Vec<u8>,
) -> io::Result<bool>
    ensures any { IfOk result (λ more. more ≡ nat_lt 0 (vec_len line.new)) }
    ensures one { OnOk result (StopsAt line.new.items 10) }
    ensures bytes { OnOk result (IfSome (reader_remaining R.remaining input.old) (λ xs. line.new.items ≡ take_through 10 xs)) }
    ensures rest { OnOk result (DropsThrough (reader_remaining R.remaining input.old) (reader_remaining R.remaining input.new) 10) }
    ensures written { OnOk result (Keeps (W.contents out.old) (W.contents out.new)) }
{
    if input.buffer().is_empty() {
        out.flush()?;
    }
    line.clear();
    Ok(input.read_until(b'\n', line)? > 0)
}
