// Standard input, read to its end, and standard output. No contract can say what is read or written; those here say that what
// is held lies within the buffer.
ghost use Rattle.std.specs.Prelude.{◌≤◌, length, IfSome, option_copied};
ghost use Rattle.std.specs.Io.{ReadsAtMost};

use std::io;
use std::io::Read;

// One byte more than a sheet may have: a longer one is refused by these bytes alone (`judged_held`).
pub const SHEET: usize = 16385;

// So many bytes at most are thrown away by one read; `io::copy` takes an eighth of them.
const CHUNK: usize = 65536;

// Reads to the end, and throws away what is read: whoever writes into a pipe must not be stopped because the rest is of no use.
fn pass_rest(reader: &mut impl Read) -> io::Result<()> {
    let mut chunk = [0u8; CHUNK];
    for _ in 0..u64::MAX {
        if reader.read(&mut chunk)? == 0 {
            break;
        }
    }
    Ok(())
}

// Reads to the end, and says how many bytes the buffer holds: as many as it takes. A loop must be seen to end, and nothing says
// that the input does: so it takes no more turns than a number that no run uses up.
fn read_all(reader: &mut impl Read, buffer: &mut [u8]) -> io::Result<usize>
    ensures { ReadsAtMost result buffer.new }
{
    let mut held = 0;
    for _ in 0..u64::MAX {
        let got = reader.read(&mut buffer[held..])?;
        if got == 0 {
            break;
        }
        held += got;
    }
    if held == buffer.len() {
        pass_rest(reader)?;
    }
    Ok(held)
}

// Reads standard input to its end, and gives as much of it as the buffer takes. Where that fails it says so.
pub fn read<'a>(rt: &(impl io::Input + Eprint), buffer: &'a mut [u8]) -> Option<&'a [u8]>
    ensures { IfSome (option_copied result) (λ held. length held ≤ length buffer.old) }
{
    match read_all(&mut rt.reader(), buffer) {
        Ok(held) => Some(&buffer[..held]),
        Err(_) => {
            let _ = eprintln!(rt; "cannot read standard input");
            None
        }
    }
}

// Prints all of the text, and where that fails says so.
pub fn print(rt: &(impl Print + Eprint), text: &[u8]) {
    if rt.write_all(text).is_err() {
        let _ = eprintln!(rt; "cannot write standard output");
    }
}
