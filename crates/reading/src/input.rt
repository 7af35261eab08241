// The file on standard input.
ghost use Rattle.reading.specs.Counts.{IsPrefixLen};

use std::env::FillError;
use std::io;
use std::io::Read;
use std::rt::Env;

// How many bytes of standard input a program has room for: more than any account file that is accepted.
pub const ROOM: usize = 65536;

// Whether standard input was read until its end or until the memory was full, and how many bytes stand in front there.
#[derive(Clone, Copy)]
pub struct Input {
    pub whole: bool,
    pub bytes: usize,
}

// Whether the program was called with no words; if not, how it is called is said on standard error.
pub fn called_alone(rt: &HostRuntime, usage: &[u8]) -> bool {
    let mut word = [0u8; 1];
    if let Err(FillError::NotPresent) = rt.arg(1, &mut word) {
        return true;
    }
    let _ = rt.stderr().write_all(usage);
    false
}

// Whether standard input has ended where a read brought nothing; if it failed, why is said on standard error.
fn has_ended(rt: &impl Eprint, read: io::Result<usize>) -> bool {
    match read {
        Ok(_) => true,
        Err(e) => {
            let _ = eprintln!(rt; "standard input: {e}");
            false
        }
    }
}

// Reads standard input into `file`. Where it cannot be read to its end, that is said on standard error.
pub fn read_input(rt: &(impl io::Input + Eprint), file: &mut [u8]) -> Input
    ensures { IsPrefixLen result.bytes file.new }
{
    let mut input = rt.reader();
    let mut bytes = 0;
    // A while: a read brings as many bytes as it brings.
    while bytes < file.len() {
        match input.read(&mut file[bytes..]) {
            Ok(n) if 0 < n => bytes += n,
            read => {
                let whole = has_ended(rt, read);
                return Input { whole, bytes };
            }
        }
    }
    Input { whole: true, bytes }
}
