// What the programs read, from files and from standard input.
#![tactic(auto)]

ghost use Rattle.std.specs.Prelude.{◌≡◌, ◌<◌, ◌≤◌, length, take, IfOk, Ok};
ghost use Rattle.std.specs.Io.{ReadsAtMost};
ghost use Rattle.std.specs.Io.KnownBytes.{Consumes, IsAtEnd};

use std::io::Read;
use std::rt::Files;
use std::{fs, io};

// Reads until the buffer is full or there is no more to read; how many bytes were put at its start.
pub fn read_full<R: Read>(reader: &mut R, buffer: &mut [u8]) -> io::Result<usize>
    ensures within { ReadsAtMost result buffer.new }
    ensures bytes { IfOk result (λ n. Consumes (R.remaining reader.old) (R.remaining reader.new) (take n buffer.new)) }
    ensures end { IfOk result (λ n. n < length buffer.new → IsAtEnd (R.remaining reader.new)) }
{
    let mut done: usize = 0;
    while done < buffer.len() {
        let n = reader.read(&mut buffer[done..])?;
        if n == 0 {
            break;
        }
        done += n;
    }
    Ok(done)
}

// The bytes of a file, as far as there is room; how many were put at the buffer's start. A file that is missing has none.
pub fn read_file(rt: &impl Files, name: &str, buffer: &mut [u8]) -> io::Result<usize>
    ensures { ReadsAtMost result buffer.new }
{
    match fs::open(rt, name) {
        Ok(mut file) => read_full(&mut file, buffer),
        Err(error) if error.kind() == io::ErrorKind::NotFound => Ok(0),
        Err(error) => Err(error),
    }
}

// What a read gave; where it failed, after a line on standard error that names what was read.
pub fn named(rt: &impl Eprint, name: &str, read: io::Result<usize>) -> io::Result<usize>
    ensures { IfOk result (λ n. read ≡ Ok n) }
{
    if read.is_err() {
        eprintln!(rt; "{name} could not be read")?;
    }
    read
}

// The same, where no more than so many bytes may come; of more a line on standard error says so.
pub fn at_most(
    rt: &impl Eprint,
    name: &str,
    most: usize,
    read: io::Result<usize>,
) -> io::Result<usize>
    ensures { IfOk result (λ n. (read ≡ Ok n) × (n ≤ most)) }
{
    let n = named(rt, name, read)?;
    if most < n {
        eprintln!(rt; "{name} is longer than {most} bytes")?;
        return Err(io::Error::from(io::ErrorKind::FileTooLarge));
    }
    Ok(n)
}

const REGISTRY: &str = "registry.dat";

// Three times what 1,000 meters with an owner each take.
pub const REGISTRY_SIZE: usize = 262_144;

// registry.dat of the folder that a program runs in: how many bytes it has. A missing one has none, and one that is too long is said so.
pub fn read_registry(
    rt: &(impl Files + Eprint),
    buffer: &mut [u8; REGISTRY_SIZE + 1],
) -> io::Result<usize>
    ensures { IfOk result (λ n. n < length buffer.new) }
{
    let read = read_file(rt, REGISTRY, buffer);
    at_most(rt, REGISTRY, REGISTRY_SIZE, read)
}
