// Certifies the plan file on standard input and prints the certificate, or why there is none.
#![tactic(auto)]

ghost use Rattle.std.specs.Prelude.{◌≡◌, ◌≤◌, length, take, IfOk, IfSome};
ghost use Rattle.firmware.specs.Certificates.{file_certificate};
ghost use Rattle.firmware.specs.Text.{bytes_of, content, laid_out, text_of};

use certificate::Certificate;
use firmware::{Text, certify_file, lay_out};
use planfile::Fault;
use std::alloc::Global;
use std::io::Read;
use std::{env, io};

#[cfg(test)]
mod tests;

// The file is the input's first bytes, so many at most.
const MOST_BYTES: usize = 65_536;

const USAGE: &str = "usage: certify < FILE

Reads a plan file from standard input, the first 65,536 bytes of it, and prints its certificate:

    volume V      the sum of the steps' worst-case times
    length L      the greatest time of a path
    deadline D    in ticks
    least Y       the least yield of the granted cores up to the deadline
    certified     or 'refused 11' where the least yield is below the volume

A file that cannot be read as a plan is answered by one line, 'refused N at P':
the number of the cause and the byte of the file. The status is 0 in all these cases.";

// Reads up to the end of the input or of the memory, and answers how many bytes came. Each read asks for all that there is
// room for, since of an input that comes in messages a shorter read would lose the rest of one.
fn fill<R: Read>(input: &mut R, memory: &mut [u8]) -> io::Result<usize>
    ensures within { IfOk result (λ filled. filled ≤ length memory.new) }
    ensures first { IfOk result (λ filled. IfSome (R.Read.remaining input.old) (λ bytes. take filled memory.new ≡ take (length memory.old) bytes)) }
{
    let mut filled = 0;
    while filled < memory.len() {
        let count = input.read(&mut memory[filled..])?;
        if count == 0 {
            break;
        }
        filled += count;
    }
    Ok(filled)
}

// Reads the input up to its end or to the most bytes.
fn read_input<R: Read>(alloc: Global, input: &mut R) -> io::Result<Vec<u8>>
    ensures few { IfOk result (λ file. length file.items ≤ 65536) }
    ensures first { IfOk result (λ file. IfSome (R.Read.remaining input.old) (λ bytes. file.items ≡ take 65536 bytes)) }
{
    let mut file = vec![in alloc; 0u8; MOST_BYTES]?;
    let filled = fill(input, &mut file)?;
    file.truncate(filled);
    Ok(file)
}

// The certificate of a file; what its reader refuses goes on unchanged.
fn certificate(file: &[u8]) -> Result<Certificate, Fault>
    ensures { result ≡ file_certificate file.now }
{
    Ok(certify_file(file)?)
}

// What is printed for a file.
fn answer(file: &[u8]) -> Text
    ensures bytes { bytes_of (content result) ≡ laid_out (file_certificate file.now) }
    ensures content { content result ≡ text_of (file_certificate file.now) }
{
    lay_out(certificate(file))
}

fn main(rt: HostRuntime) -> io::Result<()> {
    if env::args(&rt)?.count() > 1 {
        return println!(rt; "{USAGE}");
    }
    let file = read_input(rt.alloc(), &mut rt.stdin())?;
    rt.write_all(answer(&file).filled())
}
