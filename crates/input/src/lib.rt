// Reading a file through a reader into lent memory. What the bytes mean is left to the crates above.
//
// No contract can say what a file gives, so of a file's bytes nothing is promised but how many are said to be read. Of a reader whose
// bytes are known, one over memory, it is promised which of them stand where. Free otherwise are the bytes of the memory after those
// that were read.
#![tactic(auto)]

ghost use Rattle.std.specs.Prelude.{◌≡◌, ◌<◌, length, take, Some, IfOk, IfErr};
ghost use Rattle.std.specs.Counts.{IsPrefixLen};
ghost use Rattle.std.specs.Io.KnownBytes.{Consumes, IsAtEnd};
ghost use Rattle.input.specs.Read.{bytes_read, cut_text};

use std::error::Error;
use std::fmt;
use std::io::Read;

// A read failed, after so many bytes were read to the front of the memory.
#[derive(Clone, Copy, Debug, PartialEq, Eq)]
pub struct Cut(pub usize);

impl fmt::Display for Cut {
    ghost output = { λ cut. Some (cut_text cut) };

    fn fmt<W: fmt::Write>(&self, f: &mut fmt::Formatter<W>) -> fmt::Result {
        write!(f, "a read failed after {} bytes", self.0)
    }
}

impl Error for Cut {}

// Reads until the memory is full, the file ends or a read fails, and answers how many bytes were read. Of a reader whose bytes are
// known, those that it gave stand at the memory's front, in order, and those after them are left to it; where no read failed and room
// is left, none is. How many bytes a read gives is not known before it: a `for` is no plainer.
#[tactic(auto, using(crate::proofs::Reading::reads_on))]
pub fn read_up_to<R: Read>(reader: &mut R, memory: &mut [u8]) -> Result<usize, Cut>
    ensures prefix_len { IsPrefixLen (bytes_read result) memory.new }
    ensures keeps { length memory.new ≡ length memory.old }
    ensures room { IfErr result (λ cut. cut.0 < length memory.new) }
    ensures bytes { Consumes (R.remaining reader.old) (R.remaining reader.new) (take (bytes_read result) memory.new) }
    ensures end { IfOk result (λ size. size < length memory.new → IsAtEnd (R.remaining reader.new)) }
{
    let mut done = 0;
    while done < memory.len() {
        let more = reader.read(&mut memory[done..]).map_err(|_| Cut(done))?;
        if more == 0 {
            break;
        }
        done += more;
    }
    Ok(done)
}
