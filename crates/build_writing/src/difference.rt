//! Where what was read is not what was written.
ghost use Rattle.std.specs.Prelude.{◌≡◌, IfErr, IfOk, MatchOption, slice_get};
ghost use Rattle.build_writing.specs.Files.{DifferAt};
ghost use Rattle.build_writing.specs.Steps.{EndsComparing};

use crate::fault::WritingFault;

/// What was read of the file of that number, where it is what was written.
pub(crate) fn compared(file: usize, wrote: &[u8], read: Vec<u8>) -> Result<Vec<u8>, WritingFault>
    ensures same { IfOk result (λ bytes. (bytes.items ≡ read.items) × (bytes.items ≡ wrote.now)) }
    ensures ended { IfErr result (EndsComparing file wrote.now read.items) }
{
    match first_difference(wrote, &read) {
        None => Ok(read),
        Some(at) => Err(differs(file, wrote, &read, at)),
    }
}

/// That the bytes differ there.
fn differs(file: usize, wrote: &[u8], read: &[u8], at: usize) -> WritingFault
    requires { DifferAt wrote.now read.now at (slice_get wrote.now at) (slice_get read.now at) }
    ensures { EndsComparing file wrote.now read.now result }
{
    WritingFault::Differs {
        file,
        at,
        wrote: wrote.get(at).copied(),
        read: read.get(at).copied(),
    }
}

/// The number of the first byte at which the two are not the same, the end of one being like no byte.
fn first_difference(left: &[u8], right: &[u8]) -> Option<usize>
    ensures { MatchOption result (right.now ≡ left.now) (λ at. DifferAt left.now right.now at (slice_get left.now at) (slice_get right.now at)) }
{
    let mut at = 0;
    while at < left.len() && at < right.len() {
        if left[at] != right[at] {
            return Some(at);
        }
        at += 1;
    }
    if left.len() == right.len() {
        None
    } else {
        Some(at)
    }
}
