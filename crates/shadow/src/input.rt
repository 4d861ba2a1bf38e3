ghost use Rattle.std.specs.Prelude.{◌≡◌, take, IfOk, IfSome};

use arrayvec::ArrayVec;
use shadows::file::FRONT;
use std::io;
use std::io::Read;

// The front of what a reader has to give, as far as the answer to it depends on it. The reader may have no end; an error of its
// own is handed on.
pub(crate) fn read_front<R: Read + Drop>(reader: R) -> io::Result<ArrayVec<u8, FRONT>>
    ensures { IfOk result (λ front. IfSome (R.Read.remaining reader) (λ xs. front.items ≡ take 30841 xs)) }
{
    let mut front = ArrayVec::new();
    io::copy(&mut reader.take(FRONT as u64), &mut front)?;
    Ok(front)
}
