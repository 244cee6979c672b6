// How standard input is read and standard output written.
ghost use Rattle.std.specs.Prelude.{◌≤◌, length, take, IsOk, IfOk};
ghost use Rattle.std.specs.Io.KnownBytes.{Consumes};

use std::fmt::Display;
use std::io;
use std::io::Read;

// Prints, and goes on where a write fails. What these programs print is compared with what they must print, so a write that failed is
// seen there.
#[derive(Clone, Copy)]
pub struct Regardless<R>(pub R);

impl<R: Print> Print for Regardless<R> {
    fn print<D: Display + Drop>(&self, value: D) -> io::Result<()>
        ensures { IsOk result }
    {
        let _ = self.0.print(value);
        Ok(())
    }

    fn println<D: Display + Drop>(&self, value: D) -> io::Result<()>
        ensures { IsOk result }
    {
        let _ = self.0.println(value);
        Ok(())
    }

    fn write_all(&self, bytes: &[u8]) -> io::Result<()>
        ensures { IsOk result }
    {
        let _ = self.0.write_all(bytes);
        Ok(())
    }

    // A write that failed counts as one of all bytes.
    fn write_some(&self, bytes: &[u8]) -> io::Result<usize>
        ensures ok { IsOk result }
        ensures bound { IfOk result (λ n. n ≤ length bytes.now) }
    {
        Ok(self.0.write_some(bytes).unwrap_or(bytes.len()))
    }
}

// Reads until `block` is full, the input ends or a read fails. Tells how many bytes it read, which begin `block`.
pub fn read_block<R: Read>(input: &mut R, block: &mut [u8]) -> usize
    ensures within { result ≤ length block.new }
    ensures bytes { Consumes (R.remaining input.old) (R.remaining input.new) (take result block.new) }
{
    let mut done = 0;
    // A read tells how much it brought, so no iterator knows the reads beforehand.
    while done < block.len() {
        match input.read(&mut block[done..]) {
            Ok(n) if 0 < n => done += n,
            _ => break,
        }
    }
    done
}
