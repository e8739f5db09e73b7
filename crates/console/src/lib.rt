// What the programs share: whether an argument was given, and reading until a buffer is full. Nothing of the chip is in it.
#![tactic(auto)]

ghost use Rattle.std.specs.Prelude.{◌≡◌, ◌≢◌, ◌↔◌, IsTrue, Err, ◌≤◌, length, take};
ghost use Rattle.std.specs.Io.KnownBytes.{Consumes};

use std::env::FillError;
use std::io::Read;

// Whether an argument was given, by the answer to a question for it. One that is too long for the buffer was given too.
pub fn is_given(answer: Result<usize, FillError>) -> bool
    ensures { IsTrue result ↔ (answer ≢ Err FillError.NotPresent) }
{
    !matches!(answer, Err(FillError::NotPresent))
}

// Reads until the buffer is full, the input ends or a read fails, and tells how many bytes came. Each reading that goes on gives one byte at least.
pub fn read_full<R: Read>(input: &mut R, buf: &mut [u8]) -> usize
    ensures bound { result ≤ length buf.new }
    ensures bytes { Consumes (R.remaining input.old) (R.remaining input.new) (take result buf.new) }
{
    // The place moves on by what came, so no chain of an iterator fits.
    let mut done = 0;
    for _ in 0..buf.len() {
        if done == buf.len() {
            break;
        }
        match input.read(&mut buf[done..]) {
            Ok(0) | Err(_) => break,
            Ok(n) => done += n,
        }
    }
    done
}

#[cfg(test)]
mod tests {
    use super::*;
    use std::env::Env;

    #[test]
    fn pieces_fill_a_buffer_one_after_the_other(rt: HostRuntime) {
        let front: &[u8] = &[1];
        let back: &[u8] = &[2, 3, 4, 5];
        let mut input = front.chain(back);
        let mut buf = [0u8; 3];
        assert_eq!(rt; read_full(&mut input, &mut buf), 3);
        assert_eq!(rt; buf.as_slice(), [1u8, 2, 3].as_slice());
        assert_eq!(rt; read_full(&mut input, &mut buf), 2);
        assert_eq!(rt; buf[..2], [4u8, 5][..]);
        assert_eq!(rt; read_full(&mut input, &mut buf), 0);
    }

    #[test]
    fn a_word_is_given_whether_it_fits_or_not(rt: HostRuntime) {
        assert!(rt; is_given(rt.arg(0, &mut [])));
        assert!(rt; is_given(Ok(0)));
        assert!(rt; !is_given(rt.arg(9, &mut [])));
    }
}
