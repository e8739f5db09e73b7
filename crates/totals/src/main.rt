// The program totals: adds up the differences of the readings of one counter that come on standard input, each a later reading minus the one before it
// modulo 2^32. A reading is four bytes, the least significant first. The sum is printed at the end of the input; for the readings 4294967295, 2 and 1 it is
//
//     4294967298
//
// Where the input ends within a reading, or where the sum does not fit in 64 bits, that is told on standard error, and no sum is printed.
#![tactic(auto)]

ghost use Rattle.std.specs.Prelude.{◌≡◌};
ghost use Rattle.totals.specs.Taken.{nothing_yet, taken_on, outcome_of};

use chain::Chain;
use console::{is_given, read_full};
use std::error::Error;
use std::fmt;
use std::io::Read;
use std::rt::Env;

// Why there is no sum.
#[derive(Clone, Copy, Debug, PartialEq, Eq)]
enum Unsummed {
    // So many bytes stand behind the last whole reading.
    Left(usize),
    // 64 bits do not hold it.
    NoFit,
}

impl fmt::Display for Unsummed {
    fn fmt<W: fmt::Write>(&self, f: &mut fmt::Formatter<W>) -> fmt::Result {
        match self {
            Unsummed::Left(1) => write!(f, "behind the last whole reading is 1 byte more"),
            Unsummed::Left(n) => write!(f, "behind the last whole reading are {n} bytes more"),
            Unsummed::NoFit => write!(f, "the sum reaches 2^64 and does not fit in 64 bits"),
        }
    }
}

impl Error for Unsummed {}

// What the readings so far come to, and how many bytes of the last stretch of input stand behind its last whole reading.
#[derive(Clone, Copy)]
struct Taken {
    chain: Chain,
    rest: usize,
}

impl Taken {
    fn nothing_yet() -> Self
        ensures { result ≡ nothing_yet }
    {
        Self {
            chain: Chain::none(),
            rest: 0,
        }
    }

    // The readings of one stretch of input, behind those before it.
    fn followed_by(self, input: &[u8]) -> Self
        ensures { result ≡ taken_on self input.now }
    {
        Self {
            chain: chain::take_readings(self.chain, input),
            rest: input.len() % Chain::READING,
        }
    }

    // What there is to say at the end: the sum, or why there is none.
    #[tactic(auto, unfolding(crate::specs::Taken::outcome_of))]
    fn outcome(self) -> Result<u64, Unsummed>
        ensures { result ≡ outcome_of self }
    {
        if 0 < self.rest {
            return Err(Unsummed::Left(self.rest));
        }
        self.chain.total.ok_or(Unsummed::NoFit)
    }
}

// Stretch after stretch of the input. One that does not fill the buffer is the last, so no other ends in a piece of a reading. A proved loop has to end, and
// no run comes to the last of these turns.
fn take_all(input: &mut impl Read, buf: &mut [u8]) -> Taken {
    let mut taken = Taken::nothing_yet();
    for _ in 0..u64::MAX {
        let n = read_full(input, buf);
        taken = taken.followed_by(&buf[..n]);
        if n < buf.len() {
            break;
        }
    }
    taken
}

// Text that cannot be written is lost.
fn tell(rt: &(impl Print + Eprint), outcome: Result<u64, Unsummed>) {
    let _ = match outcome {
        Ok(sum) => println!(rt; "{sum}"),
        Err(unsummed) => eprintln!(rt; "totals: {unsummed}"),
    };
}

fn main(rt: HostRuntime) {
    if is_given(rt.arg(1, &mut [])) {
        let _ = eprintln!(rt; "totals: expected no argument, the readings come on standard input");
        return;
    }
    let mut input = rt.stdin();
    let mut buf = [0u8; 65536];
    tell(&rt, take_all(&mut input, &mut buf).outcome());
}
