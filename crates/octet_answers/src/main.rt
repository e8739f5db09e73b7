// Reads pairs of readings from standard input and prints what the octet check answers to each: the difference of the frames, the difference of the
// octets, and yes, no or the number that the check is turned away with.
//
//     2 128 yes
//     2829360 0 10
//
// A pair is sixteen bytes: frames earlier and later, octets earlier and later, each in four bytes, the least significant first. At most 4,096 pairs are
// read, and a piece that is not whole is left out.
#![tactic(auto)]

ghost use Rattle.std.specs.Prelude.{◌≡◌, length};

use attributes::octets;
use attributes::octets::TooManyFrames;
use console::read_full;
use std::fmt;

// The bytes of a pair.
const PAIR: usize = 16;

// What the octet check answers, as it is printed.
#[derive(Clone, Copy)]
struct Answer(Result<bool, TooManyFrames>);

impl fmt::Display for Answer {
    fn fmt<W: fmt::Write>(&self, f: &mut fmt::Formatter<W>) -> fmt::Result {
        match self.0 {
            Ok(true) => write!(f, "yes"),
            Ok(false) => write!(f, "no"),
            Err(turned_away) => write!(f, "{turned_away}"),
        }
    }
}

// The line of a pair, by one call for all answers: each has a buffer on the stack. Text that cannot be written is lost.
fn line(rt: &impl Print, pair: &[u8])
    requires { length pair.now ≡ 16 }
{
    let frames_before = spelling::four(pair[0], pair[1], pair[2], pair[3]);
    let frames_after = spelling::four(pair[4], pair[5], pair[6], pair[7]);
    let octets_before = spelling::four(pair[8], pair[9], pair[10], pair[11]);
    let octets_after = spelling::four(pair[12], pair[13], pair[14], pair[15]);
    let frames = octets::difference(frames_after, frames_before);
    let moved = octets::difference(octets_after, octets_before);
    let answer = Answer(octets::octet_check(frames, moved));
    let _ = println!(rt; "{frames} {moved} {answer}");
}

fn main(rt: HostRuntime) {
    let mut input = rt.stdin();
    let mut pairs = [0u8; 65536];
    let n = read_full(&mut input, &mut pairs);
    for pair in pairs[..n].chunks_exact(PAIR) {
        line(&rt, pair);
    }
}
