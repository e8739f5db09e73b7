// The program export: runs the records of standard input and prints at their end the counters that they left, as CSV: a line of names, then one for the
// attribute whose register the first argument names, or thirteen.
//
//     attribute,tp0,tp1,tp2,tp3,tp4,tp5,tp6,tp7,aui
//     Readable Octets,64,0,0,0,0,0,0,0,0
//
// The second argument may name a start file. How many records were turned away is told on standard error.
#![tactic(auto)]

ghost use Rattle.std.specs.Prelude.{◌≡◌, ◌≤◌, IfSome};
ghost use Rattle.attributes.specs.Nine.{counter_count};
ghost use Rattle.tally.specs.Tally.{came_to};
ghost use Rattle.tally.specs.Blocks.{onward};
ghost use Rattle.export.specs.Taken.{wrapped};

use attributes::Attributes;
use chip::FlatChip;
use console::{is_given, read_full};
use host::Host;
use std::env::Env;
use std::fmt;
use std::io::Read;
use std::ops::Range;
use tally::Tallied;

// The names of the attributes, by register.
const NAMES: [&str; Attributes::COUNT] = [
    "Readable Frames",
    "Readable Octets",
    "FCS Errors",
    "Alignment Errors",
    "Frames Too Long",
    "Short Events",
    "Runts",
    "Collisions",
    "Late Events",
    "Very Long Events",
    "Data Rate Mismatches",
    "Auto Partitions",
    "Source Address Changes",
];

// An attribute's name, and its value at each port: a line of the output, but for its end.
#[derive(Clone, Copy)]
struct Line<'a> {
    name: &'a str,
    values: &'a [u32],
}

impl fmt::Display for Line<'_> {
    fn fmt<W: fmt::Write>(&self, f: &mut fmt::Formatter<W>) -> fmt::Result {
        f.write_str(self.name)?;
        for value in self.values {
            write!(f, ",{value}")?;
        }
        Ok(())
    }
}

// Takes the records of one reading, behind those before it.
fn take_more(state: Tallied, input: &[u8]) -> Tallied
    ensures { came_to result ≡ wrapped (onward (came_to state) input.now) }
{
    let t = tally::take_all(state.chip, state.host, input);
    Tallied {
        refused: state.refused.wrapping_add(t.refused),
        ..t
    }
}

// Reading after reading, and what the records of all leave. A reading that does not fill the buffer is the last, so no other ends in a piece of a record. A
// proved loop has to end, so the readings are counted, up to a number that no run comes to.
// The buffer is an array, and what was read of it is lent as a slice. totals has such a loop: one function for both would have to ask that what it is lent may be called, and public functions here ask for nothing.
fn pump(input: &mut impl Read, first: Tallied, buf: &mut [u8]) -> Tallied {
    let mut state = first;
    for _ in 0..u64::MAX {
        let n = read_full(input, buf);
        state = take_more(state, &buf[..n]);
        if n < buf.len() {
            break;
        }
    }
    state
}

// The lines of the registers that are asked for. Text that cannot be written is lost.
fn say_lines(rt: &impl Print, counters: &[u32], asked: Range<usize>)
    requires { asked.end ≤ counter_count }
{
    let _ = println!(rt; "attribute,tp0,tp1,tp2,tp3,tp4,tp5,tp6,tp7,aui");
    for register in asked {
        let line = Line {
            name: NAMES[register],
            values: attributes::attribute(counters, register),
        };
        let _ = println!(rt; "{line}");
    }
}

// How many records were turned away, if any.
fn tell_refused(rt: &impl Eprint, n: u64) {
    let _ = match n {
        0 => Ok(()),
        1 => eprintln!(rt; "export: 1 record refused"),
        n => eprintln!(rt; "export: {n} records refused"),
    };
}

// Runs from a chip at power-up, and prints what is asked for. It is a function of its own in the built program too, so that its buffer takes no stack while a start file is
// refused.
#[inline(never)]
fn run_from(rt: &HostRuntime, chip: FlatChip, asked: Range<usize>)
    requires { asked.end ≤ counter_count }
{
    let mut input = rt.stdin();
    let mut buf = [0u8; 65536];
    let first = Tallied {
        chip,
        host: Host::power_up(),
        refused: 0,
    };
    let left = pump(&mut input, first, &mut buf);
    tell_refused(rt, left.refused);
    say_lines(rt, &left.chip.flat.counters, asked);
}

// The registers that a word asks for: one from 0 to 12 in decimal, or all. Any other word asks for nothing.
fn asked_by(word: &[u8]) -> Option<Range<usize>>
    ensures { IfSome result (λ asked. asked.end ≤ counter_count) }
{
    let register = match word {
        b"all" => return Some(0..Attributes::COUNT),
        [digit @ b'0'..=b'9'] => digit - b'0',
        [b'1', digit @ b'0'..=b'2'] => 10 + (digit - b'0'),
        _ => return None,
    };
    let first = usize::from(register);
    Some(first..first + 1)
}

// What the first argument asks for. It is a function of its own in the built program too, so that its buffer is given back before a start file is read.
#[inline(never)]
fn asked(rt: &impl Env) -> Option<Range<usize>>
    ensures { IfSome result (λ asked. asked.end ≤ counter_count) }
{
    let mut word = [0u8; 4096];
    let n = rt.arg(1, &mut word).unwrap_or(0);
    asked_by(&word[..n])
}

fn main(rt: HostRuntime) {
    if !is_given(rt.arg(1, &mut [])) || is_given(rt.arg(3, &mut [])) {
        let _ = eprintln!(rt;
            "export: expected an attribute, and behind it perhaps the name of a start file"
        );
        return;
    }
    let Some(asked) = asked(&rt) else {
        let _ = eprintln!(rt;
            "export: an attribute is the number of its register, 0 to 12, or all"
        );
        return;
    };
    if let Some(chip) = opening::chip(&rt, "export", 2) {
        run_from(&rt, chip, asked);
    }
}
