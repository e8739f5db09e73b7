// Makes single steps by `himib::step` and prints the line of each: four link pulses at TP0 and TP1, then a burst of TP0. These are the first five records
// of document 01's sample.
//
// The step is called from two places, so that the compiler keeps it as a function of its own. tests/frames.py reads in the built program how much stack
// it takes.
#![tactic(auto)]

use answer::Answer;
use attributes::Flat;
use chip::{Choices, FlatChip, FlatSupply, Kept};
use host::Host;
use record::Kind;

// A chip and the host's record.
#[derive(Clone, Copy)]
struct State {
    chip: FlatChip,
    host: Host,
}

// Writes the line of a record; the buffer is lent for it. A line that cannot be written is lost.
fn say(rt: &impl Print, number: u64, answer: Answer, line: &mut [u8]) {
    let n = answer::put_line(line, 0, number, answer);
    if let Some(text) = line.get(..n) {
        let _ = rt.write_all(text);
    }
}

// At power-up, with nothing counted and the usual choices. Not by the crates start and opening: the stack of a step is read in a program that has little else.
fn power_up() -> State {
    let powered = FlatChip::power_up(FlatSupply {
        flat: Flat::zero(),
        kept: Kept {
            transmit_collisions: 0,
            total_octets: 0,
            choices: Choices::usual(),
        },
    });
    State {
        chip: powered.chip,
        host: Host::power_up(),
    }
}

// After four link pulses, the records 1 to 4.
fn pulsed(rt: &impl Print, state: State, pulse: &[u8], line: &mut [u8]) -> State {
    let mut after = state;
    for number in 1..5u64 {
        let stepped = himib::step(after.chip, after.host, pulse);
        say(rt, number, stepped.answer, line);
        after = State {
            chip: stepped.chip,
            host: stepped.host,
        };
    }
    after
}

// The burst, record 5.
fn bursted(rt: &impl Print, state: State, burst: &[u8], line: &mut [u8]) {
    let stepped = himib::step(state.chip, state.host, burst);
    say(rt, 5, stepped.answer, line);
}

fn main(rt: HostRuntime) {
    let mut line = [0u8; 32];
    let mut pulse = [0u8; 32];
    pulse[0] = u8::from(Kind::Pulse);
    pulse[2] = 3;
    let mut burst = [0u8; 32];
    burst[0] = u8::from(Kind::Burst);
    burst[2] = 1;
    burst[4] = 0xE8;
    burst[5] = 3;
    burst[8] = 64;
    let linked = pulsed(&rt, power_up(), &pulse, &mut line);
    bursted(&rt, linked, &burst, &mut line);
}
