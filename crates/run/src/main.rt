// The run program: reads records from standard input, has each whole block answered, and writes the lines. Everything that matters is in the library below it.
// An optional argument names a start file with counters, addresses and choices.
#![tactic(auto)]

ghost use Rattle.std.specs.Prelude.{◌+◌, ◌≤◌, ◌<◌, ◌≡◌, length, take, drop};
ghost use Rattle.record.specs.Record.{record_length};
ghost use Rattle.run.specs.Kept.{Kept};

use chip::FlatChip;
use console::is_given;
use opening::State;
use std::env::Env;
use std::io::{Read, Write};

// The bytes of each of the two buffers, for what is read and for the lines. They are arrays beside the numbers of bytes in them: no heap is used, and `Kept` speaks
// of buffer and number each.
const BUFFER: usize = 65536;

// After the whole records of a reading: the state, how many bytes are left over, and how many bytes the lines have.
#[derive(Clone, Copy)]
struct Done {
    state: State,
    left: usize,
    used: usize,
}

// Reads once behind the bytes that are kept, which stay, and tells how many there are then. A read that fails ends the input.
fn fill(input: &mut impl Read, buf: &mut [u8], have: usize) -> usize
    requires { have ≤ length buf.old }
    ensures { (have ≤ result) × (result ≤ length buf.new) × (take have buf.new ≡ take have buf.old) }
{
    have + input.read(&mut buf[have..]).unwrap_or(0)
}

// The last piece, where there is one that is not whole: it is a record too.
fn finish(output: &mut impl Write, number: u64, piece: &[u8], out: &mut [u8; BUFFER])
    requires { length piece.now < record_length }
{
    if piece.is_empty() {
        return;
    }
    let n = block::answer_piece(number, piece, out);
    if let Some(line) = out.get(..n) {
        let _ = output.write_all(line);
    }
}

// Answers the whole records among the buffer's first bytes, and moves what is left of these bytes to the front.
fn work(state: State, total: usize, buf: &mut [u8; BUFFER], out: &mut [u8; BUFFER]) -> Done
    requires { total ≤ length buf.old }
    ensures { Kept state (take total buf.old) out.old result buf.new out.new }
{
    let b = block::answer_block(state.chip, state.host, state.number, &buf[..total], out);
    buf.copy_within(b.at..total, 0);
    Done {
        state: State {
            chip: b.chip,
            host: b.host,
            number: b.number,
        },
        left: total - b.at,
        used: b.used,
    }
}

// Reading after reading: its answers and one writing. The end of the input ends it, and so does an output that is closed. A proved loop has to end, so the
// readings are counted, up to a number that no run comes to.
// Not one function with tell's: tell reads on to the end of a cut record, and here the next reading goes on with it.
fn pump(
    input: &mut impl Read,
    output: &mut impl Write,
    first: State,
    buf: &mut [u8; BUFFER],
    out: &mut [u8; BUFFER],
) {
    let mut state = first;
    let mut have = 0;
    for _ in 0..u64::MAX {
        let total = fill(input, buf, have);
        if total == have {
            return finish(output, state.number, &buf[..have], out);
        }
        let done = work(state, total, buf, out);
        if output.write_all(&out[..done.used]).is_err() {
            return;
        }
        state = done.state;
        have = done.left;
    }
}

// Runs from a chip at power-up. It is a function of its own in the built program too: tests/frames.py reads there how much stack the burst takes, beside the two
// buffers.
#[inline(never)]
fn run_from(rt: &HostRuntime, chip: FlatChip) {
    let mut input = rt.stdin();
    let mut output = rt.stdout();
    let mut buf = [0u8; BUFFER];
    let mut out = [0u8; BUFFER];
    let first = State::first(chip);
    pump(&mut input, &mut output, first, &mut buf, &mut out);
}

// tell has a main of this shape: its name, its words and its buffers are its own, and a function of both would be given all of them.
fn main(rt: HostRuntime) {
    if is_given(rt.arg(2, &mut [])) {
        let _ = eprintln!(rt; "run: at most one argument, the name of a start file");
        return;
    }
    if let Some(chip) = opening::chip(&rt, "run", 1) {
        run_from(&rt, chip);
    }
}
