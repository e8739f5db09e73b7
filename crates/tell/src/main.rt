// The program tell: reads records from standard input, as many as have come, and writes for each the line that tells it. What it reads is taken as the run
// program takes it, and the optional argument is the same start file.
#![tactic(auto)]

ghost use Rattle.std.specs.Prelude.{◌≡◌, ◌+◌, ◌≤◌, length};
ghost use Rattle.tell.specs.Taken.{input_length, Taken};

use chip::FlatChip;
use console::{is_given, read_full};
use opening::State;
use record::Record;
use std::env::Env;
use std::io::{Read, Write};

// The bytes of the buffer for what is read. It and the next are arrays beside the numbers of bytes in them: no heap is used, and `Taken` speaks of buffer and number
// each.
const INPUT: usize = 4096;

// The bytes of the buffer for the lines.
const OUTPUT: usize = 65536;

// After some records: the state, and how many bytes their lines have.
#[derive(Clone, Copy)]
struct Done {
    state: State,
    used: usize,
}

// Takes the bytes of one record, and puts its line behind the bytes that are used.
fn take_one(state: State, piece: &[u8], out: &mut [u8], used: usize) -> Done
    ensures { Taken state piece.now out.old used result out.new }
{
    let told = telling::tell(state.chip, state.host, state.number, piece, out, used);
    Done {
        state: State {
            chip: told.chip,
            host: told.host,
            number: state.number.wrapping_add(1),
        },
        used: told.next,
    }
}

// Takes the records of one reading, one after the other. A piece at their end that is not whole is a record too.
fn take_all(state: State, bytes: &[u8], out: &mut [u8; OUTPUT]) -> Done
    requires { length bytes.now ≤ input_length }
    ensures { result.used ≤ length out.new }
{
    let mut done = Done { state, used: 0 };
    for piece in bytes.chunks(Record::LENGTH) {
        done = take_one(done.state, piece, out, done.used);
    }
    done
}

// Reads once, and a record that is cut to its end. A piece that is not whole is then the last of the input. A read that fails ends
// the input.
fn fill(input: &mut impl Read, buf: &mut [u8; INPUT]) -> usize
    ensures { result ≤ length buf.new }
{
    let got = input.read(buf).unwrap_or(0);
    let end = got.next_multiple_of(Record::LENGTH);
    got + read_full(input, &mut buf[got..end])
}

// Reading after reading: its lines and one writing. The end of the input ends the run, and so does an output that is closed. A proved loop has to end, so the
// readings are counted, up to a number that no run comes to.
// Not one function with run's: run keeps the bytes of a cut record for the next reading, and here it is read to its end.
fn pump(
    input: &mut impl Read,
    output: &mut impl Write,
    first: State,
    buf: &mut [u8; INPUT],
    out: &mut [u8; OUTPUT],
) {
    let mut state = first;
    for _ in 0..u64::MAX {
        let total = fill(input, buf);
        if total == 0 {
            return;
        }
        let done = take_all(state, &buf[..total], out);
        let written = output.write_all(&out[..done.used]).is_ok();
        if !written || total % Record::LENGTH != 0 {
            return;
        }
        state = done.state;
    }
}

// Runs from a chip at power-up. It is a function of its own in the built program too, so that its buffers take no stack while a start file is refused.
#[inline(never)]
fn run_from(rt: &HostRuntime, chip: FlatChip) {
    let mut input = rt.stdin();
    let mut output = rt.stdout();
    let mut buf = [0u8; INPUT];
    let mut out = [0u8; OUTPUT];
    let first = State::first(chip);
    pump(&mut input, &mut output, first, &mut buf, &mut out);
}

fn main(rt: HostRuntime) {
    if is_given(rt.arg(2, &mut [])) {
        let _ = eprintln!(rt; "tell: at most one argument, the name of a start file");
        return;
    }
    if let Some(chip) = opening::chip(&rt, "tell", 1) {
        run_from(&rt, chip);
    }
}
