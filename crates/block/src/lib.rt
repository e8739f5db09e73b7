// A block of records answered: the function that the run program calls with what it has read.
#![tactic(auto)]

ghost use Rattle.block.specs.Block.{standing, came_to, Answered, AnsweredPiece};

use answer::Answer;
use chip::FlatChip;
use host::Host;
use record::{Access, Asked, Record, Refusal};

// How far a block came: the chip and the host's record after it, the number of the next record, and how many bytes of the input were taken and of the
// buffer used.
#[derive(Clone, Copy)]
pub struct Block {
    pub chip: FlatChip,
    pub host: Host,
    pub number: u64,
    pub at: usize,
    pub used: usize,
}

// Answers every whole record of the input that there is room for and puts the lines into the buffer, one after the other. The core, the counters with
// the addresses, and the host's record are kept apart, and what a record asks for touches only what it changes: so each has its own way through the loop.
// The counters and addresses are lent to what changes or reads them, and never copied.
pub fn answer_block(chip: FlatChip, h: Host, first: u64, input: &[u8], out: &mut [u8]) -> Block
    ensures { Answered (standing chip h) first input.now out.old (came_to result out.new) }
{
    let mut core = chip.core;
    let mut flat = chip.flat;
    let mut record = h;
    let mut number = first;
    let mut at: usize = 0;
    let mut used: usize = 0;
    for piece in input.chunks_exact(Record::LENGTH) {
        if out.len() - used < Answer::ROOM {
            break;
        }
        let r = record::read_record(piece);
        let line = number;
        number = line.wrapping_add(1);
        at += Record::LENGTH;
        match r.asked {
            Asked::Burst(b) => {
                let t = himib::burst(core, &mut flat, b, r.source);
                core = t.core;
                used = answer::put_line(out, used, line, t.answer);
                continue;
            }
            Asked::Quiet(quiet) => {
                core = core.pass(quiet);
                used = answer::put_line(out, used, line, Answer::Done);
                continue;
            }
            Asked::Access(Access::WriteC(byte)) => {
                record = host::select(record, byte);
                used = answer::put_line(out, used, line, Answer::Done);
                continue;
            }
            Asked::Access(Access::WriteD(byte)) => {
                let t = access::write_d(core, record, byte);
                core = t.core;
                record = t.host;
                himib::write_address(&mut flat, t.port, t.host.bytes);
                used = answer::put_line(out, used, line, t.answer);
                continue;
            }
            Asked::Access(Access::ReadC) => {
                let t = access::read_c(core, record);
                core = t.core;
                used = answer::put_line(out, used, line, t.answer);
                continue;
            }
            Asked::Access(Access::ReadD) => {
                let t = access::read_d(core, &flat, record);
                core = t.core;
                record = t.host;
                used = answer::put_line(out, used, line, t.answer);
                continue;
            }
            Asked::Reset => {
                core = core.reset();
                record = Host::power_up();
                used = answer::put_line(out, used, line, Answer::Done);
                continue;
            }
            Asked::Refused(k) => {
                used = answer::put_line(out, used, line, Answer::Refused(k));
                continue;
            }
        }
    }
    Block {
        chip: FlatChip { core, flat },
        host: record,
        number,
        at,
        used,
    }
}

// The line of a last piece that is no whole record: it is turned away with 9, whatever it holds. A whole record gets no line here.
pub fn answer_piece(number: u64, piece: &[u8], out: &mut [u8]) -> usize
    ensures { AnsweredPiece number piece.now out.old out.new result }
{
    if piece.len() == Record::LENGTH {
        return 0;
    }
    answer::put_line(
        out,
        0,
        number,
        Answer::Refused(u8::from(Refusal::WrongLength)),
    )
}
