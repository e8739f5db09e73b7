// All records of a stretch of input taken, for whoever asks what they leave and not what they are answered with.
#![tactic(auto)]

ghost use Rattle.std.specs.Prelude.{◌≤◌, ◌≡◌};
ghost use Rattle.tally.specs.Tally.{refusal, came_to, standing, tally_of};

use answer::Answer;
use chip::FlatChip;
use host::Host;
use record::Record;

// What the records leave: the chip and the host's record, and how many of them were turned away.
#[derive(Clone, Copy)]
pub struct Tallied {
    pub chip: FlatChip,
    pub host: Host,
    pub refused: u64,
}

// One for an answer that turns its record away, and nothing for any other.
#[tactic(auto, unfolding(himib::specs::Runs::accepted))]
fn refusal(answer: Answer) -> u64
    ensures { result ≡ refusal answer }
{
    match answer {
        Answer::Done | Answer::Sent(..) | Answer::Value(_) => 0,
        Answer::Refused(_) => 1,
    }
}

// Takes every record of the input, one after the other; what is left at its end, if it is no whole record, is a record too, and is turned away. The counters
// and addresses are lent to each record in turn, and never copied. Chip and host's record are two parameters, and what a record asks for and its source two more
// below, as the contracts of himib's functions name them.
pub fn take_all(chip: FlatChip, h: Host, input: &[u8]) -> Tallied
    ensures { came_to result ≡ tally_of (standing chip h) input.now }
{
    let mut core = chip.core;
    let mut flat = chip.flat;
    let mut host = h;
    let mut refused: u64 = 0;
    for piece in input.chunks(Record::LENGTH) {
        let r = record::read_record(piece);
        let t = himib::follow(core, &mut flat, host, r.asked, r.source);
        core = t.core;
        host = t.host;
        refused += refusal(t.answer);
    }
    Tallied {
        chip: FlatChip { core, flat },
        host,
        refused,
    }
}
