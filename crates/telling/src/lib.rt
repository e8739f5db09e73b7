// One record told: what it was answered with, and what it left of the chip, as a line in a buffer that the caller lends. docs/REFERENCE.md has the line.
#![tactic(auto)]

ghost use Rattle.std.specs.Prelude.{◌≡◌, [], ◌+◌, ◌≤◌, length, get_or};
ghost use Rattle.attributes.specs.Flat.{nine_in};
ghost use Rattle.chip.specs.Flat.{chip_of};
ghost use Rattle.answer.specs.Put.{Put};
ghost use Rattle.telling.specs.Telling.{spelt, told_as, moved_of, status_of, words_of, longest, Wrote, Tells};

use answer::Answer;
use attributes::Flat;
use chip::{Core, FlatChip};
use host::Host;

// After a record: the chip, the host's record, and the place behind the line.
#[derive(Clone, Copy)]
pub struct Told {
    pub chip: FlatChip,
    pub host: Host,
    pub next: usize,
}

impl Told {
    // The bytes that have to be left where a line is put; none has more.
    pub const ROOM: usize = 141;

    // The words of a line.
    pub const WORDS: usize = 28;
}

// Takes a record of any bytes and puts its line into `out`, from `at` on. Where less than `Told::ROOM` is left from `at` on, no line is put and the place behind
// it is `at`.
pub fn tell(chip: FlatChip, h: Host, number: u64, bytes: &[u8], out: &mut [u8], at: usize) -> Told
    ensures { Tells chip h number bytes.now out.old at result out.new }
{
    let stepped = himib::step(chip, h, bytes);
    let words = words_of(chip, stepped.chip, stepped.host);
    let next = put_told(out, at, number, stepped.answer, words);
    Told {
        chip: stepped.chip,
        host: stepped.host,
        next,
    }
}

// The words of a record that led from one chip to another and left this host's record.
#[tactic(auto, using(crate::proofs::TellingLaws::as_word), unfolding(crate::specs::Telling::words_of))]
fn words_of(before: FlatChip, after: FlatChip, h: Host) -> [u16; Told::WORDS]
    ensures { result ≡ words_of (chip_of before) (chip_of after) h }
{
    let core = after.core;
    // The thirteen counters stand here one by one, as in `words_of` of specs/Telling: a loop would fill a part of the array by its bounds, and be no plainer.
    [
        core.repeater.enabled(),
        core.repeater.linked(),
        core.repeater.partitioned(),
        change(core, 0),
        change(core, 1),
        change(core, 2),
        change(core, 3),
        change(core, 4),
        change(core, 6),
        change(core, 7),
        status_of(core),
        u16::from(h.page),
        u16::from(h.register),
        moved(&before.flat, &after.flat, 0),
        moved(&before.flat, &after.flat, 1),
        moved(&before.flat, &after.flat, 2),
        moved(&before.flat, &after.flat, 3),
        moved(&before.flat, &after.flat, 4),
        moved(&before.flat, &after.flat, 5),
        moved(&before.flat, &after.flat, 6),
        moved(&before.flat, &after.flat, 7),
        moved(&before.flat, &after.flat, 8),
        moved(&before.flat, &after.flat, 9),
        moved(&before.flat, &after.flat, 10),
        moved(&before.flat, &after.flat, 11),
        moved(&before.flat, &after.flat, 12),
        u16::from(before.core.kept.transmit_collisions != core.kept.transmit_collisions),
        u16::from(before.core.kept.total_octets != core.kept.total_octets),
    ]
}

// A change register.
fn change(core: Core, register: usize) -> u16
    ensures { result ≡ get_or core.changes register 0 }
{
    u16::from(changes::bits_at(core.changes, register))
}

// What a C read would give: the interrupt in bit 7, the interface error in bit 6.
fn status_of(core: Core) -> u16
    ensures { result ≡ status_of core }
{
    let interrupt = u16::from(changes::bit_7(changes::is_pending(core.changes, core.enables)));
    interrupt + 64 * u16::from(core.interface_error)
}

// The ports whose counter R has moved.
fn moved(before: &Flat, after: &Flat, register: usize) -> u16
    ensures { result ≡ moved_of (nine_in before.now) (nine_in after.now) register }
{
    let mut mask: u16 = 0;
    // A counter is asked for by its port; nothing is walked here.
    for i in (0..ports::COUNT).rev() {
        let moves = before.counter(i, register) != after.counter(i, register);
        mask = 2 * mask + u16::from(moves);
    }
    mask
}

// The line of an answer and its words, where there is room for any.
// The buffer and the place in it stay two parameters here and below: `tell` is given them so, and gives them on to `answer::put_line`, and the contracts of both say so.
fn put_told(
    out: &mut [u8],
    at: usize,
    number: u64,
    answer: Answer,
    words: [u16; Told::WORDS],
) -> usize
    ensures { Wrote out.old at (told_as number answer words) out.new result }
{
    if at <= out.len() && Told::ROOM <= out.len() - at {
        return put_whole(out, at, number, answer, words);
    }
    at
}

// The line: that of the run program, and the words from its newline on.
fn put_whole(
    out: &mut [u8],
    at: usize,
    number: u64,
    answer: Answer,
    words: [u16; Told::WORDS],
) -> usize
    requires { at + longest ≤ length out.old }
    ensures put { Put out.old at (told_as number answer words) out.new result }
    ensures upper_bound { result ≤ at + longest }
{
    let behind = answer::put_line(out, at, number, answer);
    let last = put_words(out, behind - 1, words);
    out[last] = b'\n';
    last + 1
}

// The words.
fn put_words(out: &mut [u8], at: usize, words: [u16; Told::WORDS]) -> usize
    requires { at + 112 ≤ length out.old }
    ensures put { Put out.old at (spelt words) out.new result }
    ensures value { result ≡ at + 112 }
{
    let mut next = at;
    for word in words {
        next = answer::put_mask(out, next, word);
    }
    next
}
