// Lists of records, with a host's record that is lent to each in turn.
ghost use Rattle.std.specs.Prelude.{◌≡◌};
ghost use Rattle.chip.specs.Flat.{chip_of};
ghost use Rattle.lent.specs.Lists.{word_number, told, told_of, laid, chip_after_all, answers_laid};

use answer::Answer;
use burst::Word;
use chip::FlatChip;
use host::Host;
use record::Record;

// What is told of an answer: the number of its word, and the mask, byte or number beside it. Numbers, since they are bytes of a buffer (`told_of`).
#[derive(Clone, Copy)]
pub struct Told {
    pub word: u8,
    pub low: u8,
    pub high: u8,
}

// All the records of a list on a chip. They are pieces of a record's length, of which the last may be short; the host's record starts as
// at power-up. Each answer has its bytes of the buffer, in order; an answer that does not fit whole is left out.
pub fn answer_all(chip: FlatChip, records: &[u8], answers: &mut [u8]) -> FlatChip
    ensures { (chip_of result ≡ chip_after_all (chip_of chip) records.now) × (answers.new ≡ answers_laid (chip_of chip) records.now answers.old) }
{
    let mut host = Host::power_up();
    let mut c = chip;
    for (i, piece) in records.chunks(Record::LENGTH).enumerate() {
        let request = record::read_record(piece);
        let rest = crate::take(&mut host, c, request);
        lay(answers, i, rest.answer);
        c = rest.chip;
    }
    c
}

// An answer laid at its place in the buffer.
fn lay(answers: &mut [u8], i: usize, a: Answer)
    ensures { answers.new ≡ laid answers.old i a }
{
    let told = Told::from(a);
    if answers.len() / Told::BYTES <= i {
        return;
    }
    let at = Told::BYTES * i;
    answers[at] = told.word;
    answers[at + 1] = told.low;
    answers[at + 2] = told.high;
}

impl Told {
    // How many bytes an answer has in the buffer.
    pub const BYTES: usize = 3;
}

impl From<Answer> for Told {
    ghost from_gives = { λ answer told. told ≡ told_of answer };

    fn from(answer: Answer) -> Told {
        match answer {
            Answer::Done => tell_of(0, 0),
            Answer::Sent(word, out) => tell_of(number(word), out),
            Answer::Value(byte) => tell_of(4, u16::from(byte)),
            Answer::Refused(k) => tell_of(5, u16::from(k)),
        }
    }
}

// A word's number, with the amount beside it, low byte first.
fn tell_of(word: u8, amount: u16) -> Told
    ensures { result ≡ told word amount }
{
    let [low, high] = amount.to_le_bytes();
    Told { word, low, high }
}

// The number of a burst's word. Not by `From`: the numbers are those of this buffer's bytes, and `Word` is the crate burst's.
fn number(word: Word) -> u8
    ensures { result ≡ word_number word }
{
    match word {
        Word::Nil => 1,
        Word::Rep => 2,
        Word::Jam => 3,
    }
}
