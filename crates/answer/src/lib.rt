// What a record is answered with, and the line that the run program prints for it. A line goes into a buffer that the caller lends.
#![tactic(auto)]

ghost use Rattle.std.specs.Prelude.{◌≡◌, [], ◌∷◌, ◌+◌, ◌*◌, ◌/◌, ◌%◌, ◌≤◌, ◌<◌, length, get_or};
ghost use Rattle.answer.specs.Numerals.{decimal, hex, glyphs};
ghost use Rattle.answer.specs.Line.{space, named, tail_of, line_of};
ghost use Rattle.answer.specs.Put.{WrittenLine, PutWhereFits, longest_line, padded};
ghost use Rattle.answer.specs.Grown.{Grown};

use burst::Word;

// What a record is answered with.
#[derive(Clone, Copy)]
pub enum Answer {
    // Accepted, with nothing to tell: a pulse, a tick, a C write, a D write or a reset.
    Done,
    // A burst: its word, and the mask of the ports that something goes out to.
    Sent(Word, u16),
    // A C read or a D read: the byte.
    Value(u8),
    // Turned away, with this number: a number and no enum of reasons, since `put_line` promises a line for every number.
    Refused(u8),
}

impl Answer {
    // The bytes that have to be left where a line is put.
    pub const ROOM: usize = 32;
}

// The hexadecimal digits, as a table: a digit of a line is one load.
const GLYPHS: [u8; 16] = *b"0123456789abcdef";

// Puts the line of record `number` into `out`, from `at` on, and returns the place behind it. Where less than `Answer::ROOM` is
// left from `at` on, nothing is written and the place is `at`. Buffer and place are two parameters here and in `put_mask`, and no `Line`: their contracts are about
// the bytes of a buffer that callers go on to read and to write. The two ask for room of their own each, and share the rest by `Line`.
pub fn put_line(out: &mut [u8], at: usize, number: u64, answer: Answer) -> usize
    ensures { WrittenLine out.old at number answer out.new result }
{
    if at <= out.len() && Answer::ROOM <= out.len() - at {
        let mut line = Line { out, at };
        line.put_whole(number, answer);
        return line.at;
    }
    at
}

// Puts a space and the three digits of a mask into `out`, from `at` on, and returns the place behind them. Where less than four
// bytes are left from `at` on, nothing is written and the place is `at`.
pub fn put_mask(out: &mut [u8], at: usize, mask: u16) -> usize
    ensures { PutWhereFits out.old at (space ∷ hex 3 mask) out.new result }
{
    if at <= out.len() && 4 <= out.len() - at {
        let mut line = Line { out, at };
        line.put(three_digits(mask));
        return line.at;
    }
    at
}

// A line that is put into a buffer: the buffer, and the place behind what stands there.
#[derive(Drop)]
struct Line<'a> {
    out: &'a mut [u8],
    at: usize,
}

impl Line<'_> {
    // The whole line.
    fn put_whole(&mut self, number: u64, answer: Answer)
        requires { self.old.at + longest_line ≤ length self.old.out.now }
        ensures { Grown self.old (line_of number answer) self.new }
    {
        self.put_decimal(number);
        self.put_tail(answer);
    }

    // The line from the space behind the number on.
    fn put_tail(&mut self, answer: Answer)
        requires { self.old.at + 9 ≤ length self.old.out.now }
        ensures { Grown self.old (tail_of answer) self.new }
    {
        match answer {
            Answer::Done => self.put(*b" ok\n"),
            Answer::Sent(word, mask) => {
                self.put(said(word));
                self.put(three_digits(mask));
                self.put(*b"\n");
            }
            Answer::Value(byte) => {
                self.put(*b" val");
                self.put([
                    b' ',
                    glyph(u16::from(byte) / 16),
                    glyph(u16::from(byte)),
                    b'\n',
                ]);
            }
            Answer::Refused(number) => {
                self.put(*b" ref ");
                self.put_group(u32::from(number));
                self.put(*b"\n");
            }
        }
    }

    // A number in decimal, from groups of four digits. Up to two groups are the usual case, and the quickest. One function that
    // calls itself for the groups in front keeps the line in memory, and takes more instructions a record (measured).
    fn put_decimal(&mut self, number: u64)
        requires { self.old.at + 20 ≤ length self.old.out.now }
        ensures { Grown self.old (decimal number) self.new }
    {
        if number < 100_000_000 {
            self.put_two_groups(number as u32);
        } else {
            self.put_three_groups(number / 100_000_000);
            self.put_eight_digits((number % 100_000_000) as u32);
        }
    }

    // A number of up to twelve digits.
    fn put_three_groups(&mut self, number: u64)
        requires { (self.old.at + 12 ≤ length self.old.out.now) × (number < 1_000_000_000_000) }
        ensures { Grown self.old (decimal number) self.new }
    {
        if number < 100_000_000 {
            self.put_two_groups(number as u32);
        } else {
            self.put_group((number / 100_000_000) as u32);
            self.put_eight_digits((number % 100_000_000) as u32);
        }
    }

    // A number of up to eight digits. It and `put_group` are inlined, so that the line stays in registers: seventeen instructions a record (measured).
    #[inline(always)]
    fn put_two_groups(&mut self, number: u32)
        requires { (self.old.at + 8 ≤ length self.old.out.now) × (number < 100_000_000) }
        ensures { Grown self.old (decimal number) self.new }
    {
        if number < 10000 {
            self.put_group(number);
        } else {
            self.put_group(number / 10000);
            self.put(four_digits(number % 10000));
        }
    }

    // A number of up to four digits.
    #[inline(always)]
    fn put_group(&mut self, number: u32)
        requires { (self.old.at + 4 ≤ length self.old.out.now) × (number < 10000) }
        ensures { Grown self.old (decimal number) self.new }
    {
        if number < 10 {
            self.put([(48 + number) as u8]);
        } else if number < 100 {
            self.put(two_digits(number));
        } else {
            let [a, b, c, d] = four_digits(number);
            if number < 1000 {
                self.put([b, c, d]);
            } else {
                self.put([a, b, c, d]);
            }
        }
    }

    // Eight digits, zeros in front.
    fn put_eight_digits(&mut self, number: u32)
        requires { (self.old.at + 8 ≤ length self.old.out.now) × (number < 100_000_000) }
        ensures { Grown self.old (padded 8 number) self.new }
    {
        self.put(four_digits(number / 10000));
        self.put(four_digits(number % 10000));
    }

    // Bytes in order. Their number is a constant: the compiler makes one store of them.
    fn put<const N: usize>(&mut self, bytes: [u8; N])
        requires { self.old.at + length bytes ≤ length self.old.out.now }
        ensures { Grown self.old bytes.entry self.new }
    {
        let next = self.at + N;
        self.out[self.at..next].copy_from_slice(&bytes);
        self.at = next;
    }
}

// A space and the word of a burst.
fn said(word: Word) -> [u8; 4]
    ensures { result ≡ space ∷ named word }
{
    match word {
        Word::Nil => *b" nil",
        Word::Rep => *b" rep",
        Word::Jam => *b" jam",
    }
}

// A space and the three digits of a mask.
fn three_digits(mask: u16) -> [u8; 4]
    ensures { result ≡ space ∷ hex 3 mask }
{
    [b' ', glyph(mask / 16 / 16), glyph(mask / 16), glyph(mask)]
}

// The last hexadecimal digit of a number.
fn glyph(number: u16) -> u8
    ensures { result ≡ get_or glyphs (number % 16) 0 }
{
    GLYPHS[usize::from(number % 16)]
}

// Two digits, zeros in front, as one number of two bytes. With the tens t they are t + 256 (number - 10 t), which is
// 256 number - 2559 t; each byte has 48, the code of 0, added.
fn two_digits(number: u32) -> [u8; 2]
    requires { number < 100 }
    ensures { result ≡ padded 2 number }
{
    ((0x3030 + 256 * number - 2559 * tenth(number)) as u16).to_le_bytes()
}

// Four digits, zeros in front, as one number of four bytes: two pairs of the same kind.
fn four_digits(number: u32) -> [u8; 4]
    requires { number < 10000 }
    ensures { result ≡ padded 4 number }
{
    let first = hundredth(number);
    let second = number - 100 * first;
    let pairs = first + 65536 * second;
    let tens = tenth(first) + 65536 * tenth(second);
    (0x3030_3030 + 256 * pairs - 2559 * tens).to_le_bytes()
}

// A tenth of a number of two digits, by a multiplication and a shift, since by divisions a line takes a tenth more
// instructions (measured),
fn tenth(number: u32) -> u32
    requires { number < 100 }
    ensures { result ≡ number / 10 }
{
    number * 103 / 1024
}

// and a hundredth of one of four.
fn hundredth(number: u32) -> u32
    requires { number < 10000 }
    ensures { result ≡ number / 100 }
{
    number * 5243 / 524288
}
