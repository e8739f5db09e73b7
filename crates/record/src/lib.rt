// Document 01, sections 'Record' and 'Numbers turned away with': any bytes are taken apart into what they ask for, or are
// turned away with 9, 8, 3, 2, 1 or 7. There is no state. The numbers 5, 6, 4 and 10 are not decided here.
#![tactic(auto)]

ghost use Rattle.std.specs.Prelude.{◌≡◌, ℕ, ◌+◌, ◌≤◌, ◌<◌};
ghost use Rattle.std.specs.Int.Bits.{bit_or};
ghost use Rattle.spelling.specs.Spelling.{spelt};
ghost use Rattle.record.specs.Record.{burst_kind, pulse_kind, tick_kind, c_write_kind, d_write_kind};
ghost use Rattle.record.specs.Record.{byte_at, bytes_from, bit, burst_of, stray};
ghost use Rattle.record.specs.Numbers.{number_of};
ghost use Rattle.record.specs.Refusals.{bad_numbers, nothing_active, selects_neither, refused, accepted, record_of};
ghost use Rattle.record.specs.Reading.{kind_code, Decodes, Reads, ReadsBare};

use ports::Quiet;

// Why something is turned away, by the number that is written for it.
#[derive(Clone, Copy, PartialEq, Eq)]
pub enum Refusal {
    NothingActive = 1,
    BadNumbers = 2,
    BadMask = 3,
    UnlistedCommand = 4,
    UnlistedRegister = 5,
    WrongDirection = 6,
    SelectsNeither = 7,
    StrayBytes = 8,
    WrongLength = 9,
}

impl From<Refusal> for u8 {
    ghost from_gives = { λ refusal number. number ≡ number_of refusal };

    fn from(refusal: Refusal) -> u8 {
        refusal as u8
    }
}

// The kinds of record, by the number in byte 0.
#[derive(Clone, Copy, PartialEq, Eq)]
pub enum Kind {
    Burst = 1,
    Pulse = 2,
    Tick = 3,
    WriteC = 4,
    WriteD = 5,
    ReadC = 6,
    ReadD = 7,
    Reset = 8,
}

impl From<Kind> for u8 {
    ghost from_gives = { λ kind number. number ≡ kind_code kind };

    fn from(kind: Kind) -> u8 {
        kind as u8
    }
}

impl TryFrom<u8> for Kind {
    type Error = Refusal;

    ghost try_from_gives = { Decodes };

    fn try_from(number: u8) -> Result<Kind, Refusal> {
        match number {
            1 => Ok(Kind::Burst),
            2 => Ok(Kind::Pulse),
            3 => Ok(Kind::Tick),
            4 => Ok(Kind::WriteC),
            5 => Ok(Kind::WriteD),
            6 => Ok(Kind::ReadC),
            7 => Ok(Kind::ReadD),
            8 => Ok(Kind::Reset),
            _ => Err(Refusal::StrayBytes),
        }
    }
}

// A burst as the record has it, with its five flags one by one.
#[derive(Clone, Copy)]
pub struct Burst {
    pub mask: u16,
    pub fcs_bad: bool,
    pub rate_error: bool,
    pub collision_signal: bool,
    pub loopback_missing: bool,
    pub sqe_test: bool,
    pub d: u32,
    pub n: u32,
    pub k: u8,
    pub c: u32,
    pub x: u32,
}

// The host's accesses: a byte written to C or D, or one asked for.
#[derive(Clone, Copy)]
pub enum Access {
    WriteC(u8),
    WriteD(u8),
    ReadC,
    ReadD,
}

// What a record asks for, or the number that it is turned away with. It holds a number and no `Refusal`: what takes an `Asked` (himib's `take`) promises its answer for every number.
#[derive(Clone, Copy)]
pub enum Asked {
    Burst(Burst),
    Quiet(Quiet),
    Access(Access),
    Reset,
    Refused(u8),
}

// A record taken apart. The source address has the record's bytes 24 to 29 in order; it is all zero beside a refusal, and
// beside all that is no burst.
#[derive(Clone, Copy)]
pub struct Record {
    pub asked: Asked,
    pub source: [u8; 6],
}

// What any bytes are, however many: the first refusal in the paper's order, or else what they ask for.
pub fn read_record(bytes: &[u8]) -> Record
    ensures { result ≡ record_of bytes.now }
{
    let Some(bytes) = bytes.as_array() else {
        return Record::refused(Refusal::WrongLength);
    };
    match read(bytes) {
        Ok(asked) => Record::accepted(asked, bytes),
        Err(refusal) => Record::refused(refusal),
    }
}

// What a record of the right length asks for, or why it is turned away.
fn read(bytes: &[u8; Record::LENGTH]) -> Result<Asked, Refusal>
    ensures { Reads bytes.now result }
{
    match Kind::try_from(bytes[0])? {
        Kind::Burst => read_burst(bytes),
        Kind::Pulse => read_pulse(bytes),
        Kind::Tick => read_bare(bytes, Asked::Quiet(Quiet::Tick)),
        Kind::WriteC => read_c_write(bytes),
        Kind::WriteD => read_d_write(bytes),
        Kind::ReadC => read_bare(bytes, Asked::Access(Access::ReadC)),
        Kind::ReadD => read_bare(bytes, Asked::Access(Access::ReadD)),
        Kind::Reset => read_bare(bytes, Asked::Reset),
    }
}

// A burst.
fn read_burst(bytes: &[u8; Record::LENGTH]) -> Result<Asked, Refusal>
    requires { byte_at bytes.now 0 ≡ burst_kind }
    ensures { Reads bytes.now result }
{
    if stray_burst(bytes) {
        return Err(Refusal::StrayBytes);
    }
    let burst = Burst::read(bytes);
    if Burst::MASK_END <= burst.mask {
        return Err(Refusal::BadMask);
    }
    if burst.bad_numbers() {
        return Err(Refusal::BadNumbers);
    }
    if burst.nothing_active() {
        return Err(Refusal::NothingActive);
    }
    Ok(Asked::Burst(burst))
}

// Link pulses.
fn read_pulse(bytes: &[u8; Record::LENGTH]) -> Result<Asked, Refusal>
    requires { byte_at bytes.now 0 ≡ pulse_kind }
    ensures { Reads bytes.now result }
{
    if stray_pulse(bytes) {
        return Err(Refusal::StrayBytes);
    }
    let mask = spelling::two(bytes[2], bytes[3]);
    if Record::PULSE_MASK_END <= mask {
        return Err(Refusal::BadMask);
    }
    Ok(Asked::Quiet(Quiet::Pulse(mask)))
}

// A C write.
fn read_c_write(bytes: &[u8; Record::LENGTH]) -> Result<Asked, Refusal>
    requires { byte_at bytes.now 0 ≡ c_write_kind }
    ensures { Reads bytes.now result }
{
    if stray_write(bytes) {
        return Err(Refusal::StrayBytes);
    }
    if selects_neither(bytes[13]) {
        return Err(Refusal::SelectsNeither);
    }
    Ok(Asked::Access(Access::WriteC(bytes[13])))
}

// A D write.
fn read_d_write(bytes: &[u8; Record::LENGTH]) -> Result<Asked, Refusal>
    requires { byte_at bytes.now 0 ≡ d_write_kind }
    ensures { Reads bytes.now result }
{
    if stray_write(bytes) {
        return Err(Refusal::StrayBytes);
    }
    Ok(Asked::Access(Access::WriteD(bytes[13])))
}

// A kind whose number is all that may stand in the record: a tick, a read or a reset.
fn read_bare(bytes: &[u8; Record::LENGTH], asked: Asked) -> Result<Asked, Refusal>
    ensures { ReadsBare bytes.now asked result }
{
    if stray_bare(bytes) {
        return Err(Refusal::StrayBytes);
    }
    Ok(asked)
}

impl Record {
    // How many bytes a record has.
    pub const LENGTH: usize = 32;

    // The least mask with a bit above those of the TP ports.
    const PULSE_MASK_END: u16 = 1 << ports::AUI;

    // Bytes that are turned away.
    fn refused(refusal: Refusal) -> Record
        ensures { result ≡ refused (number_of refusal) }
    {
        Record {
            asked: Asked::Refused(refusal.into()),
            source: [0; 6],
        }
    }

    // Bytes that ask for this, with their source address.
    #[tactic(auto, unfolding(crate::specs::Record::bytes_from))]
    fn accepted(asked: Asked, bytes: &[u8; Record::LENGTH]) -> Record
        ensures { result ≡ accepted asked bytes.now }
    {
        Record {
            asked,
            source: [
                bytes[24], bytes[25], bytes[26], bytes[27], bytes[28], bytes[29],
            ],
        }
    }
}

impl Burst {
    // The least mask with a bit above that of AUI.
    const MASK_END: u16 = 1 << ports::COUNT;

    // The longest duration.
    const LONGEST: u32 = 1_000_000;

    // The most dribble bits.
    const MOST_DRIBBLE: u8 = 7;

    // The least flag byte with a bit above that of the last flag.
    const FLAGS_END: u8 = 32;

    // The fields of a burst, whatever they hold.
    #[tactic(auto, unfolding(crate::specs::Record::bytes_from))]
    fn read(bytes: &[u8; Record::LENGTH]) -> Burst
        ensures { result ≡ burst_of bytes.now }
    {
        let flags = bytes[1];
        Burst {
            mask: spelling::two(bytes[2], bytes[3]),
            fcs_bad: flag(flags, 0),
            rate_error: flag(flags, 1),
            collision_signal: flag(flags, 2),
            loopback_missing: flag(flags, 3),
            sqe_test: flag(flags, 4),
            d: number32(bytes, 4),
            n: number32(bytes, 8),
            k: bytes[12],
            c: number32(bytes, 16),
            x: number32(bytes, 20),
        }
    }

    // Row 2: a duration, a count or a sum out of its bounds. In 64 bits the sums are the true ones.
    #[tactic(auto, unfolding(crate::specs::Refusals::bad_numbers))]
    fn bad_numbers(self) -> bool
        ensures { result ≡ bad_numbers self }
    {
        self.d == 0
            || Burst::LONGEST < self.d
            || Burst::MOST_DRIBBLE < self.k
            || u64::from(self.d) < 8 * u64::from(self.n) + u64::from(self.k)
            || u64::from(self.d) < u64::from(self.c) + u64::from(self.x)
    }

    // Row 1: no port is active, and no AUI collision signal either.
    #[tactic(auto, unfolding(crate::specs::Refusals::nothing_active))]
    fn nothing_active(self) -> bool
        ensures { result ≡ nothing_active self }
    {
        self.mask == 0 && !self.collision_signal
    }
}

// Row 7: a byte written to C that selects neither P nor R.
#[tactic(auto, unfolding(crate::specs::Refusals::selects_neither))]
pub fn selects_neither(byte: u8) -> bool
    ensures { result ≡ selects_neither byte }
{
    !matches!(byte >> 5, 0b000 | 0b111)
}

// Row 8 for a burst: flag bits 5 to 7, or byte 13, 14, 15, 30 or 31, is not zero.
fn stray_burst(bytes: &[u8; Record::LENGTH]) -> bool
    ensures { result ≡ stray burst_kind bytes.now }
{
    Burst::FLAGS_END <= bytes[1] || bytes[13] | bytes[14] | bytes[15] | bytes[30] | bytes[31] != 0
}

// Row 8 for a link pulse: a byte other than its kind and its mask is not zero. This function and the next two differ in the bytes that they leave out. One function
// would have to be given the two words that have them, and be no plainer.
fn stray_pulse(bytes: &[u8; Record::LENGTH]) -> bool
    ensures { result ≡ stray pulse_kind bytes.now }
{
    let first = spelling::four(0, bytes[1], 0, 0);
    first | number32(bytes, 12) | other_words(bytes) != 0
}

// Row 8 for a C or D write: a byte other than its kind and the written one is not zero.
fn stray_write(bytes: &[u8; Record::LENGTH]) -> bool
    ensures { result ≡ stray c_write_kind bytes.now }
{
    let first = spelling::four(0, bytes[1], bytes[2], bytes[3]);
    let fourth = spelling::four(bytes[12], 0, bytes[14], bytes[15]);
    first | fourth | other_words(bytes) != 0
}

// Row 8 for a kind that uses nothing more: a byte other than its kind is not zero.
fn stray_bare(bytes: &[u8; Record::LENGTH]) -> bool
    ensures { result ≡ stray tick_kind bytes.now }
{
    let head = spelling::four(0, bytes[1], bytes[2], bytes[3]);
    head | number32(bytes, 12) | other_words(bytes) != 0
}

// The bitwise or of the words of four bytes that must be zero in every kind but a burst: all but the first and the fourth.
// It is zero exactly if each of them is. Words and not bytes one by one, for speed.
fn other_words(bytes: &[u8; Record::LENGTH]) -> u32
    ensures { result ≡ (let word : ℕ → ℕ = λ i. spelt (bytes_from bytes.now i 3) in bit_or (bit_or (bit_or (bit_or (bit_or (word 4) (word 8)) (word 16)) (word 20)) (word 24)) (word 28)) }
{
    number32(bytes, 4)
        | number32(bytes, 8)
        | number32(bytes, 16)
        | number32(bytes, 20)
        | number32(bytes, 24)
        | number32(bytes, 28)
}

// The number that four bytes spell. Not in `spelling`: of a slice it would have to answer where four bytes are not there.
#[tactic(auto, unfolding(crate::specs::Record::bytes_from))]
fn number32(bytes: &[u8; Record::LENGTH], i: usize) -> u32
    requires { i + 4 ≤ 32 }
    ensures { result ≡ spelt (bytes_from bytes.now i 3) }
{
    spelling::four(bytes[i], bytes[i + 1], bytes[i + 2], bytes[i + 3])
}

// One bit of the flags.
fn flag(flags: u8, place: u8) -> bool
    requires { place < 8 }
    ensures { result ≡ bit flags place }
{
    (flags >> place) % 2 == 1
}
