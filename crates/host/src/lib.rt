// The host's side of the registers: the small record of an access (selection, copied bytes, byte place, direction), the map
// from a page P and a register number R to a register's row, and the byte sequences. What the registers hold is the caller's.
#![tactic(auto)]

ghost use Rattle.std.specs.Prelude.{◌≡◌, true, get_or, set};
ghost use Rattle.host.specs.Bytes.{spread_of, single_of};
ghost use Rattle.host.specs.Map.{row_at, row, no_row, within, port_pages, port_of};
ghost use Rattle.host.specs.Parts.{listed_ways};
ghost use Rattle.host.specs.Sequence.{power_up, restarted, selected, place_for, is_last, next_place, copied, read_byte, wrote_byte};

// What only power-up, resets and accesses alter: the selection, the six copied bytes, the place of the next byte, and whether
// the last accepted D access was a write.
#[derive(Clone, Copy, Default)]
pub struct Host {
    pub page: u8,
    pub register: u8,
    pub bytes: [u8; 6],
    pub place: u8,
    pub writing: bool,
}

// A register. `Version` is R 28 of page 0, `SetPort` and `GetPort` are S and G. `Change` and `Enable` hold their R, `Counter` its
// port (0 to 7 are TP0 to TP7, 8 is AUI) and its R, `Address` its port.
#[derive(Clone, Copy)]
pub enum Register {
    Unlisted,
    TransmitCollisions,
    TotalOctets,
    Version,
    SetPort,
    GetPort,
    Change(u8),
    Enable(u8),
    Counter(u8, u8),
    Address(u8),
}

// What an access to a register does to the chip, beside giving its value: nothing; the read clears the change bits of an R; the
// write is a command (through G, or else through S); it sets the enables of an R; it sets the address of a port. That a command
// comes through G is a flag, as `table`, `spots_hold` and what is proved of commands have it.
#[derive(Clone, Copy)]
pub enum Role {
    Plain,
    Cleared(u8),
    Commands(bool),
    Enables(u8),
    Address(u8),
}

// A row of the map: a register, how many bytes it has, the ways in which it may be accessed, its role. What is not listed has
// no bytes. It is a row too, and no `None`: `row_at` ensures a row for each P and R, and `spots_hold` and `every_row` say which. The
// two flags are those of the map's rows in specs/Map, which `read_d` and `write_d` of access are promised by.
#[derive(Clone, Copy)]
pub struct Row {
    pub register: Register,
    pub size: u8,
    pub readable: bool,
    pub writable: bool,
    pub role: Role,
}

// A byte that was read, and the record after it.
#[derive(Clone, Copy)]
pub struct Reading {
    pub host: Host,
    pub byte: u8,
}

// The record after a byte was written, and whether that was the register's last: a flag beside a record that counts either way.
#[derive(Clone, Copy)]
pub struct Writing {
    pub host: Host,
    pub complete: bool,
}

// The ways in which a listed register may be accessed.
#[derive(Clone, Copy, PartialEq, Eq)]
enum Ways {
    Read,
    Write,
    Both,
}

impl Row {
    // The page of TP0; those of the other TP ports follow it.
    const TP0_PAGE: u8 = 16;

    // The page of TP7.
    const TP7_PAGE: u8 = 23;

    // AUI's page.
    const AUI_PAGE: u8 = 31;

    // A listed register: its bytes, its ways and its role.
    fn listed(register: Register, size: u8, ways: Ways, role: Role) -> Row
        ensures { result ≡ row register size (listed_ways ways) role }
    {
        Row {
            register,
            size,
            readable: ways != Ways::Write,
            writable: ways != Ways::Read,
            role,
        }
    }

    // What is not listed.
    fn unlisted() -> Row
        ensures { result ≡ no_row }
    {
        Row {
            register: Register::Unlisted,
            size: 0,
            readable: false,
            writable: false,
            role: Role::Plain,
        }
    }
}

impl Host {
    // The place of a sequence's first byte.
    const FIRST: u8 = 0;

    // P and R, as C writes select them, are below this.
    const SELECTED_BELOW: u8 = 32;

    // C writes from this on select R.
    const R_FROM: u8 = 224;

    // The record at power-up and after a reset.
    pub fn power_up() -> Host
        ensures { result ≡ power_up }
    {
        Host::default()
    }
}

// The port of a port's page.
fn port_of(page: u8) -> u8
    requires { within port_pages page ≡ true }
    ensures { result ≡ port_of page }
{
    if page == Row::AUI_PAGE {
        ports::AUI as u8
    } else {
        page - Row::TP0_PAGE
    }
}

// The row of the register that P and R select. A P or an R above 31 selects one that is not listed.
#[tactic(auto, unfolding(crate::specs::Map::row_at, crate::specs::Map::table))]
pub fn row_at(page: u8, register: u8) -> Row
    ensures { result ≡ row_at page register }
{
    match (page, register) {
        (0, 12) => Row::listed(Register::TransmitCollisions, 4, Ways::Read, Role::Plain),
        (0, 13) => Row::listed(Register::TotalOctets, 4, Ways::Read, Role::Plain),
        (0, 28) => Row::listed(Register::Version, 1, Ways::Read, Role::Plain),
        (0, 30) => Row::listed(Register::SetPort, 1, Ways::Write, Role::Commands(false)),
        (0, 31) => Row::listed(Register::GetPort, 1, Ways::Both, Role::Commands(true)),
        (1, 0..=4 | 6..=7) => Row::listed(
            Register::Change(register),
            1,
            Ways::Read,
            Role::Cleared(register),
        ),
        (2, 0..=4 | 6..=7) => Row::listed(
            Register::Enable(register),
            1,
            Ways::Both,
            Role::Enables(register),
        ),
        (Row::TP0_PAGE..=Row::TP7_PAGE | Row::AUI_PAGE, 0..=12) => {
            Row::listed(
                Register::Counter(port_of(page), register),
                4,
                Ways::Read,
                Role::Plain,
            )
        }
        (Row::TP0_PAGE..=Row::TP7_PAGE | Row::AUI_PAGE, 14) => {
            let port = port_of(page);
            Row::listed(Register::Address(port), 6, Ways::Both, Role::Address(port))
        }
        _ => Row::unlisted(),
    }
}

// The sequence at its first byte.
fn restarted(host: Host) -> Host
    ensures { result ≡ restarted host }
{
    Host {
        place: Host::FIRST,
        ..host
    }
}

// A C write: 000xxxxx selects P, 111xxxxx selects R, and either starts the byte sequence anew. Any other byte is turned away
// by the caller with 7, and leaves the record as it is here too.
#[tactic(auto, unfolding(crate::specs::Sequence::selected))]
pub fn select(host: Host, byte: u8) -> Host
    ensures { result ≡ selected byte host }
{
    match byte {
        0..Host::SELECTED_BELOW => restarted(Host { page: byte, ..host }),
        Host::R_FROM.. => restarted(Host {
            register: byte - Host::R_FROM,
            ..host
        }),
        _ => host,
    }
}

// The place of the byte that a D access takes: where the sequence stands, but the first byte after a turn and where that
// place is past the register's last.
#[tactic(auto, unfolding(crate::specs::Sequence::place_for))]
fn place_for(host: Host, writing: bool, size: u8) -> u8
    ensures { result ≡ place_for writing size host }
{
    if host.writing == writing && host.place < size {
        host.place
    } else {
        Host::FIRST
    }
}

// Whether the byte at a place is the register's last.
#[tactic(auto, unfolding(crate::specs::Sequence::is_last))]
fn is_last(place: u8, size: u8) -> bool
    ensures { result ≡ is_last size place }
{
    size <= place.saturating_add(1)
}

// The place after a place: the first again after the last.
#[tactic(auto, unfolding(crate::specs::Sequence::next_place, crate::specs::Sequence::is_last))]
fn next_place(place: u8, size: u8) -> u8
    ensures { result ≡ next_place size place }
{
    if is_last(place, size) {
        Host::FIRST
    } else {
        place + 1
    }
}

// The bytes that a read goes by: the present value at the first place, the copy made there at the others.
#[tactic(auto, unfolding(crate::specs::Sequence::copied))]
fn copy_at(place: u8, value: [u8; 6], held: [u8; 6]) -> [u8; 6]
    ensures { result ≡ copied place value held }
{
    if place == Host::FIRST { value } else { held }
}

// The byte at a place; 0 past the sixth. The crate changes has these two functions for its eight bytes: each is a line of std, and no plainer as a function of both.
fn byte_at(bytes: [u8; 6], place: u8) -> u8
    ensures { result ≡ get_or bytes place 0 }
{
    bytes.get(usize::from(place)).copied().unwrap_or(0)
}

// A byte stored at a place; past the sixth nothing is stored. Not by `get_mut`: where its loan ends, a proof knows an array's
// length and none of its elements.
fn with_byte(mut bytes: [u8; 6], place: u8, byte: u8) -> [u8; 6]
    ensures { result ≡ set bytes place byte }
{
    let i = usize::from(place);
    if i < bytes.len() {
        bytes[i] = byte;
    }
    bytes
}

// A D read of a register of `size` bytes that now holds `value`, the byte that is read first in front.
#[tactic(auto, unfolding(crate::specs::Sequence::read_byte))]
pub fn read_byte(host: Host, size: u8, value: [u8; 6]) -> Reading
    ensures { result ≡ read_byte size value host }
{
    let place = place_for(host, false, size);
    let bytes = copy_at(place, value, host.bytes);
    Reading {
        host: Host {
            bytes,
            place: next_place(place, size),
            writing: false,
            ..host
        },
        byte: byte_at(bytes, place),
    }
}

// A D write to a register of `size` bytes. When it is complete, the bytes written are the first of the record's.
#[tactic(auto, unfolding(crate::specs::Sequence::wrote_byte))]
pub fn write_byte(host: Host, size: u8, byte: u8) -> Writing
    ensures { result ≡ wrote_byte size byte host }
{
    let place = place_for(host, true, size);
    Writing {
        host: Host {
            bytes: with_byte(host.bytes, place, byte),
            place: next_place(place, size),
            writing: true,
            ..host
        },
        complete: is_last(place, size),
    }
}

// A number of four bytes, least significant first, and two zeros.
pub fn spread(number: u32) -> [u8; 6]
    ensures { result ≡ spread_of number }
{
    let [first, second, third, fourth] = number.to_le_bytes();
    [first, second, third, fourth, 0, 0]
}

// One byte, and five zeros.
pub fn single(byte: u8) -> [u8; 6]
    ensures { result ≡ single_of byte }
{
    [byte, 0, 0, 0, 0, 0]
}
