// The chip that a start file describes.
#![tactic(auto)]

ghost use Rattle.std.specs.Prelude.{◌+◌, ◌≤◌, ◌≡◌, length};
ghost use Rattle.ports.specs.Sets.{port_count};
ghost use Rattle.start.specs.Start.{counters_size, port_size, start_size};
ghost use Rattle.attributes.specs.Flat.{nine_in};
ghost use Rattle.chip.specs.Flat.{supply_of};
ghost use Rattle.start.specs.Start.{number_from, counters_from, address_from, port_from, nine_up_to, fits_in, choices_in, supply_in, nothing_given};
ghost use Rattle.start.specs.Start.{started_with, started_of};
ghost use Rattle.start.specs.Flat.{started_by};

use attributes::{Attributes, Flat};
use chip::{Chip, Choices, FlatChip, FlatSupply, Kept};

// Whether the file fits, the short event limit that it asks for, the number that power-up answers, 0 or 13, and a chip. Nobody runs it beside a 13; where the file
// does not fit it is the chip of a run without one. It is no Result: `refused` and `beside` of pass/specs/Limit speak of the limit, the number and the chip of a refusal.
// What the rules speak of,
#[derive(Clone, Copy)]
pub struct Started {
    pub fits: bool,
    pub limit: u32,
    pub number: u8,
    pub chip: Chip,
}

// and as it is kept.
#[derive(Clone, Copy)]
pub struct Opened {
    pub fits: bool,
    pub limit: u32,
    pub number: u8,
    pub chip: FlatChip,
}

impl Started {
    // The bytes of a port's counters, and of a port: its address of six bytes stands behind them.
    pub const COUNTERS: usize = 4 * Attributes::COUNT;

    pub const PORT: usize = Started::COUNTERS + 6;

    // Where the chip's own two counters stand, behind the ports.
    pub const COLLISIONS_FROM: usize = Started::PORT * ports::COUNT;

    pub const OCTETS_FROM: usize = Started::COLLISIONS_FROM + 4;

    // The bytes of a start file that chooses nothing.
    pub const SIZE: usize = Started::OCTETS_FROM + 4;

    // Where the short event limit stands, and a byte that is 0; and the bytes of a start file with them.
    pub const LIMIT_FROM: usize = Started::SIZE;

    pub const SPARE: usize = Started::LIMIT_FROM + 4;

    pub const CHOSEN: usize = Started::SPARE + 1;
}

// The number in the four bytes from byte i on. Not in `spelling`: there it would have to answer where four bytes are not there.
fn number_from(s: &[u8], i: usize) -> u32
    requires { i + 4 ≤ length s.now }
    ensures { result ≡ number_from s.now i }
{
    spelling::four(s[i], s[i + 1], s[i + 2], s[i + 3])
}

fn counters_from(s: &[u8], i: usize) -> [u32; 13]
    requires { i + counters_size ≤ length s.now }
    ensures { result ≡ counters_from s.now i }
{
    // tried: `array::from_fn`, whose contract does not say what the closure holds at each call; the proof does not close
    let mut out = [0; Attributes::COUNT];
    for r in 0..Attributes::COUNT {
        out[r] = number_from(s, i + 4 * r);
    }
    out
}

fn address_from(s: &[u8], i: usize) -> [u8; 6]
    requires { i + 6 ≤ length s.now }
    ensures { result ≡ address_from s.now i }
{
    let mut out = [0; 6];
    out.copy_from_slice(&s[i..i + 6]);
    out
}

// One port's.
#[tactic(auto, unfolding(crate::specs::Start::port_from))]
fn port_from(s: &[u8], i: usize) -> Attributes
    requires { i + port_size ≤ length s.now }
    ensures { result ≡ port_from s.now i }
{
    Attributes {
        counters: counters_from(s, i),
        address: address_from(s, i + Started::COUNTERS),
    }
}

// All nine ports'.
fn nine_in(s: &[u8]) -> Flat
    requires { start_size ≤ length s.now }
    ensures { nine_in result ≡ nine_up_to s.now port_count }
{
    let mut flat = Flat::zero();
    // `with_port` is asked by the port's number; nothing is walked here.
    for i in 0..ports::COUNT {
        flat = flat.with_port(i, port_from(s, Started::PORT * i));
    }
    flat
}

// Whether the file has one of the two sizes, and is 0 where it has to be.
#[tactic(auto, unfolding(crate::specs::Start::fits_in))]
fn fits_in(s: &[u8]) -> bool
    ensures { result ≡ fits_in s.now }
{
    s.len() == Started::SIZE || s.len() == Started::CHOSEN && s[Started::SPARE] == 0
}

// What a start file chooses, or what is usual.
#[tactic(auto, unfolding(crate::specs::Start::choices_in))]
fn choices_in(s: &[u8]) -> Choices
    ensures { result ≡ choices_in s.now }
{
    if s.len() == Started::CHOSEN {
        Choices {
            short_limit: number_from(s, Started::LIMIT_FROM),
        }
    } else {
        Choices::usual()
    }
}

// What a start file gives at power-up.
#[tactic(auto, unfolding(crate::specs::Start::supply_in))]
fn supply_in(s: &[u8]) -> FlatSupply
    requires { start_size ≤ length s.now }
    ensures { supply_of result ≡ supply_in s.now }
{
    FlatSupply {
        flat: nine_in(s),
        kept: Kept {
            transmit_collisions: number_from(s, Started::COLLISIONS_FROM),
            total_octets: number_from(s, Started::OCTETS_FROM),
            choices: choices_in(s),
        },
    }
}

// Zeros.
fn nothing() -> FlatSupply
    ensures { supply_of result ≡ nothing_given }
{
    FlatSupply {
        flat: Flat::zero(),
        kept: Kept {
            transmit_collisions: 0,
            total_octets: 0,
            choices: Choices::usual(),
        },
    }
}

// What power-up makes of it.
#[tactic(auto, unfolding(crate::specs::Start::started_with))]
fn open_with(fits: bool, given: FlatSupply) -> Opened
    ensures { started_by result ≡ started_with fits (supply_of given) }
{
    let powered = FlatChip::power_up(given);
    Opened {
        fits,
        limit: given.kept.choices.short_limit,
        number: powered.number,
        chip: powered.chip,
    }
}

// The chip at power-up with the counters, addresses and choices of a start file.
pub fn start_chip(s: &[u8]) -> Opened
    ensures { started_by result ≡ started_of s.now }
{
    if fits_in(s) {
        open_with(true, supply_in(s))
    } else {
        open_with(false, nothing())
    }
}
