// The change bits of P 1, the enables of P 2 and the interrupt, each as the bytes of registers R 0 to R 7. Nothing of the chip is in it.
#![tactic(auto)]

ghost use Rattle.std.specs.Prelude.{◌≡◌, get_or, set};
ghost use Rattle.changes.specs.Changes.{bit7, tp_byte, aui_bit, events_of, noted, kept_bits, pending};

use std::array;

// How many registers there are, with R 5, which has no bits.
pub const REGISTERS: usize = 8;

// The registers that have bits.
const HELD: [usize; REGISTERS - 1] = [0, 1, 2, 3, 4, 6, 7];

// The bit of a register that has one bit alone.
const BIT_7: u8 = 128;

// Bit 7 of a byte.
pub fn bit_7(one: bool) -> u8
    ensures { result ≡ bit7 one }
{
    if one { BIT_7 } else { 0 }
}

// The TP ports of a set.
fn tp_byte(mask: u16) -> u8
    ensures { result ≡ tp_byte mask }
{
    (mask % 256) as u8
}

// AUI of a set.
fn aui_bit(mask: u16) -> u8
    ensures { result ≡ aui_bit mask }
{
    bit_7(ports::contains(mask, ports::AUI))
}

// The bits that events set, register by register.
#[tactic(auto, unfolding(crate::specs::Changes::events_of))]
pub fn events(partition: u16, link: u16, loopback: bool, sqe: bool, address: u16) -> [u8; REGISTERS]
    ensures { result ≡ events_of partition link loopback sqe address }
{
    [
        tp_byte(partition),
        aui_bit(partition),
        tp_byte(link),
        bit_7(loopback),
        bit_7(sqe),
        0,
        tp_byte(address),
        aui_bit(address),
    ]
}

// The change bits with events.
pub fn note(changes: [u8; REGISTERS], events: [u8; REGISTERS]) -> [u8; REGISTERS]
    ensures { result ≡ noted events changes }
{
    array::from_fn(|r| changes[r] | events[r])
}

// What a write to the enables of R keeps.
#[tactic(auto, unfolding(crate::specs::Changes::kept_bits))]
pub fn keep_bits(register: u8, byte: u8) -> u8
    ensures { result ≡ kept_bits register byte }
{
    if matches!(register, 1 | 3 | 4 | 7) {
        byte & BIT_7
    } else {
        byte
    }
}

// Whether some change bit and its enable are both one. R 5 has no bits.
pub fn is_pending(changes: [u8; REGISTERS], enables: [u8; REGISTERS]) -> bool
    ensures { result ≡ pending changes enables }
{
    HELD.iter().any(|&r| changes[r] & enables[r] != 0)
}

// The byte of register R among eight, or 0 past the last.
pub fn bits_at(bits: [u8; REGISTERS], register: usize) -> u8
    ensures { result ≡ get_or bits register 0 }
{
    bits.get(register).copied().unwrap_or(0)
}

// The bytes with another at R.
pub fn with_bits(mut bits: [u8; REGISTERS], register: usize, byte: u8) -> [u8; REGISTERS]
    ensures { result ≡ set bits register byte }
{
    // By index: of an array that `get_mut` lent from, a proof knows no more than the length afterwards.
    if register < REGISTERS {
        bits[register] = byte;
    }
    bits
}
