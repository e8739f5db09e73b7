// Readings of one counter as bytes, four each, the least significant first. What their differences add up to is carried from one stretch of input to the
// next.
#![tactic(auto)]

ghost use Rattle.std.specs.Prelude.{◌≡◌, [], ◌∷◌, length};
ghost use Rattle.attributes.specs.Octets.{total_on};
ghost use Rattle.chain.specs.Chain.{reading_length, readings_in, none, onward};

use attributes::octets;

// How far the readings of one counter have come: the sum of their differences, unless 64 bits do not hold it, and the last of them, if there was one.
#[derive(Clone, Copy, Debug, PartialEq, Eq)]
pub struct Chain {
    pub total: Option<u64>,
    pub last: Option<u32>,
}

impl Chain {
    // The bytes of a reading.
    pub const READING: usize = 4;

    // No reading yet.
    pub fn none() -> Self
        ensures { result ≡ none }
    {
        Self {
            total: Some(0),
            last: None,
        }
    }
}

// The reading that four bytes spell.
fn reading_of(bytes: &[u8]) -> u32
    requires { length bytes.now ≡ reading_length }
    ensures { result ∷ [] ≡ readings_in bytes.now }
{
    spelling::four(bytes[0], bytes[1], bytes[2], bytes[3])
}

// A sum whose last reading is known, carried on by the readings in some bytes. From turn to turn it is a number: by an Option in each turn, which has to stay none once
// it was, the program totals takes 14.5 instructions for a reading, and 9.0 so.
fn carried(total: Option<u64>, last: u32, bytes: &[u8]) -> Option<u64>
    ensures { result ≡ total_on total last (readings_in bytes.now) }
{
    let mut sum = total?;
    let mut before = last;
    for piece in bytes.chunks_exact(Chain::READING) {
        let reading = reading_of(piece);
        sum = octets::further(Some(sum), before, reading)?;
        before = reading;
    }
    Some(sum)
}

// The readings in a stretch of input, behind those of the stretches before it. 1 to 3 bytes behind the last whole reading are left out.
pub fn take_readings(chain: Chain, bytes: &[u8]) -> Chain
    ensures { result ≡ onward chain (readings_in bytes.now) }
{
    let Some(end) = bytes.chunks_exact(Chain::READING).next_back() else {
        return chain;
    };
    let total = match chain.last {
        Some(last) => carried(chain.total, last, bytes),
        // the first reading is no difference from itself
        None => carried(Some(0), reading_of(&bytes[..Chain::READING]), bytes),
    };
    Chain {
        total,
        last: Some(reading_of(end)),
    }
}
