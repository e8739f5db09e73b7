// Readings of a counter, two or many, and the octet check.
ghost use Rattle.std.specs.Prelude.{◌≡◌, ◌+◌, [], ◌∷◌, Some, decimal};
ghost use Rattle.attributes.specs.Octets.{difference_of, turned_away_with, check_of, total_after, total_of, answered, total_on};

use crate::Attributes;
use std::error::Error;
use std::fmt;

// The octet check turned away, with 10: so many frames could wrap the octets.
#[derive(Clone, Copy, Debug, PartialEq, Eq)]
pub struct TooManyFrames;

impl TooManyFrames {
    // More frames than this are too many.
    pub const MOST_FRAMES: u32 = 2_829_359;

    // The number that the check is turned away with.
    pub const NUMBER: u8 = 10;
}

impl From<TooManyFrames> for u8 {
    ghost from_gives = { λ e n. n ≡ turned_away_with e };

    fn from(_turned_away: TooManyFrames) -> u8 {
        TooManyFrames::NUMBER
    }
}

impl fmt::Display for TooManyFrames {
    ghost output = { λ e. Some (decimal (turned_away_with e)) };

    fn fmt<W: fmt::Write>(&self, f: &mut fmt::Formatter<W>) -> fmt::Result {
        write!(f, "{}", u8::from(*self))
    }
}

impl Error for TooManyFrames {}

// Later minus earlier modulo 2^32.
pub fn difference(later: u32, earlier: u32) -> u32
    ensures { result ≡ difference_of later earlier }
{
    later.wrapping_sub(earlier)
}

// Whether so many octets fit so many readable frames.
#[tactic(auto, unfolding(crate::specs::Octets::check_of))]
pub fn octet_check(frames: u32, octets: u32) -> Result<bool, TooManyFrames>
    ensures { result ≡ check_of frames octets }
{
    if TooManyFrames::MOST_FRAMES < frames {
        return Err(TooManyFrames);
    }
    Ok(Attributes::SHORTEST * frames <= octets && octets <= Attributes::LONGEST * frames)
}

// The sum of the differences of readings in a row, each later minus earlier modulo 2^32, or none where 64 bits do not hold it. Of no reading or one
// it is 0. Readings of one run belong together: a power-up cannot be seen in them, and whoever polls begins a new sum behind it.
#[tactic(auto, using(crate::proofs::Totals::none_at_all, crate::proofs::Totals::from_first))]
pub fn total_of(readings: &[u32]) -> Option<u64>
    ensures { result ≡ answered (total_of readings.now) }
{
    match readings {
        [] => Some(0),
        [first, rest @ ..] => carried(0, *first, rest),
    }
}

// A sum so far and the last reading in it, carried on by the next readings. One that did not fit never fits again.
#[tactic(auto, unfolding(crate::specs::Octets::total_on))]
pub fn total_on(sum: Option<u64>, last: u32, readings: &[u32]) -> Option<u64>
    ensures { result ≡ total_on sum last readings.now }
{
    carried(sum?, last, readings)
}

// The same by one reading, for those that poll.
pub fn further(sum: Option<u64>, last: u32, reading: u32) -> Option<u64>
    ensures { result ≡ total_on sum last (reading ∷ []) }
{
    total_on(sum, last, &[reading])
}

// The differences of the readings, each from the one before it, added to a sum.
fn carried(sum: u64, last: u32, readings: &[u32]) -> Option<u64>
    ensures { result ≡ answered (sum + total_after last readings.now) }
{
    let mut total = sum;
    let mut before = last;
    for &reading in readings {
        // A sum that has wrapped is less than what came to it. By checked_add the program totals takes a quarter more time for a reading.
        let more = u64::from(difference(reading, before));
        total = total.wrapping_add(more);
        if total < more {
            return None;
        }
        before = reading;
    }
    Some(total)
}
