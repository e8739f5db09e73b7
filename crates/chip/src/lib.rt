// The chip's state: the core (the repeater, the change bits and their enables, what a reset keeps, the interface error, G) and the nine ports' attributes.
// Power-up and reset; and what is noted when the repeater has moved. Chip, Supply and Powered are what the rules speak of, FlatChip, FlatSupply and FlatPowered how
// they are kept. Not one generic type for each two: every rule and theorem that says Chip would have to name its argument.
#![tactic(auto)]

ghost use Rattle.std.specs.Prelude.{◌≡◌, false};
ghost use Rattle.repeater.specs.Repeater.{quieted};
ghost use Rattle.chip.specs.Chip.{usual, fits, refusal_of, settled_of, with_choices, core_up, powered_up, core_reset, moved_by, moved, totalled};
ghost use Rattle.chip.specs.Flat.{supply_of, powered_by};

use attributes::{Attributes, Flat, Nine};
use ports::Quiet;
use repeater::Repeater;

// What is chosen at power-up, for good: below how many bit times a burst is a short event.
#[derive(Clone, Copy)]
pub struct Choices {
    pub short_limit: u32,
}

// What a reset keeps of the core: the chip's own two counters, and what was chosen.
#[derive(Clone, Copy)]
pub struct Kept {
    pub transmit_collisions: u32,
    pub total_octets: u32,
    pub choices: Choices,
}

// The core: all of the chip but its attributes. Of the orders of the fields that were tried, the run program takes fewest instructions with this one (bench/README.md). Change bits and enables are two arrays and not one of
// pairs: `pending`, `noted` and the promises of pass/specs speak of each of them as of a list.
#[derive(Clone, Copy)]
pub struct Core {
    pub repeater: Repeater,
    pub interface_error: bool,
    pub g: u8,
    pub kept: Kept,
    pub changes: [u8; 8],
    pub enables: [u8; 8],
}

// What power-up is given by the caller.
#[derive(Clone, Copy)]
pub struct Supply {
    pub attributes: Nine,
    pub kept: Kept,
}

#[derive(Clone, Copy)]
pub struct Chip {
    pub core: Core,
    pub attributes: Nine,
}

// What power-up gives: 0 and the chip, or the number that it was turned away with, and beside it a chip with the usual choices that nobody runs.
// No Result: `taken`, `refused` and `beside` of the crate pass's specs/Limit speak of the number and of the chip after a refusal too.
#[derive(Clone, Copy)]
pub struct Powered {
    pub number: u8,
    pub chip: Chip,
}

// The same three, the attributes as they are kept.
#[derive(Clone, Copy)]
pub struct FlatSupply {
    pub flat: Flat,
    pub kept: Kept,
}

#[derive(Clone, Copy)]
pub struct FlatChip {
    pub core: Core,
    pub flat: Flat,
}

#[derive(Clone, Copy)]
pub struct FlatPowered {
    pub number: u8,
    pub chip: FlatChip,
}

impl Choices {
    // The number of a limit that is none of the seven.
    pub const LIMIT_REFUSED: u8 = 13;

    // What is chosen where nothing is said.
    pub fn usual() -> Self
        ensures { result ≡ usual }
    {
        Choices {
            short_limit: Attributes::SHORT_BELOW,
        }
    }

    fn fits(self) -> bool
        ensures { result ≡ fits self }
    {
        Attributes::SHORT_FROM <= self.short_limit && self.short_limit <= Attributes::SHORT_TO
    }

    // 0, or the number that power-up turns it away with: `number` of `powered_up`, which `taken` of the crate pass's specs/Limit holds to 0.
    #[tactic(auto, unfolding(crate::specs::Chip::refusal_of))]
    pub fn refusal(self) -> u8
        ensures { result ≡ refusal_of self }
    {
        if self.fits() {
            0
        } else {
            Choices::LIMIT_REFUSED
        }
    }

    // What the chip goes by: this, or what is usual where it is turned away.
    #[tactic(auto, unfolding(crate::specs::Chip::settled_of))]
    fn settled(self) -> Self
        ensures { result ≡ settled_of self }
    {
        if self.fits() { self } else { Choices::usual() }
    }
}

impl Core {
    // At power-up, with what it is given to keep.
    pub fn power_up(kept: Kept) -> Self
        ensures { result ≡ core_up kept }
    {
        Core {
            repeater: Repeater::power_up(),
            changes: [0; 8],
            enables: [0; 8],
            kept,
            interface_error: false,
            g: 0,
        }
    }

    // After a reset.
    pub fn reset(self) -> Self
        ensures { result ≡ core_reset self }
    {
        Core::power_up(self.kept)
    }

    // With the repeater as it is now and these ports' partition states changed; what changed of the links is noted, too. The events come one by one, as `moved`,
    // `moved_by` and `events_of` of the specs name them.
    pub fn move_by(
        mut self,
        next: Repeater,
        partition: u16,
        loopback: bool,
        sqe: bool,
        address: u16,
    ) -> Self
        ensures { result ≡ moved_by self next partition loopback sqe address }
    {
        let link = self.repeater.linked() ^ next.linked();
        let events = changes::events(partition, link, loopback, sqe, address);
        self.changes = changes::note(self.changes, events);
        self.repeater = next;
        self
    }

    // With the repeater as it is now; what changed of it is noted.
    #[tactic(auto, unfolding(crate::specs::Chip::moved))]
    pub fn move_to(self, next: Repeater) -> Self
        ensures { result ≡ moved self next false false 0 }
    {
        let partition = self.repeater.partitioned() ^ next.partitioned();
        self.move_by(next, partition, false, false, 0)
    }

    // After link pulses or a tick. They change no port's partition state.
    #[tactic(auto, using(crate::proofs::ChipLaws::moved_quietly))]
    pub fn pass(self, quiet: Quiet) -> Self
        ensures { result ≡ moved self (quieted quiet self.repeater) false false 0 }
    {
        self.move_by(self.repeater.quiet(quiet), 0, false, false, 0)
    }

    // With what a burst adds to the chip's two counters.
    pub fn total(mut self, transmit_collision: bool, octets: u32) -> Self
        ensures { result ≡ totalled self transmit_collision octets }
    {
        let kept = self.kept;
        self.kept = Kept {
            transmit_collisions: kept
                .transmit_collisions
                .wrapping_add(u32::from(transmit_collision)),
            total_octets: kept.total_octets.wrapping_add(octets),
            ..kept
        };
        self
    }
}

impl FlatChip {
    // At power-up.
    pub fn power_up(supply: FlatSupply) -> FlatPowered
        ensures { powered_by result ≡ powered_up (supply_of supply) }
    {
        let FlatSupply { flat, mut kept } = supply;
        let number = kept.choices.refusal();
        kept.choices = kept.choices.settled();
        let core = Core::power_up(kept);
        FlatPowered {
            number,
            chip: FlatChip { core, flat },
        }
    }
}
