// The HIMIB of document 01, above the repeater: a burst on the whole chip, and one record of any bytes. It uses what the crates below promise, and nothing
// else of them.
#![tactic(auto)]

ghost use Rattle.std.specs.Prelude.{◌≡◌};
ghost use Rattle.chip.specs.Flat.{chip_of};
ghost use Rattle.himib.specs.Bursts.{activity_of};
ghost use Rattle.himib.specs.Step.{taken, step_of};
ghost use Rattle.himib.specs.Flat.{stepped_by, Bursts, Addressed, Follows};

use answer::Answer;
use attributes::{Due, Flat, Met, Nine};
use burst::Activity;
use chip::{Chip, Core, FlatChip};
use host::Host;
use record::{Asked, Burst};

// What the rules speak of: after a burst, but for the attributes, the core, what is to be credited, and the answer;
#[derive(Clone, Copy)]
pub struct Noted {
    pub core: Core,
    pub due: Due,
    pub answer: Answer,
}

// after a burst;
#[derive(Clone, Copy)]
pub struct Credited {
    pub core: Core,
    pub attributes: Nine,
    pub answer: Answer,
}

// after any record.
#[derive(Clone, Copy)]
pub struct Stepped {
    pub chip: Chip,
    pub host: Host,
    pub answer: Answer,
}

// What the functions give back. After a burst: the counters and addresses stand in what was lent.
#[derive(Clone, Copy)]
pub struct Spoken {
    pub core: Core,
    pub answer: Answer,
}

// After any record, likewise;
#[derive(Clone, Copy)]
pub struct Followed {
    pub core: Core,
    pub host: Host,
    pub answer: Answer,
}

// and by value. Left and Stepped are two types for the reason that the crate chip gives of Chip and FlatChip.
#[derive(Clone, Copy)]
pub struct Left {
    pub chip: FlatChip,
    pub host: Host,
    pub answer: Answer,
}

impl Followed {
    // Done, with nothing to tell.
    fn done(core: Core, host: Host) -> Self
        ensures { result ≡ record { core = core; host = host; answer = Answer.Done } }
    {
        Followed {
            core,
            host,
            answer: Answer::Done,
        }
    }

    // Turned away: nothing changes.
    fn turn_away(core: Core, host: Host, number: u8) -> Self
        ensures { result ≡ record { core = core; host = host; answer = Answer.Refused number } }
    {
        Followed {
            core,
            host,
            answer: Answer::Refused(number),
        }
    }
}

// The part of a burst record that is the repeater's. No From: neither type is this crate's, and of the crates that have them neither stands on the other.
#[tactic(auto, unfolding(crate::specs::Bursts::activity_of))]
fn activity(b: Burst) -> Activity
    ensures { result ≡ activity_of b }
{
    Activity {
        mask: b.mask,
        rate_error: b.rate_error,
        collision_signal: b.collision_signal,
        loopback_missing: b.loopback_missing,
        sqe_test: b.sqe_test,
        d: b.d,
        x: b.x,
    }
}

// A burst on the core, and its credits in the counters and addresses. Core, counters and host's record come one by one, as in access.
#[tactic(auto, unfolding(crate::specs::Bursts::burst_on, crate::specs::Bursts::noted_on, crate::specs::Bursts::burst_core, chip::specs::Chip::moved))]
pub fn burst(core: Core, flat: &mut Flat, b: Burst, source: [u8; 6]) -> Spoken
    ensures { Bursts core b source flat.old result flat.new }
{
    let bursted = core.repeater.burst(activity(b));
    let before = core.repeater.partitioned();
    let after = bursted.repeater.partitioned();
    let effect = bursted.effect;
    let marks = bursted.marks;
    let met = Met {
        heard: bursted.hearing.h,
        single: effect.single,
        collision: effect.collision,
        cut: ports::less(after, before),
        limit: core.kept.choices.short_limit,
    };
    let due = flat.credit(met, b, source);
    let moved = core.move_by(
        bursted.repeater,
        before ^ after,
        marks.loopback,
        marks.sqe,
        due.changed,
    );
    Spoken {
        core: moved.total(effect.transmit_collision, due.octets),
        answer: Answer::Sent(effect.word, effect.out),
    }
}

// The address that an access wrote whole, if it did.
#[tactic(auto, using(crate::proofs::FlatLaws::addressed_any), unfolding(crate::specs::Step::addressed_at))]
pub fn write_address(flat: &mut Flat, port: Option<usize>, bytes: [u8; 6])
    ensures { Addressed port bytes flat.old flat.new }
{
    if let Some(port) = port {
        flat.readdress(port, bytes);
    }
}

// After whatever a record asks for. The counters and addresses are lent.
#[tactic(auto, unfolding(crate::specs::Step::taken))]
pub fn follow(core: Core, flat: &mut Flat, h: Host, asked: Asked, source: [u8; 6]) -> Followed
    ensures { Follows core h asked source flat.old result flat.new }
{
    match asked {
        Asked::Burst(b) => {
            let spoken = burst(core, flat, b, source);
            Followed {
                core: spoken.core,
                host: h,
                answer: spoken.answer,
            }
        }
        Asked::Quiet(quiet) => Followed::done(core.pass(quiet), h),
        Asked::Access(a) => {
            let acted = access::serve(core, flat, h, a);
            write_address(flat, acted.port, acted.host.bytes);
            Followed {
                core: acted.core,
                host: acted.host,
                answer: acted.answer,
            }
        }
        Asked::Reset => Followed::done(core.reset(), Host::power_up()),
        Asked::Refused(number) => Followed::turn_away(core, h, number),
    }
}

// After what a record asks for, by value.
pub fn take(mut chip: FlatChip, h: Host, asked: Asked, source: [u8; 6]) -> Left
    ensures { stepped_by result ≡ taken asked source (chip_of chip) h }
{
    let followed = follow(chip.core, &mut chip.flat, h, asked, source);
    chip.core = followed.core;
    Left {
        chip,
        host: followed.host,
        answer: followed.answer,
    }
}

// After any bytes.
#[tactic(auto, unfolding(crate::specs::Step::step_of))]
pub fn step(chip: FlatChip, h: Host, bytes: &[u8]) -> Left
    ensures { stepped_by result ≡ step_of (chip_of chip) h bytes.now }
{
    let record = record::read_record(bytes);
    take(chip, h, record.asked, record.source)
}
