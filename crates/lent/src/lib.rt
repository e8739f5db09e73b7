// The host's record, lent: the caller keeps it, and each access alters it where it stands. The work is done by value; the functions here
// take the record out whole and put it back whole. It starts as `host::Host::power_up()`, and that is what a reset leaves in it.
#![tactic(auto)]

ghost use Rattle.std.specs.Prelude.{◌≡◌};
ghost use Rattle.chip.specs.Flat.{chip_of};
ghost use Rattle.himib.specs.Step.{step_of};
ghost use Rattle.lent.specs.Lent.{together, requested, bare, request_for, c_write, c_read, d_write, d_read};

pub mod lists;

use answer::Answer;
use chip::FlatChip;
use host::Host;
use record::{Access, Asked, Record, Refusal};

// What comes back beside the lent record.
#[derive(Clone, Copy)]
pub struct Rest {
    pub chip: FlatChip,
    pub answer: Answer,
}

// A request on a lent record.
fn take(host: &mut Host, chip: FlatChip, request: Record) -> Rest
    ensures { together result host.new ≡ requested request (chip_of chip) host.old }
{
    let s = himib::take(chip, *host, request.asked, request.source);
    *host = s.host;
    Rest {
        chip: s.chip,
        answer: s.answer,
    }
}

// A C write. Each access is a function by its name, and none with an `Access`: OneLent and LentIsStill (ties/specs/Outcomes) say of each what it promises.
pub fn write_c(host: &mut Host, chip: FlatChip, byte: u8) -> Rest
    ensures { together result host.new ≡ requested (c_write byte) (chip_of chip) host.old }
{
    take(host, chip, c_write(byte))
}

// A D write.
pub fn write_d(host: &mut Host, chip: FlatChip, byte: u8) -> Rest
    ensures { together result host.new ≡ requested (d_write byte) (chip_of chip) host.old }
{
    take(host, chip, d_write(byte))
}

// A C read.
pub fn read_c(host: &mut Host, chip: FlatChip) -> Rest
    ensures { together result host.new ≡ requested c_read (chip_of chip) host.old }
{
    take(host, chip, request_for(Access::ReadC))
}

// A D read.
pub fn read_d(host: &mut Host, chip: FlatChip) -> Rest
    ensures { together result host.new ≡ requested d_read (chip_of chip) host.old }
{
    take(host, chip, request_for(Access::ReadD))
}

// A record of any bytes, of any length.
#[tactic(auto, unfolding(himib::specs::Step::step_of))]
pub fn step(host: &mut Host, chip: FlatChip, bytes: &[u8]) -> Rest
    ensures { together result host.new ≡ step_of (chip_of chip) host.old bytes.now }
{
    take(host, chip, record::read_record(bytes))
}

// An access as a request.
fn request_for(access: Access) -> Record
    ensures { result ≡ request_for access }
{
    bare(Asked::Access(access))
}

// A request with no source address: only a burst has one.
fn bare(asked: Asked) -> Record
    ensures { result ≡ bare asked }
{
    Record {
        asked,
        source: [0; 6],
    }
}

// What a C write asks for: a byte that selects neither P nor R is turned away.
fn c_write(byte: u8) -> Record
    ensures { result ≡ c_write byte }
{
    if record::selects_neither(byte) {
        return bare(Asked::Refused(u8::from(Refusal::SelectsNeither)));
    }
    request_for(Access::WriteC(byte))
}

// What a D write asks for.
fn d_write(byte: u8) -> Record
    ensures { result ≡ d_write byte }
{
    request_for(Access::WriteD(byte))
}
