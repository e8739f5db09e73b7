// The host's accesses on the chip: what each register holds, what reading and writing it does, and the four accesses. The register map and the byte
// sequences are the crate host's. The core, the counters and the host's record come one by one: the run program keeps them apart, for speed, and alters only what
// a record changes.
#![tactic(auto)]

ghost use Rattle.std.specs.Prelude.{◌≡◌};
ghost use Rattle.record.specs.Numbers.{number_of};
ghost use Rattle.attributes.specs.Flat.{nine_in};
ghost use Rattle.access.specs.Access.{value_of, read_by, obeyed, strange, plain, written_by, done, turned_away, c_read_of, read_of, write_of, d_read_of, d_write_of, served};

use answer::Answer;
use attributes::Flat;
use chip::Core;
use host::{Host, Register, Role, Row};
use management::Command;
use record::{Access, Refusal};

// After an access: the port is the one whose address was written whole, or none.
#[derive(Clone, Copy)]
pub struct Acted {
    pub core: Core,
    pub host: Host,
    pub answer: Answer,
    pub port: Option<usize>,
}

// What a written byte does by the role of its register: the core after it, and the port whose address it belongs to.
#[derive(Clone, Copy)]
struct Written {
    core: Core,
    port: Option<usize>,
}

// himib has two such functions for its own result, which has no port: a type for both would be no plainer.
impl Acted {
    // Done, with no address written.
    fn done(core: Core, host: Host) -> Self
        ensures { result ≡ done core host }
    {
        Acted {
            core,
            host,
            answer: Answer::Done,
            port: None,
        }
    }

    // Turned away: nothing changes.
    fn turn_away(core: Core, host: Host, refusal: Refusal) -> Self
        ensures { result ≡ turned_away core host (number_of refusal) }
    {
        Acted {
            core,
            host,
            answer: Answer::Refused(u8::from(refusal)),
            port: None,
        }
    }
}

impl Written {
    // A byte that does nothing by itself.
    fn nothing(core: Core) -> Self
        ensures { result ≡ plain core }
    {
        Written { core, port: None }
    }
}

// The device version that P 0 R 28 gives.
const DEVICE: u8 = 1;

// The six bytes that a register holds.
#[tactic(auto, unfolding(crate::specs::Access::value_of))]
fn value(core: Core, flat: &Flat, register: Register) -> [u8; 6]
    ensures { result ≡ value_of core (nine_in flat.now) register }
{
    match register {
        Register::Unlisted | Register::SetPort => host::single(0),
        Register::TransmitCollisions => host::spread(core.kept.transmit_collisions),
        Register::TotalOctets => host::spread(core.kept.total_octets),
        Register::Version => host::single(DEVICE),
        Register::GetPort => host::single(core.g),
        Register::Change(r) => host::single(changes::bits_at(core.changes, usize::from(r))),
        Register::Enable(r) => host::single(changes::bits_at(core.enables, usize::from(r))),
        Register::Counter(p, r) => { host::spread(flat.counter(usize::from(p), usize::from(r))) }
        Register::Address(p) => flat.address(usize::from(p)),
    }
}

// The core after a read, by the role of the register: one that has change bits is cleared.
#[tactic(auto, unfolding(crate::specs::Access::read_by))]
fn see(core: Core, role: Role) -> Core
    ensures { result ≡ read_by role core }
{
    match role {
        Role::Cleared(r) => Core {
            changes: changes::with_bits(core.changes, usize::from(r), 0),
            ..core
        },
        Role::Plain | Role::Commands(_) | Role::Enables(_) | Role::Address(_) => core,
    }
}

// After a command, written to G or else to S.
#[tactic(auto, unfolding(crate::specs::Access::obeyed))]
fn obey(core: Core, through_g: bool, command: Command) -> Core
    ensures { result ≡ obeyed through_g command core }
{
    match command {
        Command::Set(setting) => Core {
            interface_error: core.interface_error | through_g,
            ..core.move_to(core.repeater.set(setting))
        },
        Command::Get(query) => {
            let got = core.repeater.get(query);
            Core {
                interface_error: core.interface_error | !through_g,
                g: got.value,
                ..core.move_to(got.repeater)
            }
        }
        Command::Unlisted => core,
    }
}

// A written byte, by the role of the register.
#[tactic(auto, unfolding(crate::specs::Access::written_by))]
fn write(core: Core, role: Role, byte: u8) -> Written
    ensures { result ≡ written_by role byte core }
{
    match role {
        Role::Plain | Role::Cleared(_) => Written::nothing(core),
        Role::Commands(through_g) => {
            Written::nothing(obey(core, through_g, management::decode(byte)))
        }
        Role::Enables(r) => Written::nothing(Core {
            enables: changes::with_bits(core.enables, usize::from(r), changes::keep_bits(r, byte)),
            ..core
        }),
        Role::Address(p) => Written {
            core,
            port: Some(usize::from(p)),
        },
    }
}

// A C read: interrupt in bit 7, and below it the interface error, which the read clears.
#[tactic(auto, using(crate::proofs::AccessLaws::bit7_le), unfolding(crate::specs::Access::c_read_of))]
pub fn read_c(core: Core, h: Host) -> Acted
    ensures { result ≡ c_read_of core h }
{
    let interrupt = changes::bit_7(changes::is_pending(core.changes, core.enables));
    Acted {
        core: Core {
            interface_error: false,
            ..core
        },
        host: h,
        answer: Answer::Value(interrupt + 64 * u8::from(core.interface_error)),
        port: None,
    }
}

// An accepted D read.
#[tactic(auto, unfolding(crate::specs::Access::read_of))]
fn read(core: Core, flat: &Flat, h: Host, row: Row) -> Acted
    ensures { result ≡ read_of row core (nine_in flat.now) h }
{
    let held = value(core, flat, row.register);
    let reading = host::read_byte(h, row.size, held);
    Acted {
        core: see(core, row.role),
        host: reading.host,
        answer: Answer::Value(reading.byte),
        port: None,
    }
}

// A D read.
#[tactic(auto, unfolding(crate::specs::Access::d_read_of))]
pub fn read_d(core: Core, flat: &Flat, h: Host) -> Acted
    ensures { result ≡ d_read_of core (nine_in flat.now) h }
{
    let row = host::row_at(h.page, h.register);
    if row.size == 0 {
        Acted::turn_away(core, h, Refusal::UnlistedRegister)
    } else if !row.readable {
        Acted::turn_away(core, h, Refusal::WrongDirection)
    } else {
        read(core, flat, h, row)
    }
}

// Whether a register takes commands, and a byte is none.
fn is_strange(role: Role, byte: u8) -> bool
    ensures { result ≡ strange role byte }
{
    matches!(
        (role, management::decode(byte)),
        (Role::Commands(_), Command::Unlisted)
    )
}

// An accepted D write.
#[tactic(auto, unfolding(crate::specs::Access::write_of))]
fn accept(core: Core, h: Host, row: Row, byte: u8) -> Acted
    ensures { result ≡ write_of row core h byte }
{
    let written = write(core, row.role, byte);
    let writing = host::write_byte(h, row.size, byte);
    Acted {
        core: written.core,
        host: writing.host,
        answer: Answer::Done,
        port: if writing.complete { written.port } else { None },
    }
}

// A D write.
#[tactic(auto, unfolding(crate::specs::Access::d_write_of))]
pub fn write_d(core: Core, h: Host, byte: u8) -> Acted
    ensures { result ≡ d_write_of core h byte }
{
    let row = host::row_at(h.page, h.register);
    if row.size == 0 {
        Acted::turn_away(core, h, Refusal::UnlistedRegister)
    } else if !row.writable {
        Acted::turn_away(core, h, Refusal::WrongDirection)
    } else if is_strange(row.role, byte) {
        Acted::turn_away(core, h, Refusal::UnlistedCommand)
    } else {
        accept(core, h, row, byte)
    }
}

// Any access.
#[tactic(auto, unfolding(crate::specs::Access::served))]
pub fn serve(core: Core, flat: &Flat, h: Host, access: Access) -> Acted
    ensures { result ≡ served access core (nine_in flat.now) h }
{
    match access {
        Access::WriteC(byte) => Acted::done(core, host::select(h, byte)),
        Access::WriteD(byte) => write_d(core, h, byte),
        Access::ReadC => read_c(core, h),
        Access::ReadD => read_d(core, flat, h),
    }
}
