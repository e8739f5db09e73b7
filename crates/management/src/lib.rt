// Management: which byte is which command, and the status bits that the Get commands report: B, S and L of AUI, the TP ports' bit rate errors, and M (MJLP).
#![tactic(auto)]

ghost use Rattle.std.specs.Prelude.{◌≡◌};
ghost use Rattle.management.specs.Commands.{command_of};
ghost use Rattle.management.specs.Status.{clear_status, marked, cleared_by};

#[derive(Clone, Copy)]
pub enum Setting {
    AlternateAui,
    AlternateTp,
    DisableAui,
    EnableAui,
    DisableTp(u8),
    EnableTp(u8),
    LinkTestOff(u8),
    LinkTestOn(u8),
}

#[derive(Clone, Copy)]
pub enum Query {
    Aui,
    AuiClearB,
    AuiClearSl,
    AuiClearBsl,
    Partition,
    Rates,
    Link,
    Mjlp,
    Version,
}

// A byte that is no command is `Unlisted`, and no `None`: `command_of`, `forty_five` and `rows` name it.
#[derive(Clone, Copy)]
pub enum Command {
    Set(Setting),
    Get(Query),
    Unlisted,
}

// The command that a byte is. The last three bits of each range's bytes name a TP port.
#[tactic(auto, unfolding(crate::specs::Commands::command_of))]
pub fn decode(byte: u8) -> Command
    ensures { result ≡ command_of byte }
{
    match byte {
        0b0001_1111 => Command::Set(Setting::AlternateAui),
        0b0001_0000 => Command::Set(Setting::AlternateTp),
        0b0010_1111 => Command::Set(Setting::DisableAui),
        0b0011_1111 => Command::Set(Setting::EnableAui),
        0b1000_1111 => Command::Get(Query::AuiClearBsl),
        0b1000_1011 => Command::Get(Query::AuiClearSl),
        0b1000_1101 => Command::Get(Query::AuiClearB),
        0b1000_1001 => Command::Get(Query::Aui),
        0b1000_0000 => Command::Get(Query::Partition),
        0b1010_0000 => Command::Get(Query::Rates),
        0b1101_0000 => Command::Get(Query::Link),
        0b1111_0000 => Command::Get(Query::Mjlp),
        0b1111_1111 => Command::Get(Query::Version),
        0b0010_0000..=0b0010_0111 => Command::Set(Setting::DisableTp(byte - 0b0010_0000)),
        0b0011_0000..=0b0011_0111 => Command::Set(Setting::EnableTp(byte - 0b0011_0000)),
        0b0100_0000..=0b0100_0111 => Command::Set(Setting::LinkTestOff(byte - 0b0100_0000)),
        0b0101_0000..=0b0101_0111 => Command::Set(Setting::LinkTestOn(byte - 0b0101_0000)),
        _ => Command::Unlisted,
    }
}

#[derive(Clone, Copy, Default)]
pub struct Status {
    pub rate: bool,
    pub sqe: bool,
    pub loopback: bool,
    pub rates: u8,
    pub mjlp: bool,
}

impl Status {
    // Nothing reported: at power-up and after a reset.
    pub fn power_up() -> Status
        ensures { result ≡ clear_status }
    {
        Status::default()
    }

    // The status with the bits of another set as well.
    #[tactic(auto, unfolding(crate::specs::Status::marked))]
    pub fn mark(self, marks: Status) -> Status
        ensures { result ≡ marked self marks }
    {
        Status {
            rate: self.rate || marks.rate,
            sqe: self.sqe || marks.sqe,
            loopback: self.loopback || marks.loopback,
            rates: self.rates | marks.rates,
            mjlp: self.mjlp || marks.mjlp,
        }
    }

    // The status after a Get.
    #[tactic(auto, unfolding(crate::specs::Status::cleared_by))]
    pub fn clear(self, query: Query) -> Status
        ensures { result ≡ cleared_by query self }
    {
        match query {
            Query::Aui | Query::Partition | Query::Link | Query::Version => self,
            Query::AuiClearB => Status {
                rate: false,
                ..self
            },
            Query::AuiClearSl => Status {
                sqe: false,
                loopback: false,
                ..self
            },
            Query::AuiClearBsl => Status {
                rate: false,
                sqe: false,
                loopback: false,
                ..self
            },
            Query::Rates => Status { rates: 0, ..self },
            Query::Mjlp => Status {
                mjlp: false,
                ..self
            },
        }
    }
}
