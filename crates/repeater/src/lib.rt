// The repeater chip, an IMR+ (Am79C981): its nine ports with their algorithms, and its status. Here stands what bursts, link pulses, ticks and commands do
// to it, and what may be asked of it. It knows nothing of the HIMIB, which stands above it on these contracts.
#![tactic(auto)]

ghost use Rattle.std.specs.Prelude.{◌≡◌, cond, eqb};
ghost use Rattle.ports.specs.Sets.{aui, has, set_of};
ghost use Rattle.burst.specs.Clean.{lasting_at};
ghost use Rattle.store.specs.Door.{each_in};
ghost use Rattle.repeater.specs.Reset.{power_up};
ghost use Rattle.repeater.specs.Hearing.{hearing_of};
ghost use Rattle.repeater.specs.Answers.{aui_byte, answer_of};
ghost use Rattle.repeater.specs.Those.{Transmitting, Listening};
ghost use Rattle.repeater.specs.Repeater.{quieted, port_after, followed, burst_of, changed_at, changed_tp, set_to, got_of};
ghost use Rattle.repeater.specs.Repeater.{those_of, partitioned_of, linked_of, enabled_of};

use burst::{Activity, Bus, Effect, Hearing};
use management::{Query, Setting, Status};
use port::{Change, Port};
use ports::Quiet;
use store::{Meetings, Ports};

#[derive(Clone, Copy)]
pub struct Repeater {
    pub ports: Ports,
    pub alternate_aui: bool,
    pub alternate_tp: bool,
    pub status: Status,
}

// The repeater after a burst, and everything about the burst that the layer above may know.
#[derive(Clone, Copy)]
pub struct Bursted {
    pub repeater: Repeater,
    pub hearing: Hearing,
    pub effect: Effect,
    pub marks: Status,
}

// The repeater after a Get, and the answer.
#[derive(Clone, Copy)]
pub struct Got {
    pub repeater: Repeater,
    pub value: u8,
}

// Of two sets, by AUI's algorithm and by the TP ports', the place of AUI from the one and all others from the other.
fn algorithms(for_aui: u16, for_tp: u16) -> u16
    ensures { result ≡ set_of (λ i. cond (eqb i aui) (has for_aui i) (has for_tp i)) }
{
    let aui = ports::only(ports::AUI);
    (for_aui & aui) | ports::less(for_tp, aui)
}

impl Repeater {
    // The version that the Get for it reports.
    pub const VERSION: u8 = 1;

    // The repeater at power-up. A reset leaves the same.
    pub fn power_up() -> Self
        ensures { result ≡ power_up }
    {
        Self {
            ports: Ports::alike(Port::tp_power_up(), Port::aui_power_up()),
            alternate_aui: false,
            alternate_tp: false,
            status: Status::power_up(),
        }
    }

    // After what happens between bursts: link pulses at the mask's TP ports, or a tick of 1 ms.
    #[tactic(auto, unfolding(crate::specs::Repeater::quieted, crate::specs::Door::each_port))]
    pub fn quiet(mut self, quiet: Quiet) -> Self
        ensures { result ≡ quieted quiet self }
    {
        self.ports = match quiet {
            Quiet::Pulse(mask) => self.ports.pulse(mask),
            Quiet::Tick => self.ports.tick(),
        };
        self
    }

    // T.
    fn transmitting(self) -> u16
        ensures { result ≡ those_of Transmitting self }
    {
        self.ports.enabled() & (self.ports.passing() | ports::only(ports::AUI))
    }

    // L.
    fn listening(self) -> u16
        ensures { result ≡ those_of Listening self }
    {
        ports::less(self.transmitting(), self.partitioned())
    }

    // The first half of a burst: what is heard of it.
    fn hear(self, activity: Activity) -> Hearing
        ensures { result ≡ hearing_of self activity }
    {
        let e = activity.active();
        let h = e & self.listening();
        Hearing {
            e,
            t: self.transmitting(),
            h,
            heard: burst::count_heard(h),
        }
    }

    // All ports after a burst: their partition steps, by sets that were taken before it, and then the links of those that were active.
    fn ports_after(self, hearing: Hearing, effect: Effect, activity: Activity) -> Ports
        ensures { result ≡ each_in (port_after self.alternate_aui self.alternate_tp hearing effect activity (set_of (lasting_at hearing effect activity))) self.ports }
    {
        let lasting = effect.lasting(hearing, activity);
        let back_aui = effect.reconnecting(lasting, self.alternate_aui);
        let back_tp = effect.reconnecting(lasting, self.alternate_tp);
        let back = algorithms(back_aui, back_tp);
        let met = self.ports.meet(Meetings {
            t: hearing.t,
            collided: effect.collided,
            clean: lasting,
            back,
            x: activity.x,
        });
        met.revive(activity.mask)
    }

    // The second half of a burst: what follows from a hearing, wherever it comes from.
    #[tactic(auto, unfolding(crate::specs::Repeater::followed, crate::specs::Door::each_port))]
    fn follow(self, bus: Bus, hearing: Hearing, activity: Activity) -> Bursted
        ensures { result ≡ followed self bus hearing activity }
    {
        let effect = activity.effect(bus, hearing);
        let marks = activity.marks(effect);
        let repeater = Self {
            ports: self.ports_after(hearing, effect, activity),
            status: self.status.mark(marks),
            ..self
        };
        Bursted {
            repeater,
            hearing,
            effect,
            marks,
        }
    }

    // After a burst.
    #[tactic(auto, unfolding(crate::specs::Repeater::burst_of))]
    pub fn burst(self, activity: Activity) -> Bursted
        ensures { result ≡ burst_of self activity }
    {
        let hearing = self.hear(activity);
        self.follow(Bus::Nothing, hearing, activity)
    }

    // After a change of the port at place i.
    #[tactic(auto, unfolding(crate::specs::Repeater::changed_at, crate::specs::Door::put_at, crate::specs::Door::port_at))]
    fn change_at(mut self, how: Change, i: usize) -> Self
        ensures { result ≡ changed_at how i self }
    {
        self.ports = self.ports.put(i, self.ports.find(i).change(how));
        self
    }

    // After a change of a TP port.
    #[tactic(auto, unfolding(crate::specs::Repeater::changed_tp))]
    fn change_tp(self, how: Change, i: u8) -> Self
        ensures { result ≡ changed_tp how i self }
    {
        let i = usize::from(i);
        if i < ports::AUI {
            self.change_at(how, i)
        } else {
            self
        }
    }

    // After a Set.
    #[tactic(auto, unfolding(crate::specs::Repeater::set_to))]
    pub fn set(self, setting: Setting) -> Self
        ensures { result ≡ set_to setting self }
    {
        match setting {
            Setting::AlternateAui => Self {
                alternate_aui: true,
                ..self
            },
            Setting::AlternateTp => Self {
                alternate_tp: true,
                ..self
            },
            Setting::DisableAui => self.change_at(Change::Disabling, ports::AUI),
            Setting::EnableAui => self.change_at(Change::EnablingAui, ports::AUI),
            Setting::DisableTp(i) => self.change_tp(Change::Disabling, i),
            Setting::EnableTp(i) => self.change_tp(Change::EnablingTp, i),
            Setting::LinkTestOff(i) => self.change_tp(Change::StoppingTest, i),
            Setting::LinkTestOn(i) => self.change_tp(Change::StartingTest, i),
        }
    }

    // PBSL0000.
    #[tactic(auto, unfolding(crate::specs::Door::port_at))]
    fn aui_byte(self) -> u8
        ensures { result ≡ aui_byte self }
    {
        let connected = !self.ports.find(ports::AUI).partitioned;
        128 * u8::from(connected)
            + 64 * u8::from(self.status.rate)
            + 32 * u8::from(self.status.sqe)
            + 16 * u8::from(self.status.loopback)
    }

    // The byte that a Get gives.
    #[tactic(auto, unfolding(crate::specs::Answers::answer_of))]
    fn answer(self, query: Query) -> u8
        ensures { result ≡ answer_of query self }
    {
        match query {
            Query::Aui | Query::AuiClearB | Query::AuiClearSl | Query::AuiClearBsl =>
                self.aui_byte(),
            Query::Partition => 255 - (self.partitioned() % 256) as u8,
            Query::Rates => self.status.rates,
            Query::Link => (self.linked() % 256) as u8,
            Query::Mjlp => 128 * u8::from(self.status.mjlp),
            Query::Version => Self::VERSION,
        }
    }

    // After a Get, with its answer.
    #[tactic(auto, unfolding(crate::specs::Repeater::got_of))]
    pub fn get(self, query: Query) -> Got
        ensures { result ≡ got_of query self }
    {
        let value = self.answer(query);
        let repeater = Self {
            status: self.status.clear(query),
            ..self
        };
        Got { repeater, value }
    }

    // The partitioned ports.
    #[tactic(auto, unfolding(crate::specs::Repeater::those_of, crate::specs::Repeater::among, crate::specs::Door::port_at))]
    pub fn partitioned(self) -> u16
        ensures { result ≡ partitioned_of self }
    {
        self.ports.partitioned()
    }

    // The TP ports whose link passes.
    pub fn linked(self) -> u16
        ensures { result ≡ linked_of self }
    {
        self.ports.passing() & ports::TP
    }

    // The enabled ports.
    #[tactic(auto, unfolding(crate::specs::Repeater::those_of, crate::specs::Repeater::among, crate::specs::Door::port_at))]
    pub fn enabled(self) -> u16
        ensures { result ≡ enabled_of self }
    {
        self.ports.enabled()
    }
}
