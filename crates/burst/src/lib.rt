// A burst by itself: what is heard of it, what follows for the wire, and what it is for the ports: which it sends data to, is clean and lasts for,
// connects again.
// The ports' own steps are in the crates port and repeater.
#![tactic(auto)]

ghost use Rattle.std.specs.Prelude.{◌≡◌, ◌&&◌};
ghost use Rattle.ports.specs.Sets.{is_at, set_of};
ghost use Rattle.burst.specs.Burst.{in_e, heard_of, signalled, word_of_one, effect_with, effect_of};
ghost use Rattle.burst.specs.Marks.{marks_of};
ghost use Rattle.burst.specs.Clean.{data_to, clean_at, lasting_at, reconnecting_at};

use management::Status;
use port::Port;

// A burst, from idle to idle, as its record has it.
#[derive(Clone, Copy)]
pub struct Activity {
    pub mask: u16,
    pub rate_error: bool,
    pub collision_signal: bool,
    pub loopback_missing: bool,
    pub sqe_test: bool,
    pub d: u32,
    pub x: u32,
}

// What the expansion bus brings while a burst lasts.
#[derive(Clone, Copy)]
pub enum Bus {
    Nothing,
}

// What the repeater does with a burst: nothing, data or jam.
#[derive(Clone, Copy, PartialEq, Eq)]
pub enum Word {
    Nil,
    Rep,
    Jam,
}

// How many ports are heard, and which where it is one.
#[derive(Clone, Copy)]
pub enum Heard {
    Nothing,
    One(usize),
    More,
}

// The first half: the active ports, those sent to, those heard, and their number.
#[derive(Clone, Copy)]
pub struct Hearing {
    pub e: u16,
    pub t: u16,
    pub h: u16,
    pub heard: Heard,
}

// The second half: the word, where it goes, who collides, the single heard port or no port, whether it is a collision for the credits, and whether
// two or more are heard.
#[derive(Clone, Copy)]
pub struct Effect {
    pub word: Word,
    pub out: u16,
    pub collided: u16,
    pub single: Option<usize>,
    pub collision: bool,
    pub transmit_collision: bool,
}

impl Activity {
    // A burst of more bit times than this trips the jabber lock-up protection, and is a very long event.
    pub const JABBER_ABOVE: u32 = 65536;

    // E.
    #[tactic(auto, using(crate::proofs::BurstLaws::active_signal, crate::proofs::BurstLaws::active_mask))]
    pub fn active(self) -> u16
        ensures { result ≡ set_of (in_e self) }
    {
        if self.collision_signal {
            self.mask | ports::only(ports::AUI)
        } else {
            self.mask
        }
    }

    // Whether the heard port, alone, makes a collision: AUI with its collision signal.
    fn signalled(self, port: usize) -> bool
        ensures { result ≡ signalled port self }
    {
        port == ports::AUI && self.collision_signal
    }

    fn word_of_one(self, port: usize) -> Word
        ensures { result ≡ word_of_one port self }
    {
        if self.signalled(port) || self.rate_error {
            Word::Jam
        } else {
            Word::Rep
        }
    }

    #[tactic(auto, using(crate::proofs::BurstLaws::collided_signal, crate::proofs::BurstLaws::collided_none))]
    fn collided_with_none(self, hearing: Hearing) -> u16
        ensures { result ≡ (effect_with Bus.Nothing Heard.Nothing hearing self).collided }
    {
        if self.collision_signal {
            ports::only(ports::AUI) & hearing.t
        } else {
            0
        }
    }

    #[tactic(auto, using(crate::proofs::BurstLaws::collided_one_all, crate::proofs::BurstLaws::collided_one_rest))]
    fn collided_with_one(self, port: usize, hearing: Hearing) -> u16
        ensures { result ≡ (effect_with Bus.Nothing (Heard.One port) hearing self).collided }
    {
        let both = hearing.e & hearing.t;
        if self.signalled(port) {
            both
        } else {
            ports::less(both, ports::only(port))
        }
    }

    // What follows where no port is heard.
    #[tactic(auto, using(crate::proofs::BurstLaws::with_none))]
    fn with_none(self, hearing: Hearing) -> Effect
        ensures { result ≡ effect_with Bus.Nothing Heard.Nothing hearing self }
    {
        Effect {
            word: Word::Nil,
            out: 0,
            collided: self.collided_with_none(hearing),
            single: None,
            collision: false,
            transmit_collision: false,
        }
    }

    // What follows where one port is heard.
    #[tactic(auto, using(crate::proofs::BurstLaws::with_one))]
    fn with_one(self, port: usize, hearing: Hearing) -> Effect
        ensures { result ≡ effect_with Bus.Nothing (Heard.One port) hearing self }
    {
        Effect {
            word: self.word_of_one(port),
            out: ports::less(hearing.t, ports::only(port)),
            collided: self.collided_with_one(port, hearing),
            single: Some(port),
            collision: self.signalled(port),
            transmit_collision: false,
        }
    }

    // What follows where two or more are heard.
    #[tactic(auto, using(crate::proofs::BurstLaws::with_more))]
    fn with_more(self, hearing: Hearing) -> Effect
        ensures { result ≡ effect_with Bus.Nothing Heard.More hearing self }
    {
        Effect {
            word: Word::Jam,
            out: hearing.t,
            collided: hearing.e & hearing.t,
            single: None,
            collision: true,
            transmit_collision: true,
        }
    }

    // The second half together.
    #[tactic(auto, unfolding(crate::specs::Burst::effect_of))]
    pub fn effect(self, bus: Bus, hearing: Hearing) -> Effect
        ensures { result ≡ effect_of bus hearing self }
    {
        match (bus, hearing.heard) {
            (Bus::Nothing, Heard::Nothing) => self.with_none(hearing),
            (Bus::Nothing, Heard::One(port)) => self.with_one(port, hearing),
            (Bus::Nothing, Heard::More) => self.with_more(hearing),
        }
    }

    // The single heard port if it carries a bit rate error.
    fn mistimed(self, single: Option<usize>) -> u16
        ensures { result ≡ set_of (λ i. self.rate_error && is_at single i) }
    {
        match single {
            Some(port) if self.rate_error => ports::only(port),
            _ => 0,
        }
    }

    // The status bits that the burst sets.
    pub fn marks(self, effect: Effect) -> Status
        ensures { result ≡ marks_of effect self }
    {
        let rates = self.mistimed(effect.single);
        Status {
            rate: ports::contains(rates, ports::AUI),
            sqe: self.sqe_test,
            loopback: self.loopback_missing && ports::contains(effect.out, ports::AUI),
            rates: (rates % 256) as u8,
            mjlp: Activity::JABBER_ABOVE < self.d && effect.out != 0,
        }
    }
}

// What the count of ones of a mask of heard ports says.
#[tactic(auto, unfolding(crate::specs::Burst::heard_of))]
pub fn count_heard(h: u16) -> Heard
    ensures { result ≡ heard_of h }
{
    match h.count_ones() {
        0 => Heard::Nothing,
        1 => Heard::One(h.trailing_zeros() as usize),
        _ => Heard::More,
    }
}

impl Effect {
    // The ports that data goes out to.
    #[tactic(auto, using(crate::proofs::CleanLaws::data_rep, crate::proofs::CleanLaws::data_none))]
    fn data(self) -> u16
        ensures { result ≡ set_of (data_to self) }
    {
        if self.word == Word::Rep { self.out } else { 0 }
    }

    // The ports that the burst is clean for.
    #[tactic(auto, using(crate::proofs::CleanLaws::clean_jam, crate::proofs::CleanLaws::clean_rest))]
    fn clean(self, hearing: Hearing) -> u16
        ensures { result ≡ set_of (clean_at hearing self) }
    {
        if self.word == Word::Jam {
            0
        } else {
            ports::less(hearing.e | self.data(), self.collided)
        }
    }

    // The ports that it is clean for and lasts.
    #[tactic(auto, using(crate::proofs::CleanLaws::lasting_long, crate::proofs::CleanLaws::lasting_short))]
    pub fn lasting(self, hearing: Hearing, activity: Activity) -> u16
        ensures { result ≡ set_of (lasting_at hearing self activity) }
    {
        if Port::LASTING_ABOVE < activity.d {
            self.clean(hearing)
        } else {
            0
        }
    }

    // Of these, the ones that it connects again if they are partitioned.
    #[tactic(auto, using(crate::proofs::CleanLaws::both_set, crate::proofs::CleanLaws::reconnecting_all), unfolding(crate::specs::Clean::reconnecting_at))]
    pub fn reconnecting(self, lasting: u16, alternate: bool) -> u16
        ensures { result ≡ set_of (reconnecting_at self lasting alternate) }
    {
        if alternate {
            lasting & self.data()
        } else {
            lasting
        }
    }
}
