// How the nine ports are kept: sets of ports as masks, and for each place a row of the three numbers that a port counts. Only this crate knows it. What
// is done to many ports goes through the places of a mask, the lowest first, one row at a time.
#![tactic(auto)]

ghost use Rattle.std.specs.Prelude.{◌-◌, ◌^◌, ◌<◌, ◌≡◌, Bool, cond, ◌&&◌, eqb, ltb, get_or};
ghost use Rattle.std.specs.Fn.{FnOnceReturnsAtMut};
ghost use Rattle.std.specs.Int.Bits.{bit_or};
ghost use Rattle.history.specs.History.{partitions_at, long_above};
ghost use Rattle.ports.specs.Sets.{port_count, has, set_of, without};
ghost use Rattle.ports.specs.Each.{each};
ghost use Rattle.port.specs.Link.{ticked_at, pulsed_at, revived_at};
ghost use Rattle.store.specs.Door.{no_row, port_in, put_in, each_in, alike_in, met_in};
ghost use Rattle.store.specs.declared.Row.{Row};
ghost use Rattle.store.specs.Visits.{on_set, Gives};

use port::Port;

// What a port counts: ticks without activity, pulses while its link fails, and collided bursts.
#[derive(Clone, Copy, Default)]
pub struct Row {
    pub idle: u8,
    pub pulses: u8,
    pub count: u8,
}

// The ports that are enabled, whose link is tested, whose link passes and that are partitioned; and their rows. Masks beside the rows, and not flags in them:
// specs/Door says so of what is kept, and sets of ports are asked for at each burst.
#[derive(Clone, Copy)]
pub struct Ports {
    pub enabled: u16,
    pub tested: u16,
    pub passing: u16,
    pub partitioned: u16,
    pub rows: [Row; ports::COUNT],
}

// What a burst is for the ports: those sent to, those that collide, those that it is clean for and lasts, those that it connects again; and how long the
// collision was.
#[derive(Clone, Copy)]
pub struct Meetings {
    pub t: u16,
    pub collided: u16,
    pub clean: u16,
    pub back: u16,
    pub x: u32,
}

// A visit to the rows of a mask's places, the lowest first: the places whose row it found full.
fn visit_all<F: Fn(&mut Row) -> bool>(rows: &mut [Row; ports::COUNT], mask: u16, visit: F) -> u16
    requires low { mask < 2 ^ port_count }
    requires calls { F.IsAlwaysCallable visit }
    ensures { (next : Row → Row) (test : Row → Bool) → Gives (FnOnceReturnsAtMut F.FnOnce visit) next test → (rows.new ≡ each (on_set mask next) rows.old) × (result ≡ set_of (λ i. has mask i && test (get_or rows.old i no_row))) }
{
    let mut full: u16 = 0;
    for i in ports::places_of(mask) {
        if visit(&mut rows[i]) {
            full |= ports::only(i);
        }
    }
    full
}

// The count at which a collision of x bit times partitions: any, if it is long.
fn last_before(x: u32) -> u8
    ensures { result ≡ cond (ltb long_above x) 0 (partitions_at - 1) }
{
    if Port::LONG_ABOVE < x {
        0
    } else {
        Port::PARTITIONS_AT - 1
    }
}

// A mask with port i or without it.
fn with_bit(mask: u16, i: usize, b: bool) -> u16
    ensures { result ≡ cond b (bit_or mask (set_of (λ j. eqb j i))) (without mask (set_of (λ j. eqb j i))) }
{
    let one = ports::only(i);
    if b {
        mask | one
    } else {
        ports::less(mask, one)
    }
}

impl Ports {
    // Nine ports: every TP port as one, and AUI as another.
    pub fn alike(tp: Port, last: Port) -> Self
        ensures { result ≡ alike_in tp last }
    {
        // tried: `Self::default()`; of an array std's Default says that each element is a default of its type, and the proof does not close
        let mut out = Self {
            enabled: 0,
            tested: 0,
            passing: 0,
            partitioned: 0,
            rows: [Row::default(); ports::COUNT],
        };
        // `put` is asked by the port's place; nothing is walked here.
        for i in 0..ports::COUNT {
            out = out.put(i, tp);
        }
        out.put(ports::AUI, last)
    }

    // The port at place i; past the last, one with nothing set.
    pub fn find(self, i: usize) -> Port
        ensures { result ≡ port_in self i }
    {
        if ports::COUNT <= i {
            return Port::default();
        }
        let row = self.rows[i];
        Port {
            enabled: ports::contains(self.enabled, i),
            link_test: ports::contains(self.tested, i),
            link_pass: ports::contains(self.passing, i),
            idle: row.idle,
            pulses: row.pulses,
            partitioned: ports::contains(self.partitioned, i),
            count: row.count,
        }
    }

    // With another port at place i; past the last, as it was.
    pub fn put(mut self, i: usize, p: Port) -> Self
        ensures { result ≡ put_in i p self }
    {
        if i < ports::COUNT {
            self.enabled = with_bit(self.enabled, i, p.enabled);
            self.tested = with_bit(self.tested, i, p.link_test);
            self.passing = with_bit(self.passing, i, p.link_pass);
            self.partitioned = with_bit(self.partitioned, i, p.partitioned);
            self.rows[i] = Row {
                idle: p.idle,
                pulses: p.pulses,
                count: p.count,
            };
        }
        self
    }

    // After a tick of 1 ms.
    pub fn tick(mut self) -> Self
        ensures { result ≡ each_in ticked_at self }
    {
        let failed = visit_all(&mut self.rows, self.tested & ports::TP, |row| {
            let fails = Port::LINK_FAILS_AT - 1 <= row.idle;
            if fails {
                row.idle = 0;
                row.pulses = 0;
            } else {
                row.idle += 1;
            }
            fails
        });
        self.passing = ports::less(self.passing, failed);
        self
    }

    // After link pulses at the mask's TP ports.
    pub fn pulse(mut self, mask: u16) -> Self
        ensures { result ≡ each_in (pulsed_at mask) self }
    {
        let reached = mask & self.tested & ports::TP;
        let failing = ports::less(reached, self.passing);
        visit_all(&mut self.rows, reached & self.passing, |row| {
            row.idle = 0;
            false
        });
        let passed = visit_all(&mut self.rows, failing, |row| {
            let passes = Port::LINK_PASSES_AT - 1 <= row.pulses;
            row.idle = 0;
            row.pulses = if passes { 0 } else { row.pulses + 1 };
            passes
        });
        self.passing |= passed;
        self
    }

    // After activity at the mask's TP ports.
    pub fn revive(mut self, mask: u16) -> Self
        ensures { result ≡ each_in (revived_at mask) self }
    {
        let reached = mask & self.tested & ports::TP;
        visit_all(&mut self.rows, reached, |row| {
            row.idle = 0;
            row.pulses = 0;
            false
        });
        self.passing |= reached;
        self
    }

    // After a burst that was this for the ports, but for their links. Every set is taken from the ports as they were before it.
    pub fn meet(mut self, b: Meetings) -> Self
        ensures { result ≡ each_in (met_in b) self }
    {
        let sent = b.t & ports::ALL;
        let connected = ports::less(sent, self.partitioned);
        let back = sent & self.partitioned & b.back;
        let calm = ports::less(connected & b.clean, b.collided) | back;
        let last = last_before(b.x);
        let parted = visit_all(&mut self.rows, connected & b.collided, |row| {
            let parts = last <= row.count;
            row.count = if parts { 0 } else { row.count + 1 };
            parts
        });
        visit_all(&mut self.rows, calm, |row| {
            row.count = 0;
            false
        });
        self.partitioned = ports::less(self.partitioned | parted, back);
        self
    }

    // The enabled ports.
    pub fn enabled(self) -> u16
        ensures { result ≡ set_of (λ i. (port_in self i).enabled) }
    {
        self.enabled & ports::ALL
    }

    // The ports whose link passes, AUI among them.
    pub fn passing(self) -> u16
        ensures { result ≡ set_of (λ i. (port_in self i).link_pass) }
    {
        self.passing & ports::ALL
    }

    // The partitioned ports.
    pub fn partitioned(self) -> u16
        ensures { result ≡ set_of (λ i. (port_in self i).partitioned) }
    {
        self.partitioned & ports::ALL
    }
}
