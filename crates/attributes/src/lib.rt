// What the HIMIB counts: the nine ports' counters and last source addresses, and what a burst is credited with. Nine is what the rules speak of, Flat how it is
// kept; no crate above knows a counter's place. A burst and an address write store what they change in the Flat that they are lent.
#![tactic(auto)]

ghost use Rattle.std.specs.Prelude.{◌≡◌, ◌<◌, ◌&&◌, [], if◌then◌else◌, nat_eq};
ghost use Rattle.ports.specs.Sets.{port_count, is_at, has, set_of};
ghost use Rattle.attributes.specs.Nine.{counter_count, nothing_counted, counter_of, address_of, with_port};
ghost use Rattle.attributes.specs.Credits.{class_of, class_port, framed, changed_by, due_of};
ghost use Rattle.attributes.specs.OneClass.{Among, classes};
ghost use Rattle.attributes.specs.Flat.{place, nine_of, nine_in, stretch_of, Counting, ReaddressedAlone, Readdressed, Credited};
ghost use Rattle.attributes.specs.Counts.{counted_for, framed_port, Written, Laid};

use burst::Activity;
use record::Burst;

pub mod octets;

// One port's thirteen counters, by register, and its last source address.
#[derive(Clone, Copy)]
pub struct Attributes {
    pub counters: [u32; 13],
    pub address: [u8; 6],
}

// All nine ports'.
#[derive(Clone, Copy)]
pub struct Nine {
    pub ports: [Attributes; 9],
}

// How they are kept: every counter, first by register and then by port; and the addresses, one port's six bytes after the other's. Two plain arrays, and not rows:
// stretch_of, FlatBack and NineBack of specs/Flat speak of the two.
#[derive(Clone, Copy)]
pub struct Flat {
    pub counters: [u32; Flat::COUNTERS],
    pub addresses: [u8; Flat::ADDRESSES],
}

// A burst as the chip met it: the heard ports, the single one of them or none, whether it is a collision for the credits, the ports that it
// partitioned, and the short event limit.
#[derive(Clone, Copy)]
pub struct Met {
    pub heard: u16,
    pub single: Option<usize>,
    pub collision: bool,
    pub cut: u16,
    pub limit: u32,
}

// What a burst is credited with, worked out once. Single is the port that the class goes to, or none; in changed are the ports whose address
// changes; octets go to Total Octets. Class is a register, and not an enum: Falls, single_port and six_together of OneClass are about the counter of that register.
#[derive(Clone, Copy)]
pub struct Due {
    pub heard: u16,
    pub single: Option<usize>,
    pub collision: bool,
    pub class: usize,
    pub cut: u16,
    pub changed: u16,
    pub octets: u32,
}

// What part a port has in a burst: what is said of a `Due` for one port, and so with its class as a register.
#[derive(Clone, Copy)]
pub struct Share {
    pub heard: bool,
    pub single: bool,
    pub collision: bool,
    pub class: usize,
    pub cut: bool,
    pub changed: bool,
}

impl Attributes {
    // The registers of the counters, and how many there are. Numbers, and not an enum: by their contracts `counter` and `attribute` answer for every number.
    pub const READABLE_FRAMES: usize = 0;

    pub const READABLE_OCTETS: usize = 1;

    pub const FCS_ERRORS: usize = 2;

    pub const ALIGNMENT_ERRORS: usize = 3;

    pub const FRAMES_TOO_LONG: usize = 4;

    pub const SHORT_EVENTS: usize = 5;

    pub const RUNTS: usize = 6;

    pub const COLLISIONS: usize = 7;

    pub const LATE_EVENTS: usize = 8;

    pub const VERY_LONG_EVENTS: usize = 9;

    pub const RATE_MISMATCHES: usize = 10;

    pub const AUTO_PARTITIONS: usize = 11;

    pub const ADDRESS_CHANGES: usize = 12;

    pub const COUNT: usize = 13;

    // A burst of fewer bit times than the limit is a short event: the usual limit, the lowest and the highest.
    pub const SHORT_BELOW: u32 = 78;

    pub const SHORT_FROM: u32 = 75;

    pub const SHORT_TO: u32 = 81;

    // Octets of the shortest and of the longest frame.
    pub const SHORTEST: u32 = 64;

    pub const LONGEST: u32 = 1518;

    // A collision that begins after more bit times is late.
    pub const LATE_ABOVE: u32 = 512;

    // A burst of more bit times with a rate error is a data rate mismatch.
    pub const MISMATCH_ABOVE: u32 = 552;
}

// The register of the class that a single heard port's burst without collision falls in.
#[tactic(auto, unfolding(crate::specs::Credits::class_of))]
fn class_of(limit: u32, burst: Burst) -> usize
    ensures { result ≡ class_of limit burst }
{
    if burst.d < limit {
        Attributes::SHORT_EVENTS
    } else if burst.n < Attributes::SHORTEST {
        Attributes::RUNTS
    } else if Attributes::LONGEST < burst.n {
        Attributes::FRAMES_TOO_LONG
    } else if burst.fcs_bad && 0 < burst.k {
        Attributes::ALIGNMENT_ERRORS
    } else if burst.fcs_bad {
        Attributes::FCS_ERRORS
    } else {
        Attributes::READABLE_FRAMES
    }
}

impl Met {
    // The port that the class goes to: in a collision it goes to none.
    #[tactic(auto, unfolding(crate::specs::Credits::class_port))]
    fn class_port(self) -> Option<usize>
        ensures { result ≡ class_port self }
    {
        if self.collision { None } else { self.single }
    }
}

// Whether a readable frame is credited to the port, if there is one.
fn framed(single: Option<usize>, class: usize) -> bool
    ensures { result ≡ framed single class }
{
    match single {
        Some(port) => port < ports::COUNT && class == Attributes::READABLE_FRAMES,
        None => false,
    }
}

// Where a counter stands.
fn place(register: usize, i: usize) -> usize
    requires register_lt_counter_count { register < counter_count }
    requires i_lt_port_count { i < port_count }
    ensures { result ≡ place register i }
{
    ports::COUNT * register + i
}

// A counter of port i, or 0 where there is none. It, `address` and `readdress` are for who has one array alone; the methods of Flat call them.
pub fn counter(counters: &[u32; Flat::COUNTERS], i: usize, register: usize) -> u32
    ensures { result ≡ counter_of (nine_of counters.now []) i register }
{
    if i < ports::COUNT && register < Attributes::COUNT {
        counters[place(register, i)]
    } else {
        0
    }
}

// One register over the nine ports, as it stands among the counters: nothing past the last register, and of a short slice what there is. No method of Flat:
// stretch_of, and read_there of FlatSheet, are about counters of any length.
pub fn attribute(counters: &[u32], register: usize) -> &[u32]
    ensures { result.now ≡ stretch_of register counters.now }
{
    if register < Attributes::COUNT {
        let from = place(register, 0).min(counters.len());
        let to = counters.len().min(from + ports::COUNT);
        &counters[from..to]
    } else {
        &counters[..0]
    }
}

// Port i's last source address, or zeros past the last port.
pub fn address(addresses: &[u8; Flat::ADDRESSES], i: usize) -> [u8; 6]
    ensures { result ≡ address_of (nine_of [] addresses.now) i }
{
    let mut source = [0; 6];
    if i < ports::COUNT {
        let at = 6 * i;
        source.copy_from_slice(&addresses[at..at + 6]);
    }
    source
}

// Port i's six bytes written.
fn write_address(addresses: &mut [u8; Flat::ADDRESSES], i: usize, source: [u8; 6])
    requires { i < port_count }
    ensures { Written i source addresses.old addresses.new }
{
    let at = 6 * i;
    addresses[at..at + 6].copy_from_slice(&source);
}

// Port i's address written anew; past the last port nothing changes.
pub fn readdress(addresses: &mut [u8; Flat::ADDRESSES], i: usize, source: [u8; 6])
    ensures { ReaddressedAlone i source addresses.old addresses.new }
{
    if i < ports::COUNT {
        write_address(addresses, i, source);
    }
}

impl Due {
    // The port that the class goes to, as a set.
    fn own(self) -> u16
        ensures { result ≡ set_of (is_at self.single) }
    {
        match self.single {
            Some(port) => ports::only(port),
            None => 0,
        }
    }

    // The port that a readable frame gives its source address to, if it is heard or cut.
    fn framed_port(self) -> Option<usize>
        ensures { result ≡ framed_port self }
    {
        match self.single {
            Some(port) => {
                if self.class == Attributes::READABLE_FRAMES
                    && ports::contains(self.heard | self.cut, port)
                {
                    Some(port)
                } else {
                    None
                }
            }
            None => None,
        }
    }
}

impl Flat {
    // How many counters there are, and how many bytes of addresses.
    pub const COUNTERS: usize = ports::COUNT * Attributes::COUNT;

    pub const ADDRESSES: usize = 6 * ports::COUNT;

    // Nothing counted yet.
    pub fn zero() -> Self
        ensures { nine_in result ≡ nothing_counted }
    {
        Self {
            counters: [0; Self::COUNTERS],
            addresses: [0; Self::ADDRESSES],
        }
    }

    // With port i's attributes put in place, or as it was past the last port.
    pub fn with_port(mut self, i: usize, port: Attributes) -> Self
        ensures { nine_in result ≡ with_port (nine_in self) i port }
    {
        if i < ports::COUNT {
            self.lay(i, port.counters);
            write_address(&mut self.addresses, i, port.address);
        }
        self
    }

    // A counter of port i, or 0 where there is none.
    pub fn counter(&self, i: usize, register: usize) -> u32
        ensures { result ≡ counter_of (nine_in self.now) i register }
    {
        counter(&self.counters, i, register)
    }

    // Port i's last source address, or zeros past the last port.
    pub fn address(&self, i: usize) -> [u8; 6]
        ensures { result ≡ address_of (nine_in self.now) i }
    {
        address(&self.addresses, i)
    }

    // A port's thirteen counters laid at their places.
    fn lay(&mut self, i: usize, numbers: [u32; 13])
        requires { i < port_count }
        ensures { Laid i numbers self.old self.new }
    {
        for (r, number) in numbers.iter().enumerate() {
            self.counters[place(r, i)] = *number;
        }
    }

    // Port i's address written anew; past the last port nothing changes.
    pub fn readdress(&mut self, i: usize, source: [u8; 6])
        ensures { Readdressed i source self.old self.new }
    {
        readdress(&mut self.addresses, i, source);
    }

    // n more in a register, at each port of the mask, the lowest first: most masks have one port or none.
    fn bump(&mut self, mask: u16, register: usize, n: u32)
        requires { register < counter_count }
        ensures { Counting (λ r i. (if nat_eq register r && has mask i then n else 0)) self.old self.new }
    {
        for i in ports::places_of(mask & ports::ALL) {
            let at = place(register, i);
            self.counters[at] = self.counters[at].wrapping_add(n);
        }
    }

    // The port whose address a readable frame changes, as a set.
    fn changed(&self, frame: bool, single: Option<usize>, source: [u8; 6]) -> u16
        ensures { result ≡ changed_by (nine_in self.now) frame single source }
    {
        match single {
            Some(single) => {
                if frame && source != self.address(single) {
                    ports::only(single)
                } else {
                    0
                }
            }
            None => 0,
        }
    }

    // What a burst is credited with.
    fn due_of(&self, met: Met, burst: Burst, source: [u8; 6]) -> Due
        ensures { result ≡ due_of (nine_in self.now) met burst source }
    {
        let single = met.class_port();
        let class = class_of(met.limit, burst);
        let frame = framed(single, class);
        let changed = self.changed(frame, single, source);
        let octets = if frame { burst.n } else { 0 };
        Due {
            heard: met.heard,
            single,
            collision: met.collision,
            class,
            cut: met.cut,
            changed,
            octets,
        }
    }

    // The counters with what is due. A port that is neither heard nor cut has no part in it.
    fn count(&mut self, due: Due, burst: Burst)
        requires { Among due.class classes }
        ensures { Counting (counted_for due burst) self.old self.new }
    {
        let touched = due.heard | due.cut;
        let own = due.own() & touched;
        self.bump(own, due.class, 1);
        if due.class == Attributes::READABLE_FRAMES {
            self.bump(own, Attributes::READABLE_OCTETS, burst.n);
        }
        if due.collision {
            self.bump(due.heard, Attributes::COLLISIONS, 1);
            if Attributes::LATE_ABOVE < burst.c {
                self.bump(due.heard, Attributes::LATE_EVENTS, 1);
            }
        }
        if Activity::JABBER_ABOVE < burst.d {
            self.bump(due.heard, Attributes::VERY_LONG_EVENTS, 1);
        }
        if burst.rate_error && Attributes::MISMATCH_ABOVE < burst.d {
            self.bump(own, Attributes::RATE_MISMATCHES, 1);
        }
        self.bump(due.cut, Attributes::AUTO_PARTITIONS, 1);
        self.bump(due.changed & touched, Attributes::ADDRESS_CHANGES, 1);
    }

    // A burst's credits: what is due, with the counters and the address that it changes.
    pub fn credit(&mut self, met: Met, burst: Burst, source: [u8; 6]) -> Due
        ensures { Credited met burst source self.old result self.new }
    {
        let due = self.due_of(met, burst, source);
        self.count(due, burst);
        if let Some(port) = due.framed_port() {
            readdress(&mut self.addresses, port, source);
        }
        due
    }
}
