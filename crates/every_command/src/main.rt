// Gives each of the 256 command bytes to the repeater in two states, and prints what the byte is, what a Get gives and leaves, and what a Set leaves.
//
//     1f set alternate algorithm, AUI: ENABLED LINKS SILENT PARTITIONED ALTERNATE; the same from the second state
//     8f get AUI status, clear B, S and L: gives VALUE, leaves AUI RATES MJLP; the same from the second state
//     00 not listed
//
// The masks are in hexadecimal. SILENT is the links after 100 ticks more, ALTERNATE a digit for AUI and one for TP.
// AUI, RATES and MJLP are the status as three Gets would report it afterwards.
#![tactic(auto)]

use burst::Activity;
use management::{Command, Query, Setting};
use ports::Quiet;
use repeater::Repeater;
use std::fmt;

// A repeater as the lines tell it: what is enabled, the links, those that are left after 100 ticks more, what is partitioned, and the two algorithms.
#[derive(Clone, Copy)]
struct State(Repeater);

impl fmt::Display for State {
    fn fmt<W: fmt::Write>(&self, f: &mut fmt::Formatter<W>) -> fmt::Result {
        let r = self.0;
        write!(
            f,
            "{:03x} {:02x} {:02x} {:03x} {}{}",
            r.enabled(),
            r.linked(),
            silent_links(r),
            r.partitioned(),
            u8::from(r.alternate_aui),
            u8::from(r.alternate_tp)
        )
    }
}

// What a Get gives, and the status as three more would report it then.
#[derive(Clone, Copy)]
struct Got(Repeater, Query);

impl fmt::Display for Got {
    fn fmt<W: fmt::Write>(&self, f: &mut fmt::Formatter<W>) -> fmt::Result {
        let got = self.0.get(self.1);
        let left = got.repeater;
        write!(
            f,
            "gives {:02x}, leaves {:02x} {:02x} {:02x}",
            got.value,
            left.get(Query::Aui).value,
            left.get(Query::Rates).value,
            left.get(Query::Mjlp).value
        )
    }
}

// What a Set sets, in words.
#[derive(Clone, Copy)]
struct SetWords(Setting);

impl fmt::Display for SetWords {
    fn fmt<W: fmt::Write>(&self, f: &mut fmt::Formatter<W>) -> fmt::Result {
        match self.0 {
            Setting::AlternateAui => f.write_str("alternate algorithm, AUI"),
            Setting::AlternateTp => f.write_str("alternate algorithm, TP"),
            Setting::DisableAui => f.write_str("disable AUI"),
            Setting::EnableAui => f.write_str("enable AUI"),
            Setting::DisableTp(i) => write!(f, "disable TP{i}"),
            Setting::EnableTp(i) => write!(f, "enable TP{i}"),
            Setting::LinkTestOff(i) => write!(f, "link test off, TP{i}"),
            Setting::LinkTestOn(i) => write!(f, "link test on, TP{i}"),
        }
    }
}

// What a Get reads, in words.
#[derive(Clone, Copy)]
struct GetWords(Query);

impl fmt::Display for GetWords {
    fn fmt<W: fmt::Write>(&self, f: &mut fmt::Formatter<W>) -> fmt::Result {
        f.write_str(match self.0 {
            Query::Aui => "AUI status",
            Query::AuiClearB => "AUI status, clear B",
            Query::AuiClearSl => "AUI status, clear S and L",
            Query::AuiClearBsl => "AUI status, clear B, S and L",
            Query::Partition => "partition status",
            Query::Rates => "bit rate errors, clear them",
            Query::Link => "link status",
            Query::Mjlp => "MJLP, clear it",
            Query::Version => "version",
        })
    }
}

// Activity of the mask's ports, with or without a rate error and AUI's two flags, and a collision of x bit times.
fn activity(mask: u16, rate_error: bool, aui_flags: bool, d: u32, x: u32) -> Activity {
    Activity {
        mask,
        rate_error,
        collision_signal: false,
        loopback_missing: aui_flags,
        sqe_test: aui_flags,
        d,
        x,
    }
}

// Four link pulses at the mask's TP ports.
fn pulsed(r: Repeater, mask: u16) -> Repeater {
    let mut later = r;
    for _ in 0..4 {
        later = later.quiet(Quiet::Pulse(mask));
    }
    later
}

// The links after 100 silent ticks: those of the ports without link test.
fn silent_links(r: Repeater) -> u16 {
    let mut later = r;
    for _ in 0..100 {
        later = later.quiet(Quiet::Tick);
    }
    later.linked()
}

// The links of TP0, TP1, TP2 and TP6 pass. AUI has carried a rate error, and so has TP2, in a burst long enough for MJLP and with SQE Test and the
// loopback error. Then TP0, TP1 and AUI have partitioned in one long collision.
fn reporting() -> Repeater {
    let up = pulsed(Repeater::power_up(), 0x47);
    let first = up.burst(activity(0x100, true, false, 1000, 0));
    let second = first.repeater.burst(activity(0x004, true, true, 70000, 0));
    let third = second
        .repeater
        .burst(activity(0x103, false, false, 2000, 1025));
    third.repeater
}

// The same, with TP6 disabled, TP4 without link test, and TP7 both.
fn first_state() -> Repeater {
    reporting()
        .set(Setting::DisableTp(6))
        .set(Setting::LinkTestOff(4))
        .set(Setting::DisableTp(7))
        .set(Setting::LinkTestOff(7))
}

// The line of each byte. Text that cannot be written is lost.
fn say_lines(rt: &impl Print, one: Repeater, two: Repeater) {
    for byte in 0..=255u8 {
        let _ = match management::decode(byte) {
            Command::Set(s) => {
                let what = SetWords(s);
                let first = State(one.set(s));
                let second = State(two.set(s));
                println!(rt; "{byte:02x} set {what}: {first}; {second}")
            }
            Command::Get(q) => {
                let what = GetWords(q);
                let first = Got(one, q);
                let second = Got(two, q);
                println!(rt; "{byte:02x} get {what}: {first}; {second}")
            }
            Command::Unlisted => println!(rt; "{byte:02x} not listed"),
        };
    }
}

fn main(rt: HostRuntime) {
    let one = first_state();
    let two = one.set(Setting::DisableAui);
    let _ = println!(rt; "first state: {}", State(one));
    let _ = println!(rt; "second state, AUI disabled: {}", State(two));
    say_lines(&rt, one, two);
}
