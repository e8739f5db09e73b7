// The chip that a run begins with: the one that a start file describes, where an argument names one, or else the usual one. Why a start file gives none is told
// on standard error. And where a run stands that takes one record after the other.
#![tactic(auto)]

ghost use Rattle.std.specs.Prelude.{◌≡◌, OnOk, IfOk, IfErr, IfSome, IsUtf8};
ghost use Rattle.chip.specs.Flat.{chip_of};
ghost use Rattle.start.specs.Start.{started_of};
ghost use Rattle.host.specs.Sequence.{power_up};
ghost use Rattle.opening.specs.Opening.{CutBefore, number_mark, fault_of, Opens, Begins};

use chip::FlatChip;
use console::{is_given, read_full};
use host::Host;
use std::env::Env;
use std::fs::File;
use std::io;
use std::rt::Files;

// Where a run stands: the chip, the host's record and the next record's number.
#[derive(Clone, Copy)]
pub struct State {
    pub chip: FlatChip,
    pub host: Host,
    pub number: u64,
}

impl State {
    // Before the first record, with a chip at power-up.
    pub fn first(chip: FlatChip) -> Self
        ensures { result ≡ record { chip = chip; host = power_up; number = 1 } }
    {
        Self {
            chip,
            host: Host::power_up(),
            number: 1,
        }
    }
}

// Why a start file gives no chip to run: it cannot be opened; it has too few bytes or too many, or the byte at its end is not 0; or power-up turns its short event
// limit away.
#[derive(Drop)]
enum Refusal {
    Unopened(io::Error),
    Size,
    Limit(u32),
}

// The chip at power-up that the bytes of a start file describe.
fn chip_in(bytes: &[u8]) -> Result<FlatChip, Refusal>
    ensures chip { IfOk result (Opens bytes.now) }
    ensures fault { IfErr result (λ e. fault_of (started_of bytes.now) ≡ Some e) }
{
    let started = start::start_chip(bytes);
    if !started.fits {
        return Err(Refusal::Size);
    }
    if started.number != 0 {
        return Err(Refusal::Limit(started.limit));
    }
    Ok(started.chip)
}

// Opens a file for reading. Its name must be text.
fn open<R: Files>(rt: &R, name: &[u8]) -> io::Result<R::File>
    ensures { OnOk result (IsUtf8 name.now) }
{
    match str::from_utf8(name) {
        Ok(text) => File::open(rt, text),
        Err(_) => Err(io::Error::from(io::ErrorKind::InvalidFilename)),
    }
}

// The chip that the start file of that name describes. A file that is longer than the buffer does not fit.
fn chip_at(rt: &impl Files, name: &[u8]) -> Result<FlatChip, Refusal>
    ensures { IfOk result Begins }
{
    let mut file = open(rt, name).map_err(Refusal::Unopened)?;
    let mut bytes = [0u8; 4096];
    let n = read_full(&mut file, &mut bytes);
    chip_in(&bytes[..n])
}

// The chip that the start file describes which argument i names. It is a function of its own in the built programs too, so that its buffers are given back before a
// refusal is told.
#[inline(never)]
fn chip_named(rt: &(impl Env + Files), i: usize) -> Result<FlatChip, Refusal>
    ensures { IfOk result Begins }
{
    let mut path = [0u8; 4096];
    let n = rt.arg(i, &mut path).unwrap_or(0);
    chip_at(rt, &path[..n])
}

// The words of an error, without the number that the system has for it.
fn reason(words: &str) -> &str
    ensures { CutBefore number_mark words.now result.now }
{
    match words.split_once(" (os error ") {
        Some((reason, _)) => reason,
        None => words,
    }
}

// A line on standard error: the program, what failed, and why. Not by Display: the system's words are cut, and a text that is made first can fail.
fn tell(rt: &(impl Eprint + Alloc), program: &str, refusal: Refusal) {
    let _ = match refusal {
        Refusal::Unopened(error) => match format!(in rt.alloc(); "{error}") {
            Ok(words) => {
                let reason = reason(words.as_str());
                eprintln!(rt; "{program}: the start file cannot be opened: {reason}")
            }
            Err(_) => eprintln!(rt; "{program}: the start file cannot be opened"),
        },
        Refusal::Size => {
            eprintln!(rt;
                "{program}: the start file does not have 530 bytes, or 535 with a 0 at the end"
            )
        }
        Refusal::Limit(limit) => {
            eprintln!(rt; "{program}: short event limit {limit} is outside 75 to 81 (refused 13)")
        }
    };
}

// The chip that a program begins with, whose argument i may name a start file; or none, and the reason is told. It is a function of its own in the built programs
// too, so that its buffers are given back before the run.
#[inline(never)]
pub fn chip(rt: &(impl Env + Files + Eprint + Alloc), program: &str, i: usize) -> Option<FlatChip>
    ensures { IfSome result Begins }
{
    if !is_given(rt.arg(i, &mut [])) {
        return Some(start::start_chip(&[]).chip);
    }
    match chip_named(rt, i) {
        Ok(chip) => Some(chip),
        Err(refusal) => {
            tell(rt, program, refusal);
            None
        }
    }
}

#[cfg(test)]
mod tests {
    use super::*;
    use std::fs;

    #[test]
    fn a_program_begins_with_or_without_a_start_file(rt: HostRuntime) -> io::Result<()> {
        assert!(rt; chip(&rt, "opening", 9).is_some());
        assert!(rt; chip(&rt, "opening", 0).is_none());
        fs::write(&rt, "zeros.start", [0u8; 530])?;
        assert!(rt; chip_at(&rt, b"zeros.start").is_ok());
        fs::write(&rt, "zeros.start", [0u8; 531])?;
        assert!(rt; matches!(chip_at(&rt, b"zeros.start"), Err(Refusal::Size)));
        fs::write(&rt, "zeros.start", [0u8; 535])?;
        assert!(rt; matches!(chip_at(&rt, b"zeros.start"), Err(Refusal::Limit(0))));
        fs::remove_file(&rt, "zeros.start")?;
        assert!(rt; matches!(chip_at(&rt, b"zeros.start"), Err(Refusal::Unopened(_))));
        Ok(())
    }

    #[test]
    fn a_reason_is_told_without_its_number(rt: HostRuntime) {
        assert_eq!(rt;
            reason("No such file or directory (os error 2)"),
            "No such file or directory"
        );
        assert_eq!(rt; reason("out of memory"), "out of memory");
    }
}
