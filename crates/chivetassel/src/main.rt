// Reads a plan on standard input, and writes its verdict and the periods of its two parts. Where the input cannot be read, or the
// answer not be written whole, it says so on standard error and ends with a failure.
#![tactic(auto)]

ghost use Rattle.std.specs.Prelude.{IfOk, take, length, ◌<◌};
ghost use Rattle.std.specs.Io.{ReadsAtMost};
ghost use Rattle.std.specs.Io.KnownBytes.{Consumes, IsAtEnd};

use day::{Day, date_of};
use plan::{block_of, doses_of, end_of, first_of, is_period};
use refusal::refusal_in;
use split::split;
use std::io::Read;
use std::process::ExitCode;
use std::{fmt, io};

// A day of a part as the answer has it, a date or "open": a part has no other day that is none of the calendar's.
#[derive(Clone, Copy)]
struct Written(Day);

impl fmt::Display for Written {
    fn fmt<W: fmt::Write>(&self, f: &mut fmt::Formatter<W>) -> fmt::Result {
        match date_of(self.0) {
            Some(date) => write!(f, "{date}"),
            None => write!(f, "open"),
        }
    }
}

// "list, first day, last day or "open", dose records"
fn write_period(out: &impl Print, list: &str, part: &[u8], b: u8) -> io::Result<()> {
    let block = block_of(part, u16::from(b));
    let first = Written(Day::new(first_of(block)));
    let end = Written(Day::new(end_of(block)));
    let doses = doses_of(part, b);
    println!(out; "{list} {first} {end} {doses}")
}

fn write_part(out: &impl Print, list: &str, part: &[u8]) -> io::Result<()> {
    for b in (0..64).filter(|b| is_period(part, *b)) {
        write_period(out, list, part, b)?;
    }
    Ok(())
}

// The first n bytes of a buffer; all of them where it has no more.
fn first_bytes(buffer: &[u8], n: u32) -> &[u8] {
    buffer.get(..n as usize).unwrap_or(buffer)
}

// Judges and splits a plan, and writes what comes of it.
fn answer(out: &impl Print, plan: &[u8]) -> io::Result<()> {
    let mut fixed = [0u8; 32768];
    let mut need = [0u8; 32768];
    let parts = split(plan, &mut fixed, &mut need);
    println!(out; "verdict {}", refusal_in(parts))?;
    if let Ok(lengths) = parts {
        write_part(out, "fixed", first_bytes(&fixed, lengths.fixed))?;
        write_part(out, "need", first_bytes(&need, lengths.need))?;
    }
    Ok(())
}

// Reads until the input ends or the buffer is full, and gives how many bytes now stand at the buffer's start: those that came, in
// their order and none left out. There are fewer than the buffer has room for only where the input ended.
// Kept: a loop of reads, since with std's `copy` in its place none of the three clauses was proved.
fn read_input<R: Read>(input: &mut R, buffer: &mut [u8]) -> io::Result<usize>
    ensures within { ReadsAtMost result buffer.new }
    ensures bytes { IfOk result (λ n. Consumes (R.remaining input.old) (R.remaining input.new) (take n buffer.new)) }
    ensures end { IfOk result (λ n. n < length buffer.new → IsAtEnd (R.remaining input.new)) }
{
    let mut done = 0;
    while done < buffer.len() {
        let more = input.read(&mut buffer[done..])?;
        if more == 0 {
            break;
        }
        done += more;
    }
    Ok(done)
}

// Says on standard error why there is no answer. Where that cannot be written either, the status still tells.
fn fail(rt: &impl Eprint, why: &str) -> ExitCode {
    let _ = eprintln!(rt; "chivetassel: {why}");
    ExitCode::FAILURE
}

fn main(rt: HostRuntime) -> ExitCode {
    // one byte more than a plan may have, so that a longer one is seen to be too long
    let mut buffer = [0u8; 16385];
    let Ok(n) = read_input(&mut rt.stdin(), &mut buffer) else {
        return fail(&rt, "standard input cannot be read");
    };
    if answer(&rt, &buffer[..n]).is_err() {
        return fail(&rt, "the answer cannot be written whole");
    }
    ExitCode::SUCCESS
}
