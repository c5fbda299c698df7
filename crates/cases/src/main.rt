// Judges each plan of standard input, and writes its number and place. A plan stands behind its length, four bytes. The
// plans and what document 01 says of them are made by tests/cases.py.
#![tactic(auto)]

ghost use Rattle.std.specs.Io.{ReadsAtMost};

use refusal::refusal_in;
use std::io;
use std::io::Read;
use verdict::verdict;

// The bytes of all plans and their lengths, at most.
const ROOM: usize = 262144;

fn report(out: &impl Print, plan: &[u8]) -> io::Result<()> {
    println!(out; "{}", refusal_in(verdict(plan)))
}

// A plan that the input ends within is not judged.
fn report_all(out: &impl Print, plans: &[u8]) -> io::Result<()> {
    let mut rest = plans;
    while let Some((length, behind)) = rest.split_first_chunk::<4>() {
        let length = u32::from_le_bytes(*length) as usize;
        let Some((plan, next)) = behind.split_at_checked(length) else {
            break;
        };
        report(out, plan)?;
        rest = next;
    }
    Ok(())
}

// Reads until the input ends or the buffer is full, and gives how many bytes now stand at the buffer's start.
// Kept: a loop of reads, since std's `copy` says nothing of how many bytes there are, and reads by 8,192 bytes, each copied once more.
fn read_full(input: &mut impl Read, buffer: &mut [u8]) -> io::Result<usize>
    ensures { ReadsAtMost result buffer.new }
{
    let mut done = 0;
    while done < buffer.len() {
        let more = input.read(&mut buffer[done..])?;
        if more == 0 {
            break;
        }
        done += more;
    }
    Ok(done)
}

fn main(rt: HostRuntime) -> io::Result<()> {
    let mut plans = [0u8; ROOM];
    let n = read_full(&mut rt.stdin(), &mut plans)?;
    report_all(&rt, &plans[..n])
}
