// P14 of document 01 on real bytes, and how it goes on: standard input holds revisions 4 and 5 of one plan, two blocks each.
#![tactic(auto)]

use block::byte_at;
use refusal::{Refusal, refusal_in};
use register::{State, clear, drop_plan, length_in, release, sign, state_in, state_of, submit};
use std::io;
use std::io::Read;

const A: u32 = 101;

const B: u32 = 202;

fn report<T: Copy>(out: &impl Print, call: &str, answer: Result<T, Refusal>) -> io::Result<()> {
    println!(out; "{call} {}", refusal_in(answer))
}

fn report_state(out: &impl Print, register: &[u8]) -> io::Result<()> {
    let answer = state_of(register, 7);
    report(out, "state", answer)?;
    let State { revision, signers } = state_in(answer);
    println!(out; "  revision {revision}, signers {signers}")
}

fn report_release(out: &impl Print, register: &[u8]) -> io::Result<()> {
    let mut room = [0u8; 16384];
    let answer = release(register, 7, &mut room);
    let revision = byte_at(&room, 16);
    report(out, "release", answer)?;
    let length = length_in(answer);
    println!(out; "  bytes {length}, of revision {revision}")
}

// P14: one has signed revision 4, the other revision 5.
fn submit_and_sign(
    out: &impl Print,
    register: &mut [u8],
    four: &[u8],
    five: &[u8],
) -> io::Result<()> {
    report(out, "submit 4", submit(register, four))?;
    report(out, "sign 4 by A", sign(register, A, four))?;
    report(out, "submit 5", submit(register, five))?;
    report(out, "sign 5 by B", sign(register, B, five))
}

// Neither the old revision nor the same signer will do.
fn sign_again(out: &impl Print, register: &mut [u8], four: &[u8], five: &[u8]) -> io::Result<()> {
    report(out, "sign 4 by A", sign(register, A, four))?;
    report(out, "sign 5 by B", sign(register, B, five))
}

// Two have signed revision 5.
fn sign_by_a(out: &impl Print, register: &mut [u8], five: &[u8]) -> io::Result<()> {
    report_state(out, register)?;
    report(out, "sign 5 by A", sign(register, A, five))?;
    report_state(out, register)?;
    report_release(out, register)
}

fn drop_it(out: &impl Print, register: &mut [u8], four: &[u8]) -> io::Result<()> {
    report(out, "submit 4", submit(register, four))?;
    report(out, "drop", drop_plan(register, 7))
}

// A plan of two blocks from the input. Where the input ends within it, its rest is zeros.
fn read_plan(input: &mut impl Read) -> io::Result<[u8; 1024]> {
    let mut plan = [0u8; 1024];
    io::copy(&mut input.take(1024), &mut &mut plan[..])?;
    Ok(plan)
}

fn main(rt: HostRuntime) -> io::Result<()> {
    let mut input = rt.stdin();
    let four = read_plan(&mut input)?;
    let five = read_plan(&mut input)?;
    let mut register = [0u8; 33792];
    report(&rt, "clear", clear(&mut register))?;
    submit_and_sign(&rt, &mut register, &four, &five)?;
    report_release(&rt, &register)?;
    sign_again(&rt, &mut register, &four, &five)?;
    sign_by_a(&rt, &mut register, &five)?;
    drop_it(&rt, &mut register, &four)?;
    report_release(&rt, &register)
}
