// Reads lines from standard input and prints for each what its path is: the refusal number, or `0`, kind, `E` or `L`,
// and rendering. A line ends at byte 10; a last line without it counts if it is not empty. What one read brings is
// answered before the next, so that a line typed at a terminal is answered at once. The memory in use does not grow
// with the input. Called with the word `why`, it also prints the place of the fault, where there is one, and a sentence
// for a customer. What is printed is proved in `ask`; here are the arguments, the reads and the writes.
#![tactic(auto)]

ghost use Rattle.std.specs.Prelude.{◌+◌, ◌-◌, ◌*◌, ◌≤◌, ◌<◌, length};
ghost use Rattle.ask.specs.Answer.{extra};

use ask::input::{answer_last, answer_lines};
use std::env::{Env, FillError};
use std::io::{Eprint, Error, ErrorKind, Print, Read, Stdin};
use std::process::ExitCode;
use std::thread;

// What the arguments ask for.
#[derive(Clone, Copy)]
enum Asked {
    Answers,
    Reasons,
    Unknown,
}

// What comes after a read or a write: the next one, or none, also as nobody reads the answers any more.
#[derive(Clone, Copy)]
enum Next {
    More,
    Done,
    Unread,
}

// What comes after a read, and how much of the input is held.
#[derive(Clone, Copy)]
struct Turn {
    next: Next,
    held: usize,
}

// What comes after a write, and how many bytes are written.
#[derive(Clone, Copy)]
struct Put {
    next: Next,
    done: usize,
}

// The status where nobody reads the answers any more: that of a program which the signal PIPE ends. The program itself does
// not get that signal, since the toolchain has it held back, and the script around it ends by the signal.
const UNREAD: u8 = 141;

// A line on standard error, where nothing is left to do if that cannot be written either.
fn say(rt: &impl Eprint, line: &str) {
    let _ = rt.eprintln(line);
}

// What comes after a call that failed. One that only had nothing to read, or no room to write, yet, on a pipe or a terminal
// that does not wait, is made again, after others had the processor.
fn after_failure(failed: &Error) -> Next {
    if failed.kind() == ErrorKind::WouldBlock {
        thread::yield_now();
        return Next::More;
    }
    if failed.kind() == ErrorKind::BrokenPipe {
        return Next::Unread;
    }
    Next::Done
}

// One write of what is left.
fn write_once(rt: &impl Print, out: &[u8], done: usize, used: usize) -> Put
    requires { (done < used) × (used ≤ length out.now) }
    ensures { result.done ≤ used }
{
    match rt.write_some(&out[done..used]) {
        Ok(0) => Put {
            next: Next::Done,
            done,
        },
        Ok(put) => Put {
            next: Next::More,
            done: done + put,
        },
        Err(failed) => Put {
            next: after_failure(&failed),
            done,
        },
    }
}

// Writes all of it, and answers what comes then: more only where that could be done. The turns are counted down as in
// `read_all`.
fn write_out(rt: &impl Print, out: &[u8], used: usize) -> Next
    requires { used ≤ length out.now }
{
    let mut p = Put {
        next: Next::More,
        done: 0,
    };
    let mut turns = u64::MAX;
    while turns > 0 && matches!(p.next, Next::More) && p.done < used {
        p = write_once(rt, out, p.done, used);
        turns -= 1;
    }
    if p.done == used {
        return Next::More;
    }
    if matches!(p.next, Next::Unread) {
        return Next::Unread;
    }
    Next::Done
}

// Writes the answers out, and answers what comes then: more only where that could be done.
fn show(rt: &(impl Print + Eprint), out: &[u8], used: usize) -> Next
    requires { used ≤ length out.now }
{
    let next = write_out(rt, out, used);
    if !matches!(next, Next::More) {
        say(
            rt,
            "askpath: standard output cannot be written, so answers are missing: make room for them, and ask again",
        );
    }
    next
}

// The end of the input: the last line.
fn finish(rt: &(impl Print + Eprint), input: &[u8], held: usize, out: &mut [u8], why: bool) -> Next
    requires held_bound { (held ≤ 4097) × (65536 ≤ length input.now) }
    requires input_in_bounds { 2 * length input.now ≤ length out.old }
{
    let used = answer_last(&input[0..held], out, why);
    if matches!(show(rt, out, used), Next::Unread) {
        return Next::Unread;
    }
    Next::Done
}

// How far a read may go: where it is asked why, no further than the answers have room.
fn read_end(held: usize, length: usize, why: bool) -> usize
    requires { (held ≤ 4097) × (65536 ≤ length) }
    ensures lower_bound { (held ≤ result) × (result ≤ length) }
    ensures held_bound { 2 * result + extra why (result - held) ≤ 2 * length }
{
    if why {
        return held + 512;
    }
    length
}

// One read after what is held, and the answers to the lines that end in it. A read that fails is not the end of the
// input, so what is held is then not answered as a last line; one that would have to wait is made again.
fn read_once(
    rt: &(impl Print + Eprint),
    stdin: &mut Stdin,
    input: &mut [u8],
    held: usize,
    out: &mut [u8],
    why: bool,
) -> Turn
    requires held_bound { (held ≤ 4097) × (65536 ≤ length input.old) }
    requires input_in_bounds { 2 * length input.old ≤ length out.old }
    ensures { result.held ≤ 4097 }
{
    let most = read_end(held, input.len(), why);
    let got = match stdin.read(&mut input[held..most]) {
        Ok(got) => got,
        Err(failed) => {
            let next = after_failure(&failed);
            if matches!(next, Next::More) {
                return Turn { next, held };
            }
            say(
                rt,
                "askpath: standard input cannot be read to its end, so lines are not answered: mend the file or the pipe, and ask again",
            );
            return Turn {
                next: Next::Done,
                held,
            };
        }
    };
    if got == 0 {
        let next = finish(rt, input, held, out, why);
        return Turn { next, held };
    }
    let step = answer_lines(input, held, held + got, out, why);
    let next = show(rt, out, step.used);
    Turn {
        next,
        held: step.held,
    }
}

// Reads to the end of the input, and answers the status: a proved loop ends, so it counts its turns down from a number that
// no run uses up.
fn read_all(
    rt: &(impl Print + Eprint),
    stdin: &mut Stdin,
    input: &mut [u8],
    out: &mut [u8],
    why: bool,
) -> ExitCode
    requires in_bounds { 65536 ≤ length input.old }
    requires input_in_bounds { 2 * length input.old ≤ length out.old }
{
    let mut t = Turn {
        next: Next::More,
        held: 0,
    };
    let mut turns = u64::MAX;
    while turns > 0 && matches!(t.next, Next::More) {
        t = read_once(rt, stdin, input, t.held, out, why);
        turns -= 1;
    }
    if matches!(t.next, Next::Unread) {
        return ExitCode::from(UNREAD);
    }
    ExitCode::SUCCESS
}

// What the program was called with: nothing, or `why`.
fn arguments(rt: &impl Env) -> Asked {
    let mut word = [0; 4];
    let n = match rt.arg(1, &mut word) {
        Ok(n) => n,
        Err(FillError::NotPresent) => return Asked::Answers,
        Err(FillError::TooLong) => return Asked::Unknown,
    };
    let mut more = [0; 4];
    let alone = matches!(rt.arg(2, &mut more), Err(FillError::NotPresent));
    if alone && text::part::equal(&word[..n], b"why") {
        return Asked::Reasons;
    }
    Asked::Unknown
}

// The answers to what one read brings take at most twice as many bytes, and where it is asked why, 128 more for each that is new.
fn main(rt: HostRuntime) -> ExitCode {
    let mut stdin = rt.stdin();
    let mut input = [0; 65536];
    let mut out = [0; 131072];
    match arguments(&rt) {
        Asked::Answers => read_all(&rt, &mut stdin, &mut input, &mut out, false),
        Asked::Reasons => read_all(&rt, &mut stdin, &mut input, &mut out, true),
        Asked::Unknown => {
            say(
                &rt,
                "askpath: the one word that can be asked is why: call it with that or with nothing, and give it path texts on standard input, one on a line",
            );
            ExitCode::SUCCESS
        }
    }
}
