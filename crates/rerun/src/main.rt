// Reruns a recorded trace (document 02, §6): `rerun SETTINGS TRACE` writes what an endpoint with these settings answers to each record. Both files are read
// in pieces, and the memory is the same for any size of either.
#![tactic(auto)]

mod files;
mod input;
mod line;
mod number;
mod output;
mod run;

ghost use Rattle.std.specs.Prelude.{◌≡◌, List, ℕ, ◌+◌, ◌≤◌, ◌<◌, ◌^◌, length};
ghost use Rattle.io.specs.Counts.{IsPrefixLen};
ghost use Rattle.trace.specs.Reader.{bytes_of};
ghost use Rattle.rerun.specs.Standing.{standing, Ready};

use files::{read_front, read_some, tell};
use input::Phase;
use number::{OUT, PATH, PIECE, PIECES, SETTINGS};
use reassembly::number::MEMORY_BYTES;
use run::Run;
use std::env::{Env, FillError};
use std::fs::File;
use std::io::Read;
use std::rt::Files;
use std::str;

// Opens the file that an argument names. A name that is longer than any path counts as an empty one; one that is not UTF-8 is none that std opens.
fn open<R: Env + Files + Eprint>(rt: &R, argument: usize) -> Option<R::File> {
    let mut name = [0u8; PATH];
    let n = match rt.arg(argument, &mut name) {
        Ok(n) => n,
        Err(FillError::TooLong) => 0,
        Err(FillError::NotPresent) => {
            let _ = rt.eprintln("usage: rerun SETTINGS TRACE");
            return None;
        }
    };
    match str::from_utf8(&name[..n]) {
        Ok(path) => open_path(rt, path),
        Err(error) => {
            tell(rt, "rerun: a file's name", error);
            None
        }
    }
}

fn open_path<R: Files + Eprint>(rt: &R, path: &str) -> Option<R::File> {
    match File::open(rt, path) {
        Ok(file) => Some(file),
        Err(error) => {
            tell(rt, path, error);
            None
        }
    }
}

// Reads the settings file, as far as it can be an image, and says how many bytes came.
fn read_settings(rt: &(impl Env + Files + Eprint), settings: &mut [u8]) -> usize
    ensures { IsPrefixLen result settings.new }
{
    match open(rt, 1) {
        Some(mut file) => read_front(rt, &mut file, settings),
        None => 0,
    }
}

// As it is: lengths of what is lent in a `requires`: run.rt's functions take any output that has the room, and the arrays are made in one place.

// Writes what is left to be written at the end of the trace.
fn end(rt: &(impl Print + Eprint), run: &Run, out: &mut [u8])
    requires { 64 ≤ length out.old }
{
    let n = run.finish(out);
    output::write(rt, &out[..n]);
}

// Reads a piece of the trace, feeds it to the run, and writes its lines. A trace that cannot be read on is a bad one. Is more of it to be read?
fn feed(
    rt: &(impl Print + Eprint),
    file: &mut impl Read,
    run: &mut Run,
    memory: &mut [u8],
    piece: &mut [u8],
    out: &mut [u8],
) -> bool
    requires ready { (m : List ℕ) → Ready (standing run.old m) }
    requires held_len { length (bytes_of run.old.input.reader) ≡ run.old.input.reader.count }
    requires number_bound { run.old.number + 32768 < 2 ^ 64 }
    requires piece_len_bound { length piece.old ≤ 32768 }
    requires in_bounds { 2097152 ≤ length out.old }
    ensures ready_2 { (m : List ℕ) → Ready (standing run.new m) }
    ensures held_len_2 { length (bytes_of run.new.input.reader) ≡ run.new.input.reader.count }
    ensures number_bound_2 { run.new.number ≤ run.old.number + 32768 }
{
    let n = match read_some(file, piece) {
        Ok(n) => n,
        Err(error) => {
            tell(rt, "rerun: trace", error);
            run.input.phase = Phase::Broken;
            0
        }
    };
    if n == 0 {
        end(rt, run, out);
        return false;
    }
    let length = run.advance(memory, &piece[..n], out);
    output::write(rt, &out[..length])
}

// Reruns an open trace, piece by piece. With less memory the endpoint would answer 2 to every packet.
fn follow(
    rt: &(impl Print + Eprint),
    file: &mut impl Read,
    run: &mut Run,
    memory: &mut [u8],
    piece: &mut [u8],
    out: &mut [u8],
)
    requires ready { (m : List ℕ) → Ready (standing run.old m) }
    requires number_bound { (run.old.number < 2 ^ 62) × (run.old.input.reader.count ≡ 0) }
    requires in_bounds { 55296 ≤ length memory.old }
    requires piece_len_bound { length piece.old ≤ 32768 }
    requires in_bounds_2 { 2097152 ≤ length out.old }
{
    for _ in 0..PIECES {
        if !feed(rt, file, run, memory, piece, out) {
            return;
        }
        if run.input.phase == Phase::Broken {
            return end(rt, run, out);
        }
    }
}

fn rerun(rt: &(impl Env + Files + Print + Eprint), run: &mut Run, out: &mut [u8])
    requires ready { (m : List ℕ) → Ready (standing run.old m) }
    requires number_bound { (run.old.number < 2 ^ 62) × (run.old.input.reader.count ≡ 0) }
    requires in_bounds { 2097152 ≤ length out.old }
{
    let Some(mut file) = open(rt, 2) else {
        return end(rt, run, out);
    };
    let mut memory = [0u8; MEMORY_BYTES];
    let mut piece = [0u8; PIECE];
    follow(rt, &mut file, run, &mut memory, &mut piece, out);
}

// The image is looked at first: a bad one gives its line alone.
fn start(rt: &(impl Env + Files + Print + Eprint), settings: &[u8], out: &mut [u8])
    requires { 2097152 ≤ length out.old }
{
    match Run::load(settings, out) {
        Ok(mut run) => rerun(rt, &mut run, out),
        Err(end) => {
            output::write(rt, &out[..end]);
        }
    }
}

fn main(rt: HostRuntime) {
    let mut settings = [0u8; SETTINGS];
    let n = read_settings(&rt, &mut settings);
    let mut out = [0u8; OUT];
    start(&rt, &settings[..n], &mut out);
}
