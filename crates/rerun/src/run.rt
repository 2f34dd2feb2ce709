// A run of a trace that is fed in pieces: the endpoint goes from record to record, and each leaves a line.
ghost use Rattle.std.specs.Prelude.{◌≡◌, List, [], ℕ, ◌+◌, ◌*◌, ◌^◌, ◌≤◌, ◌<◌, length, take, IfOk, IfErr};
ghost use Rattle.trace.specs.Reader.{bytes_of};
ghost use Rattle.io.specs.Counts.{IsPrefixLen};
ghost use Rattle.wire.specs.Checks.{pick};
ghost use Rattle.rerun.specs.Rerun.{bad_trace};
ghost use Rattle.rerun.specs.Standing.{standing, goes_on, trace_text, Ready, Fed, Started};

use crate::input::{Input, Phase};
use crate::line::{put_answer, put_bad_settings, put_bad_trace, put_tick};
use endpoint::config::Endpoint;
use image::load::load;
use trace::number::PACKET_AT;
use trace::reader::{Complete, Reader};

// The endpoint, the trace as far as it is read, and how many records are told.
// As it is: no invariant: `Ready` is of a run with a memory, and the memory is the caller's.
#[derive(Clone, Copy)]
pub(crate) struct Run {
    pub endpoint: Endpoint,
    pub input: Input,
    pub number: u64,
}

impl Run {
    fn begin(endpoint: Endpoint) -> Run
        ensures ready { (m : List ℕ) → Ready (standing result m) }
        ensures goes { (m t : List ℕ) → goes_on (standing result m) t ≡ trace_text (record { endpoint = endpoint; mem = m }) 0 t }
        ensures number_value { (result.number ≡ 0) × (result.input.reader.count ≡ 0) }
    {
        Run {
            endpoint,
            input: Input {
                reader: Reader::start(),
                phase: Phase::Header,
            },
            number: 0,
        }
    }

    // Begins a run with the endpoint of a settings image. A bad image leaves its line in the output, up to the place that is given.
    pub(crate) fn load(settings: &[u8], out: &mut [u8]) -> Result<Run, usize>
        requires { 64 ≤ length out.old }
        ensures started { Started settings.now result out.new }
        ensures number_value { IfOk result (λ r. (r.number ≡ 0) × (r.input.reader.count ≡ 0)) }
        ensures prefix_len { IfErr result (λ n. IsPrefixLen n out.new) }
        ensures out_len { length out.new ≡ length out.old }
    {
        let loaded = load(settings);
        match loaded.answer {
            Ok(()) => Ok(Run::begin(loaded.endpoint)),
            Err(_) => Err(put_bad_settings(out)),
        }
    }

    // Feeds a piece, all of it. The lines stand at the front of the output, up to the place that is given.
    pub(crate) fn advance(&mut self, memory: &mut [u8], piece: &[u8], out: &mut [u8]) -> usize
        requires ready { (m : List ℕ) → Ready (standing self.old m) }
        requires held_len { length (bytes_of self.old.input.reader) ≡ self.old.input.reader.count }
        requires piece_bound { self.old.number + length piece.now < 2 ^ 64 }
        requires piece_in_bounds { 64 * length piece.now ≤ length out.old }
        ensures fed { Fed (standing self.old memory.old) piece.now (standing self.new memory.new) (take result out.new) }
        ensures held_len_2 { length (bytes_of self.new.input.reader) ≡ self.new.input.reader.count }
        ensures end_in_bounds { result ≤ length out.new }
    {
        let mut rest = piece;
        let mut end = 0;
        // As it is: a while: how much of the piece a turn takes is what the reader says.
        while !rest.is_empty() {
            let Some(complete) = self.input.next(&mut rest) else {
                continue;
            };
            self.number += 1;
            end = match complete {
                Complete::Tick => {
                    self.endpoint.tick();
                    put_tick(out, end, self.number)
                }
                Complete::Packet => {
                    let reader = &self.input.reader;
                    let packet = &reader.held[PACKET_AT..reader.count];
                    let answer = self.endpoint.receive(packet, memory);
                    put_answer(out, end, self.number, answer)
                }
            };
            self.input.reader.count = 0;
        }
        end
    }

    // At the end of the trace: is a record, or the header, broken or cut off?
    fn ends_badly(&self) -> bool
        ensures { (m : List ℕ) → Ready (standing self.now m) → length (bytes_of self.now.input.reader) ≡ self.now.input.reader.count
            → goes_on (standing self.now m) [] ≡ pick result bad_trace [] }
    {
        match self.input.phase {
            Phase::Header => true,
            Phase::Records => self.input.reader.count != 0,
            Phase::Broken => true,
        }
    }

    // What is still to be written at the end of the trace, alone in the output.
    pub(crate) fn finish(&self, out: &mut [u8]) -> usize
        requires { 64 ≤ length out.old }
        ensures prefix_len { IsPrefixLen result out.new }
        ensures by_index { (m : List ℕ) → Ready (standing self.now m) → length (bytes_of self.now.input.reader) ≡ self.now.input.reader.count
            → take result out.new ≡ goes_on (standing self.now m) [] }
    {
        if self.ends_badly() {
            put_bad_trace(out)
        } else {
            0
        }
    }
}
