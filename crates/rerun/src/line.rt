// The lines as text, put into an output one behind the other: `at` is where it ends so far.
// As it is: no `write!`: the contracts give each line's bytes, and the output is fixed memory.
ghost use Rattle.std.specs.Prelude.{◌≡◌, ◌++◌, ◌+◌, ◌≤◌, length, take};
ghost use Rattle.io.specs.Counts.{IsPrefixLen};
ghost use Rattle.endpoint.specs.Answer.{values_of};
ghost use Rattle.rerun.specs.Rerun.{decimal, ticked, answered, line_text, bad_trace, bad_settings};

use endpoint::answer::{Drop, Received};

fn put(out: &mut [u8], at: usize, text: &[u8]) -> usize
    requires { at + length text.now ≤ length out.old }
    ensures value { result ≡ at + length text.now }
    ensures out_after { take result out.new ≡ take at out.old ++ text.now }
{
    out[at..at + text.len()].copy_from_slice(text);
    at + text.len()
}

// A number in decimal, and a word behind it.
fn put_number(out: &mut [u8], at: usize, n: u64, word: &[u8]) -> usize
    requires { at + (20 + length word.now) ≤ length out.old }
    ensures upper_bound { result ≤ at + (20 + length word.now) }
    ensures out_after { take result out.new ≡ take at out.old ++ (decimal n ++ word.now) }
{
    let mut digits = [0u8; 20];
    let k = io::decimal(n, &mut digits);
    let end = put(out, at, &digits[..k]);
    put(out, end, word)
}

// A tick's line.
pub(crate) fn put_tick(out: &mut [u8], at: usize, number: u64) -> usize
    requires { at + 64 ≤ length out.old }
    ensures upper_bound { result ≤ at + 64 }
    ensures out_after { take result out.new ≡ take at out.old ++ line_text number ticked }
{
    put_number(out, at, number, b" tick\n")
}

// A packet's line: a tenant is told where a frame was delivered, and nowhere else.
pub(crate) fn put_answer(
    out: &mut [u8],
    at: usize,
    number: u64,
    answer: Result<Received, Drop>,
) -> usize
    requires { at + 64 ≤ length out.old }
    ensures upper_bound { result ≤ at + 64 }
    ensures out_after { take result out.new ≡ take at out.old ++ line_text number (answered (values_of answer).number (values_of answer).tenant) }
{
    let said = put_number(out, at, number, b" ");
    match answer {
        Ok(Received::Delivered(target, _)) => {
            let tenant = put(out, said, b"0 ");
            put_number(out, tenant, u64::from(target.tenant), b"\n")
        }
        Ok(Received::Pending) => put(out, said, b"1 -\n"),
        Err(d) => put_number(out, said, u64::from(d.code()), b" -\n"),
    }
}

// The last line of a trace that is broken or cut off, alone in the output.
// As it is: beside `put_bad_settings`, since each names the definition that it writes.
pub(crate) fn put_bad_trace(out: &mut [u8]) -> usize
    requires { 64 ≤ length out.old }
    ensures prefix_len { IsPrefixLen result out.new }
    ensures out_after { take result out.new ≡ bad_trace }
{
    put(out, 0, b"bad trace\n")
}

// The one line of a bad image.
pub(crate) fn put_bad_settings(out: &mut [u8]) -> usize
    requires { 64 ≤ length out.old }
    ensures prefix_len { IsPrefixLen result out.new }
    ensures out_after { take result out.new ≡ bad_settings }
{
    put(out, 0, b"bad settings\n")
}
