// The text of a result's line.
ghost use Rattle.std.specs.Prelude.{◌≡◌, ◌≤◌, Some, length, take, drop, IfOk, string_bytes};
ghost use Rattle.std.specs.Fmt.{WritesOnOk};
ghost use Rattle.runner.specs.Lines.{hexes, bytes_text, refused_text, line_text};
ghost use Rattle.runner.specs.Results.{shown};

use super::result::{Done, JobResult, Refused};
use hex::encode_to_slice;
use std::alloc::{AllocError, Global};
use std::{fmt, str};

// A result with the byte list in which its bytes stand.
#[derive(Clone, Copy)]
pub struct ResultLine<'a> {
    pub result: JobResult,
    pub bytes: &'a [u8],
}

impl fmt::Display for ResultLine<'_> {
    ghost output = { λ line. Some (line_text (shown line.result) line.bytes.now) };

    fn fmt<W: fmt::Write>(&self, f: &mut fmt::Formatter<W>) -> fmt::Result {
        let number = self.result.number;
        match self.result.outcome {
            Ok(Done { from, count }) => {
                let bytes = Bytes(part(self.bytes, from, count));
                write!(f, "{number} ok {bytes}")
            }
            Err(refused) => write!(f, "{number} no {refused}"),
        }
    }
}

// The number of the refusal, and the place.
impl fmt::Display for Refused {
    ghost output = { λ refused. Some (refused_text refused) };

    fn fmt<W: fmt::Write>(&self, f: &mut fmt::Formatter<W>) -> fmt::Result {
        let Refused { number, place } = *self;
        write!(f, "{number} {place}")
    }
}

// Answered bytes: two hexadecimal digits for each, or `-` where there are none.
#[derive(Clone, Copy)]
struct Bytes<'a>(&'a [u8]);

// The digits of so many bytes are written at once: a write for each byte takes several times as long.
const AT_ONCE: usize = 64;

// Writes the digits of bytes, of which there are no more than that.
fn write_digits<W: fmt::Write>(f: &mut fmt::Formatter<W>, bytes: &[u8]) -> fmt::Result
    requires { length bytes.now ≤ 64 }
    ensures { WritesOnOk W.write_str_gives f.old result (hexes bytes.now) f.new }
{
    let mut digits = [0u8; 2 * AT_ONCE];
    let text = &mut digits[..2 * bytes.len()];
    let Ok(()) = encode_to_slice(bytes, text) else {
        unreachable!();
    };
    let Ok(text) = str::from_utf8(text) else {
        unreachable!();
    };
    f.write_str(text)
}

impl fmt::Display for Bytes<'_> {
    ghost output = { λ bytes. Some (bytes_text bytes.0.now) };

    fn fmt<W: fmt::Write>(&self, f: &mut fmt::Formatter<W>) -> fmt::Result {
        if self.0.is_empty() {
            return write!(f, "-");
        }
        for chunk in self.0.chunks(AT_ONCE) {
            write_digits(f, chunk)?;
        }
        Ok(())
    }
}

// Bytes of the list from a place on, as many as there are.
fn part(bytes: &[u8], from: usize, count: usize) -> &[u8]
    ensures { result.now ≡ take count (drop from bytes.now) }
{
    let rest = &bytes[from.min(bytes.len())..];
    &rest[..count.min(rest.len())]
}

// The line of a result whose bytes stand in the byte list.
pub fn line(heap: Global, job: &JobResult, bytes: &[u8]) -> Result<String, AllocError>
    ensures { IfOk result (λ s. string_bytes s ≡ line_text (shown job.now) bytes.now) }
{
    let result = *job;
    ResultLine { result, bytes }.to_string(heap)
}
