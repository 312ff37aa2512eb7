// Standard input and output. A call that was interrupted is made again at once, one that would block after a pause; one that
// fails otherwise ends the stream, and a line on standard error says why. Which bytes the system gives and takes nothing says; of
// an input or output whose bytes are known each is read or written once (specs/Streams).
#![tactic(auto)]

ghost use Rattle.streams.specs.Streams.{is_passing, ReadBehind, WholeWhenEmpty, ReadOnce, WrittenOnce};
ghost use Rattle.std.specs.Prelude.{◌≡◌, false, length, is_ok, MatchOption};
ghost use Rattle.std.specs.IoError.{raw_os_error};

use std::fmt::InlineText;
use std::io::{Error, Read, Write};
use std::thread;
use std::time::Duration;

// Linux's numbers of two errors: a call would have had to wait, or was interrupted.
const EAGAIN: i32 = 11;

const EINTR: i32 = 4;

// A stream failed, and standard error says why.
#[derive(Clone, Copy, Debug, PartialEq, Eq)]
pub struct StreamFailed;

// Waits ten milliseconds.
fn pause(rt: HostRuntime) {
    thread::sleep(&rt, Duration::from_millis(10));
}

// Says on standard error that the stream of this name failed, and why, in the system's words without std's number behind them.
fn say_failed(rt: HostRuntime, name: &str, error: Error) {
    let described = InlineText::<320>::of(error);
    let text = described.as_str();
    let reason = text
        .rsplit_once(" (os error ")
        .map_or(text, |(words, _)| words);
    let _ = eprintln!(rt; "{name}: {reason}");
}

// What becomes of a call that failed by this error: it is made again, after a pause where it would have had to wait, or the
// stream failed, and why is said.
fn try_again(rt: HostRuntime, name: &str, error: Error) -> Result<(), StreamFailed>
    ensures { MatchOption (raw_os_error error) (is_ok result ≡ false) (λ number. is_ok result ≡ is_passing number) }
{
    match error.raw_os_error() {
        Some(EINTR) => Ok(()),
        Some(EAGAIN) => {
            pause(rt);
            Ok(())
        }
        _ => {
            say_failed(rt, name, error);
            Err(StreamFailed)
        }
    }
}

// Reads once from an input of this name, behind the first `from` bytes of the buffer, which stay as they are, and gives the
// number of bytes, 0 at the end of the input, as std's `read` says it; it fails where there is no room behind them. No byte of the input is lost, and
// none is read twice.
pub fn read_from<R: Read>(
    rt: HostRuntime,
    name: &str,
    input: &mut R,
    buffer: &mut [u8],
    from: usize,
) -> Result<usize, StreamFailed>
    ensures behind { ReadBehind from buffer.old result buffer.new }
    ensures bytes { ReadOnce (R.remaining input.old) (R.remaining input.new) from buffer.new result }
{
    if buffer.len() <= from {
        return Err(StreamFailed);
    }
    for _ in 0..u64::MAX {
        match input.read(&mut buffer[from..]) {
            Ok(bytes) => return Ok(bytes),
            Err(error) => try_again(rt, name, error)?,
        }
    }
    Err(StreamFailed)
}

// Reads once from standard input, behind the first `from` bytes of the buffer.
pub fn read_behind(rt: HostRuntime, buffer: &mut [u8], from: usize) -> Result<usize, StreamFailed>
    ensures { ReadBehind from buffer.old result buffer.new }
{
    read_from(rt, "ledger: standard input", &mut rt.stdin(), buffer, from)
}

// Writes all bytes to an output of this name, each once and in their order, unless it fails.
pub fn write_to<W: Write>(
    rt: HostRuntime,
    name: &str,
    output: &mut W,
    bytes: &[u8],
) -> Result<(), StreamFailed>
    ensures empty { WholeWhenEmpty (length bytes.now) result }
    ensures bytes { WrittenOnce (W.contents output.old) (W.contents output.new) bytes.now result }
{
    let mut rest = bytes;
    for _ in 0..u64::MAX {
        if rest.is_empty() {
            return Ok(());
        }
        match output.write(rest) {
            Ok(put) => rest = &rest[put..],
            Err(error) => try_again(rt, name, error)?,
        }
    }
    Err(StreamFailed)
}

// Writes all bytes to standard output, unless it fails.
pub fn write_whole(rt: HostRuntime, bytes: &[u8]) -> Result<(), StreamFailed>
    ensures { WholeWhenEmpty (length bytes.now) result }
{
    write_to(rt, "ledger: standard output", &mut rt.stdout(), bytes)
}
