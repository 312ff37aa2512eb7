// The program `ledger` of document 01, "The text line": events from standard input, one a line; to standard output an
// answer for each line, then the positions and the total compensation. It reads and writes; what the bytes mean, what is
// answered to them and how that is written is in the libraries, proved.
#![tactic(auto)]

ghost use Rattle.std.specs.Prelude.{◌≡◌, false, [], ◌+◌, ◌*◌, ◌≤◌, ◌<◌, length, is_ok, IfOk};
ghost use Rattle.tables.specs.Ledger.{ledger_of, ledger_in, SameLoans};
ghost use Rattle.report.specs.Layout.{answer_length};
ghost use Rattle.run.specs.Run.{run_at, clipped_length};
ghost use Rattle.ledger.specs.Input.{filled_after, Behind, Given, Turned, InputTaken};
ghost use Rattle.ledger.specs.Program.{Begins, LastRoom, Finished, RunShown};

use listing::ending::end_text;
use listing::listing::list_positions;
use listing::past::{goes_past, lines_past};
use opening::open_ledger;
use streams::{StreamFailed, read_behind, write_whole};
use tables::rows::STRIDE;
use tables::{BookMut, BookRef, Header};
use text::text::take_text;

// The rows of the tables.
const MANDATES: usize = 128;

const COLLECTIONS: usize = 256;

// The bytes of the text and of the buffer, which has room for an answer to each byte of the text. The text is large, since
// the memory is tested once for a piece.
const TEXT: usize = 262_144;

const OUT: usize = 2_621_440;

// How far a run is: the lines answered, the bytes of the partial line at the front of the text, the bytes of answers to be
// written, and whether there is input beyond the last line that is answered. With a `Piece` and a flag in it each of the first three would be a
// name further off.
#[derive(Clone, Copy, Default)]
struct Stage {
    lines: u64,
    partial: usize,
    written: usize,
    beyond: bool,
}

// The bytes of the text after a read behind the partial line: no more than before at the end of the input. A read that failed
// ends the run.
fn filled_by(partial: usize, got: Result<usize, StreamFailed>) -> Result<usize, StreamFailed>
    requires { IfOk got (λ n. partial + n < 18446744073709551616) }
    ensures { result ≡ filled_after partial got }
{
    Ok(partial + got?)
}

// Reads once behind the partial line.
fn fill(rt: HostRuntime, text: &mut [u8], partial: usize) -> Result<usize, StreamFailed>
    requires { partial < length text.old }
    ensures { Behind partial text.old result text.new }
{
    let got = read_behind(rt, text, partial);
    filled_by(partial, got)
}

// Answers the lines that have ended in the first `filled` bytes of the text.
fn take_piece(p: Stage, book: &mut BookMut, filled: usize, text: &mut [u8], out: &mut [u8]) -> Stage
    requires { Given filled text.old out.old }
    ensures loans { SameLoans book.old book.new }
    ensures turned { Turned (ledger_in book.old) p filled text.old out.old result (ledger_in book.new) text.new out.new }
{
    let over = lines_past(p.lines, &text[..filled]);
    let piece = take_text(book, p.lines, filled, text, out).unwrap();
    Stage {
        lines: piece.lines,
        partial: piece.partial,
        written: piece.written,
        beyond: goes_past(over, piece.lines, piece.partial),
    }
}

// The whole input, piece by piece, until it ends, goes past the last line that is answered, or a stream fails: the stage is how far
// the run is then, in each case. A proved loop has to end, and nothing says that the input does: so the loop has a number of turns
// that no run uses up.
#[tactic(auto, using(crate::proofs::Laws::Input::taken_none))]
fn take_input(
    rt: HostRuntime,
    p: &mut Stage,
    book: &mut BookMut,
    text: &mut [u8],
    out: &mut [u8],
) -> Result<(), StreamFailed>
    requires { (clipped_length < length text.old) × (answer_length * length text.old ≤ length out.old) }
    ensures loans { SameLoans book.old book.new }
    ensures taken { InputTaken (run_at (ledger_in book.old) 0 []) (ledger_in book.new) p.new.lines p.new.partial p.new.beyond text.new }
{
    *p = Stage::default();
    for _ in 0..u64::MAX {
        let filled = fill(rt, text, p.partial)?;
        if filled == p.partial {
            break;
        }
        *p = take_piece(*p, book, filled, text, out);
        write_whole(rt, &out[..p.written])?;
        if p.beyond {
            break;
        }
    }
    Ok(())
}

// Says that lines past the last that is answered were not read.
fn say_past(rt: HostRuntime) {
    let _ = eprintln!(rt; "ledger: lines past 999999 were not read");
}

// Answers a partial line where the input ends, and lists the positions behind; gives the bytes of both.
fn put_last(p: Stage, book: &BookRef, out: &mut [u8]) -> usize
    requires { LastRoom (ledger_of book.now) out.old }
    ensures { Finished (ledger_of book.now) p.lines p.partial out.old result out.new }
{
    let end = end_text(p.lines, p.partial, out).unwrap();
    let listed = list_positions(book, &mut out[end.written..]).unwrap();
    end.written + listed
}

// Writes bytes unless a stream failed before.
fn send(rt: HostRuntime, before: Result<(), StreamFailed>, bytes: &[u8]) -> Result<(), StreamFailed>
    ensures { (is_ok before ≡ false → is_ok result ≡ false) × (length bytes.now ≡ 0 → is_ok result ≡ is_ok before) }
{
    before?;
    write_whole(rt, bytes)
}

// Makes what is to be written where the input ends, and writes it if no stream failed where it was taken; says it if there was more
// input. Gives its bytes in each case.
fn finish(
    rt: HostRuntime,
    taken: Result<(), StreamFailed>,
    p: Stage,
    book: &BookRef,
    out: &mut [u8],
) -> usize
    requires { LastRoom (ledger_of book.now) out.old }
    ensures { Finished (ledger_of book.now) p.lines p.partial out.old result out.new }
{
    let bytes = put_last(p, book, out);
    let sent = send(rt, taken, &out[..bytes]);
    if sent.is_ok() & p.beyond {
        say_past(rt);
    }
    bytes
}

// The lines of the input, and then the positions, by a text and a buffer for answers; gives the last bytes that are to be written,
// and are where no stream failed.
fn run_by(rt: HostRuntime, book: &mut BookMut, text: &mut [u8; TEXT], out: &mut [u8; OUT]) -> usize
    requires { Begins (ledger_in book.old) }
    ensures { RunShown (ledger_in book.old) (ledger_in book.new) text.new result out.new }
{
    let mut p = Stage::default();
    let taken = take_input(rt, &mut p, book, text, out);
    finish(rt, taken, p, &book.view(), out)
}

// Lends the text and the buffer. Why a stream failed was said, and the run ends there.
fn run(rt: HostRuntime, book: &mut BookMut)
    requires { Begins (ledger_in book.old) }
{
    let mut text = [0u8; TEXT];
    let mut out = [0u8; OUT];
    run_by(rt, book, &mut text, &mut out);
}

// Lends the rows, opens the ledger on them and runs.
fn main(rt: HostRuntime) {
    let mut mandates = [0u64; MANDATES * STRIDE];
    let mut collections = [0u64; COLLECTIONS * STRIDE];
    let mut creditors = [0u64; 256];
    let mut creditor_positions = [0i64; 256];
    let mut debtor_positions = [0i64; 4096];
    let mut bank_positions = [0i64; 64];
    let mut header = Header::default();
    let opened = open_ledger(
        &mut header,
        &mandates,
        &collections,
        &mut creditors,
        &mut creditor_positions,
        &mut debtor_positions,
        &mut bank_positions,
    );
    if opened.is_err() {
        return;
    }
    run(
        rt,
        &mut BookMut {
            header,
            mandates: &mut mandates,
            collections: &mut collections,
            creditors: &mut creditors,
            creditor_positions: &mut creditor_positions,
            debtor_positions: &mut debtor_positions,
            bank_positions: &mut bank_positions,
        },
    );
}
