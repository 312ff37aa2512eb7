// The text line of an event: specs/Line.
ghost use Rattle.std.specs.Prelude.{◌≡◌, ◌*◌, ◌++◌, ◌≤◌, length, drop, Some};
ghost use Rattle.refusals.specs.Refusals.{answer_number};
ghost use Rattle.digits.specs.Field.{field_at};
ghost use Rattle.lines.specs.Line.{line_length, is_line, widths, read_fields, event_read, read_line, line_of, write_answer, bytes_after, reader_number, writer_number};

use digits::BLANK;
use digits::reading::field;
use digits::writing::put;
use events::Event;
use events::limits::check;
use refusals::{Refusal, ensure};

// The columns of the nine fields, and the line with the byte that ends it.
pub const COLUMNS: usize = 74;

const LINE: usize = 75;

// The byte that ends a line.
pub const LINE_END: u8 = 10;

// Whether bytes are as many as those of a line, and end as it does.
fn is_line(line: &[u8]) -> bool
    ensures { result ≡ is_line line.now }
{
    line.len() == LINE && line[COLUMNS] == LINE_END
}

// The last five fields of a line, behind the first four: numbers as they were read, whatever they mean. They have a function of their own because the compiler takes what comes after
// many tests for rare, and does not inline it.
#[tactic(auto, using(crate::proofs::Laws::Line::fields_are))]
fn later_fields(line: &[u8], kind: u64, date: u64, mandate: u64, a: u64) -> Result<Event, Refusal>
    requires long { length line.now ≡ line_length }
    requires read { (field_at 0 2 line.now ≡ Some kind) × (field_at 2 9 line.now ≡ Some date) × (field_at 11 10 line.now ≡ Some mandate) × (field_at 21 10 line.now ≡ Some a) }
    ensures { result ≡ event_read (read_fields widths 0 line.now) }
{
    let Some(b) = field(line, 31, 10) else {
        return Err(Refusal::BadLine);
    };
    let Some(c) = field(line, 41, 10) else {
        return Err(Refusal::BadLine);
    };
    let Some(amount) = field(line, 51, 12) else {
        return Err(Refusal::BadLine);
    };
    let Some(second) = field(line, 63, 9) else {
        return Err(Refusal::BadLine);
    };
    let Some(code) = field(line, 72, 2) else {
        return Err(Refusal::BadLine);
    };
    Ok(Event {
        kind,
        date,
        mandate,
        a,
        b,
        c,
        amount,
        second,
        code,
    })
}

// The event whose fields stand in a line, or refusal 1. Each field's answer is taken apart by let .. else, as document 01 asks, and is a
// call of its own: in a loop over their widths, which the compiler then does not know, a line takes 1.9 times as long to read.
#[tactic(auto, using(crate::proofs::Laws::Line::fields_are))]
fn fields(line: &[u8]) -> Result<Event, Refusal>
    requires { length line.now ≡ line_length }
    ensures { result ≡ event_read (read_fields widths 0 line.now) }
{
    let Some(kind) = field(line, 0, 2) else {
        return Err(Refusal::BadLine);
    };
    let Some(date) = field(line, 2, 9) else {
        return Err(Refusal::BadLine);
    };
    let Some(mandate) = field(line, 11, 10) else {
        return Err(Refusal::BadLine);
    };
    let Some(a) = field(line, 21, 10) else {
        return Err(Refusal::BadLine);
    };
    later_fields(line, kind, date, mandate, a)
}

// The event of a line, or refusal 1, 3, 4 or 5.
#[tactic(auto, unfolding(crate::specs::Line::read_line), using(crate::proofs::Laws::Numbers::reader_number_is))]
pub fn read(line: &[u8]) -> Result<Event, Refusal>
    ensures answer { result ≡ read_line line.now }
    ensures number { answer_number result ≡ reader_number line.now }
{
    ensure(is_line(line), Refusal::BadLine)?;
    let e = fields(line)?;
    check(e)?;
    Ok(e)
}

// Writes the line of an event to the front of a buffer that has room for it.
fn put_line(e: Event, out: &mut [u8])
    requires { line_length ≤ length out.old }
    ensures { out.new ≡ line_of e ++ drop line_length out.old }
{
    put(out, 0, 2, BLANK, e.kind);
    put(out, 2, 9, BLANK, e.date);
    put(out, 11, 10, BLANK, e.mandate);
    put(out, 21, 10, BLANK, e.a);
    put(out, 31, 10, BLANK, e.b);
    put(out, 41, 10, BLANK, e.c);
    put(out, 51, 12, BLANK, e.amount);
    put(out, 63, 9, BLANK, e.second);
    put(out, 72, 2, BLANK, e.code);
    out[COLUMNS] = LINE_END;
}

// Writes the line of an event to the front of a lent buffer, or writes nothing and gives refusal 2, 3, 4 or 5.
#[tactic(auto, unfolding(crate::specs::Line::write_answer, crate::specs::Line::bytes_after, events::specs::Limits::checked), using(crate::proofs::Laws::Numbers::writer_number_is))]
pub fn write(e: Event, out: &mut [u8]) -> Result<(), Refusal>
    ensures answer { result ≡ write_answer e out.old }
    ensures bytes { out.new ≡ bytes_after e out.old }
    ensures number { answer_number result ≡ writer_number e out.old }
{
    ensure(LINE <= out.len(), Refusal::UnfitMemory)?;
    check(e)?;
    put_line(e, out);
    Ok(())
}
