// Cases of the text of the program `ledger`, for comparison with lines that document 01 shows or that follow from it, as
// tests/report_oracle.py works them out. Each call stands by itself with its numbers: the buffers differ, and a table of cases would be no plainer.
#![tactic(auto)]

use report::{cut, layout};
use std::io;

// An answer line alone.
fn answer(rt: &impl Print, number: u64, answer: u64) -> io::Result<()> {
    let mut out = [b'#'; 10];
    layout::answer_line(&mut out, 0, number, answer);
    rt.write_all(&out)
}

// A position line alone. Its kind is a number, as `position_line` takes it.
fn position(rt: &impl Print, kind: u64, number: u64, cents: i64) -> io::Result<()> {
    let mut out = [b'#'; 27];
    layout::position_line(&mut out, 0, kind, number, cents);
    rt.write_all(&out)
}

// The output of document 01's example.
fn example(rt: &impl Print) -> io::Result<()> {
    answer(rt, 1, 0)?;
    answer(rt, 2, 0)?;
    answer(rt, 3, 0)?;
    answer(rt, 4, 7)?;
    answer(rt, 5, 0)?;
    answer(rt, 6, 0)?;
    answer(rt, 7, 15)?;
    position(rt, 1, 1, -10)?;
    position(rt, 3, 1, -10)?;
    position(rt, 3, 2, 10)?;
    position(rt, 4, 0, 10)
}

// Whether a line was written, and the whole buffer after it.
fn show(rt: &impl Print, written: bool, out: &[u8]) -> io::Result<()> {
    println!(rt; "{}", u8::from(written))?;
    rt.write_all(out)?;
    println!(rt; "|")
}

fn answer_to(
    rt: &impl Print,
    out: &mut [u8],
    at: usize,
    number: u64,
    answer: u64,
) -> io::Result<()> {
    let written = layout::answer_line(out, at, number, answer);
    show(rt, written, out)
}

// The same of a position line. Its kind is a number: one past the last that is written, too.
fn position_to(
    rt: &impl Print,
    out: &mut [u8],
    at: usize,
    kind: u64,
    number: u64,
    cents: i64,
) -> io::Result<()> {
    let written = layout::position_line(out, at, kind, number, cents);
    show(rt, written, out)
}

fn answers(rt: &impl Print) -> io::Result<()> {
    let mut none = *b"";
    answer_to(rt, &mut none, 0, 1, 0)?;
    let mut short = *b".........";
    answer_to(rt, &mut short, 0, 1, 0)?;
    // one line behind the other, and no room for a third
    let mut out = *b".......................";
    answer_to(rt, &mut out, 1, 0, 0)?;
    answer_to(rt, &mut out, 11, 999999, 999)?;
    answer_to(rt, &mut out, 21, 1, 0)?;
    answer_to(rt, &mut out, 14, 1, 0)?;
    answer_to(rt, &mut out, 18446744073709551615, 1, 0)?;
    // numbers wider than their columns
    answer_to(rt, &mut out, 0, 1000000, 0)?;
    answer_to(rt, &mut out, 0, 18446744073709551615, 0)?;
    answer_to(rt, &mut out, 0, 1, 1000)?;
    // at the right edge
    answer_to(rt, &mut out, 13, 123456, 17)
}

fn positions(rt: &impl Print) -> io::Result<()> {
    let mut short = *b"..........................";
    position_to(rt, &mut short, 0, 1, 1, 1)?;
    let mut out = *b".............................";
    // no cents
    position_to(rt, &mut out, 1, 4, 0, 0)?;
    // the widest
    position_to(rt, &mut out, 1, 99, 999999, -10000000000000000)?;
    position_to(rt, &mut out, 1, 2, 4096, 10000000000000000)?;
    // a digit, all nines, a zero inside
    position_to(rt, &mut out, 1, 1, 256, -1)?;
    position_to(rt, &mut out, 1, 1, 256, -9999999999999999)?;
    position_to(rt, &mut out, 1, 1, 256, -1002003)?;
    // outside the limits, and no room
    position_to(rt, &mut out, 1, 1, 1, 10000000000000001)?;
    position_to(rt, &mut out, 1, 1, 1, -10000000000000001)?;
    position_to(rt, &mut out, 1, 1, 1, -9223372036854775808)?;
    position_to(rt, &mut out, 1, 100, 1, 1)?;
    position_to(rt, &mut out, 1, 1, 1000000, 1)?;
    position_to(rt, &mut out, 3, 1, 1, 1)?;
    position_to(rt, &mut out, 18446744073709551615, 1, 1, 1)?;
    // at the right edge
    position_to(rt, &mut out, 2, 3, 64, 7)
}

// The place of an end, or that there is none.
fn end(rt: &impl Print, text: &[u8], from: usize) -> io::Result<()> {
    match cut::line_end(text, from) {
        Some(i) => println!(rt; "{i}"),
        None => println!(rt; "none"),
    }
}

fn ends(rt: &impl Print) -> io::Result<()> {
    end(rt, b"", 0)?;
    end(rt, b"\n", 0)?;
    end(rt, b"\n", 1)?;
    end(rt, b"ab\r\n\ncd", 0)?;
    end(rt, b"ab\r\n\ncd", 3)?;
    end(rt, b"ab\r\n\ncd", 4)?;
    end(rt, b"ab\r\n\ncd", 5)?;
    end(rt, b"ab\r\n\ncd", 7)?;
    end(rt, b"ab\r\n\ncd", 18446744073709551615)
}

fn main(rt: HostRuntime) -> io::Result<()> {
    example(&rt)?;
    answers(&rt)?;
    positions(&rt)?;
    ends(&rt)
}
