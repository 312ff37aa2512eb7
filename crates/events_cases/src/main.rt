// Cases of the text line and of the limits, for comparison with answers worked out from document 01 by hand and by
// tests/events_oracle.py. A case writes the number of its answer, 0 where it is taken, and then what was written back.
#![tactic(auto)]

use events::{Event, limits};
use lines::line;
use refusals::answer_number;
use std::io;

fn put(rt: &impl Print, n: u64) -> io::Result<()> {
    println!(rt; "{n}")
}

// A line's answer; of a line that is taken also the answer of writing its event, and the whole buffer after it.
fn read_back(rt: &impl Print, bytes: &[u8]) -> io::Result<()> {
    let answer = line::read(bytes);
    put(rt, answer_number(&answer))?;
    let Ok(e) = answer else {
        return Ok(());
    };
    let mut out = [b'#'; 80];
    put(rt, answer_number(&line::write(e, &mut out)))?;
    rt.write_all(&out)?;
    println!(rt; "")
}

// The example of document 01.
const EXAMPLE: [&[u8]; 7] = [
    b" 1 20240325         0         1         1         0           0        0 0\n",
    b" 2 20240325         7         1         5         2           0 20240325 0\n",
    b" 5 20240325         7        70         0         0       10000 20240329 0\n",
    b" 6 20240329         0        70         0         0           0        0 0\n",
    b" 6 20240402         0        70         0         0           0        0 0\n",
    b" 9 20240412         0        70       360         0           0        0 0\n",
    b"10 20240412         0        70         0         0           0        0 0\n",
];

// Lines that are not as "The text line" says: refusal 1.
const BROKEN_LINES: [&[u8]; 22] = [
    // empty
    b"",
    // only the end
    b"\n",
    // no end
    b" 1 20240325         0         1         1         0           0        0 0",
    // one byte short
    b"1 20240325         0         1         1         0           0        0 0\n",
    // one byte long
    b" 1 20240325         0         1         1         0           0        0 0\n\n",
    // a blank before the end
    b" 1 20240325         0         1         1         0           0        0 0 \n",
    // byte 13 before byte 10
    b" 1 20240325         0         1         1         0           0        0 0\r\n",
    // byte 13 for byte 10
    b" 1 20240325         0         1         1         0           0        0 0\r",
    // a tab for a blank
    b"\t1 20240325         0         1         1         0           0        0 0\n",
    // a leading zero
    b"01 20240325         0         1         1         0           0        0 0\n",
    // zeros only
    b"00 20240325         0         1         1         0           0        0 0\n",
    // a zero before a long number
    b" 1020240325         0         1         1         0           0        0 0\n",
    // a blank after a digit
    b"1  20240325         0         1         1         0           0        0 0\n",
    // a blank between digits
    b" 1 2024 325         0         1         1         0           0        0 0\n",
    // an empty field
    b"   20240325         0         1         1         0           0        0 0\n",
    // an empty last field
    b" 1 20240325         0         1         1         0           0        0  \n",
    // a letter
    b" a 20240325         0         1         1         0           0        0 0\n",
    // a sign
    b"-1 20240325         0         1         1         0           0        0 0\n",
    // the bytes beside the digits
    b" / 20240325         0         1         1         0           0        0 0\n",
    b" : 20240325         0         1         1         0           0        0 0\n",
    // byte 0
    b" \x00 20240325         0         1         1         0           0        0 0\n",
    // byte 255
    b" \xff 20240325         0         1         1         0           0        0 0\n",
];

// Sound lines outside their limits: refusals 3, 4 and 5, the first that applies.
const REFUSED_LINES: [&[u8]; 14] = [
    // kind 0
    b" 0 20240325         0         1         1         0           0        0 0\n",
    // kind 11
    b"11 20240325         0         1         1         0           0        0 0\n",
    // kind 99, date and fields bad too
    b"99 20230229         0         0         0         0           0        0 0\n",
    // nine digits of date
    b" 1202403251         0         1         1         0           0        0 0\n",
    // no day
    b" 1 20230229         0         1         1         0           0        0 0\n",
    // before the range
    b" 1 20091231         0         1         1         0           0        0 0\n",
    // after the range
    b" 1 21900101         0         1         1         0           0        0 0\n",
    // date 0, and a field bad too
    b" 1        0         0         0         1         0           0        0 0\n",
    // an unnamed field
    b" 1 20240325         0         1         1         1           0        0 0\n",
    // a mandate of ten digits
    b" 4 202403251000000000         0         0         0           0        0 0\n",
    // a signing date after the event
    b" 2 20240325         7         1         5         2           0 20240326 0\n",
    // no signing date
    b" 2 20240325         7         1         5         2           0        0 0\n",
    // a code that the kind does not have
    b" 5 20240325         7        70         0         0       10000 20240329 4\n",
    // a code where none is named
    b" 6 20240325         0        70         0         0           0        0 1\n",
];

// Lines at their limits: taken.
const FULL_LINES: [&[u8]; 5] = [
    // the largest numbers
    b" 2 21891231 999999999       256      4096        64           0 21891231 1\n",
    // amend, code 0 and 1
    b" 3 20100101 999999999         0         0        64           0        0 0\n",
    b" 3 20100101 999999999       256         0         0           0        0 1\n",
    // the largest amount
    b" 5 20240229         1 999999999         0         0 99999999999 20100101 3\n",
    // the largest rate
    b" 9 20240325         0         1      9999         0           0        0 1\n",
];

fn read_lines(rt: &impl Print, lines: &[&[u8]]) -> io::Result<()> {
    for bytes in lines {
        read_back(rt, bytes)?;
    }
    Ok(())
}

// Creditors of bank 1, by kind, date and number, written to a buffer one after the other, and the buffer after each.
fn write_to(rt: &impl Print, events: &[(u64, u64, u64)], out: &mut [u8]) -> io::Result<()> {
    for (kind, date, a) in events {
        let e = Event::from([*kind, *date, 0, *a, 1, 0, 0, 0, 0]);
        put(rt, answer_number(&line::write(e, out)))?;
        rt.write_all(out)?;
        println!(rt; "|")?;
    }
    Ok(())
}

// Refusals 3, 4 and 5, the first that applies, and an event that is taken.
const WRITTEN: [(u64, u64, u64); 6] = [
    (0, 0, 0),
    (1, 0, 0),
    (1, 20240325, 0),
    (1, 20240325, 257),
    (u64::MAX, u64::MAX, u64::MAX),
    (1, 20240325, 1),
];

// The writer: refusals 2, 3, 4 and 5, the first that applies, leave the buffer; else 75 bytes of it are the line.
fn writer(rt: &impl Print) -> io::Result<()> {
    write_to(rt, &[(1, 20240325, 1)], &mut [b'.'; 0])?;
    write_to(rt, &[(1, 20240325, 1), (0, 0, 0)], &mut [b'.'; 74])?;
    write_to(rt, &WRITTEN, &mut [b'.'; 75])?;
    write_to(rt, &[(1, 20240325, 256)], &mut [b'.'; 76])
}

const MANDATES: [u64; 4] = [0, 1, 999999999, 1000000000];

const FIRSTS: [u64; 6] = [0, 1, 256, 257, 999999999, 1000000000];

const SECONDS: [u64; 8] = [0, 1, 64, 65, 4096, 4097, 9999, 10000];

const THIRDS: [u64; 4] = [0, 1, 64, 65];

const AMOUNTS: [u64; 4] = [0, 1, 99999999999, 100000000000];

const DATES: [u64; 5] = [0, 20091231, 20240325, 20240326, 20240230];

// Event k of those that the values above make of a kind and a code, both numbers: those that mean nothing are tried too. By its
// number k: six loops in one another are no plainer.
fn nth(kind: u64, code: u64, k: usize) -> Event {
    Event {
        kind,
        date: 20240325,
        mandate: MANDATES[k % 4],
        a: FIRSTS[k / 4 % 6],
        b: SECONDS[k / 24 % 8],
        c: THIRDS[k / 192 % 4],
        amount: AMOUNTS[k / 768 % 4],
        second: DATES[k / 3072 % 5],
        code,
    }
}

// How many of the 15,360 events of a kind and a code, whether there are such or not, get an answer.
fn answered(kind: u64, code: u64, number: u64) -> usize {
    (0..15360)
        .filter(|k| answer_number(&limits::check(nth(kind, code, *k))) == number)
        .count()
}

// For each kind and code around those that there are: how many events are within their limits, and how many get 3 and 5.
fn limits_of_kinds(rt: &impl Print) -> io::Result<()> {
    for kind in 0..12 {
        for code in 0..6 {
            for number in [0, 3, 5] {
                println!(rt; "{}", answered(kind, code, number))?;
            }
        }
    }
    Ok(())
}

fn main(rt: HostRuntime) -> io::Result<()> {
    read_lines(&rt, &EXAMPLE)?;
    read_lines(&rt, &BROKEN_LINES)?;
    read_lines(&rt, &REFUSED_LINES)?;
    read_lines(&rt, &FULL_LINES)?;
    writer(&rt)?;
    limits_of_kinds(&rt)
}
