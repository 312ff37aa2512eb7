// Where a line of the input ends: specs/Cut.
ghost use Rattle.std.specs.Prelude.{◌≡◌, ◌≢◌, ◌≤◌, ◌<◌, length, IfSome, slice_index, EachIndex, MatchOption};
ghost use Rattle.std.specs.List.{prefix_len};
ghost use Rattle.lines.specs.Line.{columns, line_end};
ghost use Rattle.report.specs.Cut.{end_from, is_none, is_at, IsFirstEnd};

use lines::line::{COLUMNS, LINE_END};

// The bytes that are looked at together.
const STEP: usize = 16;

// Whether no byte ends a line. The loop has no other way out, so that many bytes can be compared at a time.
#[tactic(auto, using(crate::proofs::Laws::Cut::none_step, crate::proofs::Laws::Cut::none_end))]
fn is_endless(text: &[u8]) -> bool
    ensures { result ≡ is_none (end_from text.now 0) }
{
    let mut none = true;
    for b in text {
        none &= *b != LINE_END;
    }
    none
}

// Whether the line that begins a text ends where a sound line does.
fn ends_soundly(text: &[u8]) -> bool
    ensures { result ≡ is_at columns (end_from text.now 0) }
{
    COLUMNS < text.len() && text[COLUMNS] == LINE_END && is_endless(&text[0..COLUMNS])
}

// How many parts that begin a text end no line.
fn endless_parts(parts: &[[u8; STEP]]) -> usize
    ensures passed { result ≡ prefix_len (λ part. is_none (end_from part 0)) parts.now }
    ensures bound { result ≤ length parts.now }
{
    parts.iter().take_while(|part| is_endless(*part)).count()
}

// A place before which no line ends: some bytes are passed over at a time.
#[tactic(auto, using(crate::proofs::Laws::Cut::parts_past))]
fn skip(text: &[u8]) -> usize
    ensures inside { result ≤ length text.now }
    ensures rest { end_from text.now result ≡ end_from text.now 0 }
{
    let (parts, _) = text.as_chunks();
    STEP * endless_parts(parts)
}

// The first byte that ends a line.
fn first_end(text: &[u8]) -> Option<usize>
    ensures { MatchOption result (EachIndex text.now (λ k. slice_index text.now k ≢ line_end)) (λ i. IsFirstEnd text.now i) }
{
    text.iter().position(|b| *b == LINE_END)
}

// The first end of a line; at last byte by byte.
fn scan(text: &[u8]) -> Option<usize>
    ensures is { result ≡ end_from text.now 0 }
    ensures inside { IfSome result (λ i. i < length text.now) }
{
    let from = skip(text);
    first_end(&text[from..]).map(|i| from + i)
}

// The first end of a line from a place on; first it is looked for where a sound line has it.
#[tactic(auto, using(crate::proofs::Laws::Cut::end_from_rest, crate::proofs::Laws::Cut::end_from_no, crate::proofs::Laws::Cut::is_at_true))]
pub fn line_end(text: &[u8], from: usize) -> Option<usize>
    ensures { result ≡ end_from text.now from }
{
    let rest = text.get(from..)?;
    if ends_soundly(rest) {
        return Some(from + COLUMNS);
    }
    scan(rest).map(|i| from + i)
}
