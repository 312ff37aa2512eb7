// A text of events: the lines of the program's input, answered one after the other: specs/Text.
ghost use Rattle.std.specs.Prelude.{◌≡◌, IfSome, [], ◌+◌, ◌*◌, Ok, ◌&&◌, ◌/◌, ◌≤◌, min, leb, length, take, drop};
ghost use Rattle.digits.specs.Field.{pasted};
ghost use Rattle.tables.specs.Ledger.{ledger_in, SameLoans};
ghost use Rattle.index.specs.Index.{first_row};
ghost use Rattle.fitness.specs.Fitness.{fit};
ghost use Rattle.report.specs.Layout.{answer_length};
ghost use Rattle.run.specs.Run.{run_at, clipped_length, clipped};
ghost use Rattle.book.specs.Events.{Taken};
ghost use Rattle.events.specs.Limits.{checked};
ghost use Rattle.text.specs.Text.{Known, LineTaken, LineAnswered, LinesAnswered, PieceTaken};

use book::acting::{act_from, named_collection, named_mandate};
use events::Event;
use fitness::fitness::is_fit;
use index::Index;
use lines::line::{COLUMNS, read};
use model::HandedOn;
use refusals::{Refusal, answer_number};
use report::cut::line_end;
use report::layout::{ANSWER, LAST_NUMBER, Progress, answer_line};
use safety::is_safe;
use tables::BookMut;

// A partial line is clipped to one byte more than a sound line has.
const CLIPPED: usize = COLUMNS + 2;

// How far a text is answered, and where the first line begins that has not ended.
#[derive(Clone, Copy)]
struct Lines {
    progress: Progress,
    at: usize,
}

// What a call leaves: the lines answered so far, the bytes of the partial line, and the bytes written.
#[derive(Clone, Copy, Debug, PartialEq, Eq)]
pub struct Piece {
    pub lines: u64,
    pub partial: usize,
    pub written: usize,
}

// The lent tables, and what was tested and made once for a piece: whether they are safe, and an index of each, which holds of unsafe ones
// too: with an Option of both in place of `safe` the check loses what the tables end as. The fact stands between bars since there may be more than
// one table of before that an index was made of. That the book stays the one that was lent is in four contracts: it speaks of before and after,
// which no field can.
#[derive(Drop)]
struct KnownBook<'b, 'a, 'i> {
    book: &'b mut BookMut<'a>,
    safe: bool,
    mandates: &'i Index,
    collections: &'i Index,
    ghost known: { ∥ Known safe mandates.now collections.now (ledger_in book.now) ∥₁ },
}

// A row from which a number may be looked for. The index is not followed where there is none.
fn since(index: &Index, cells: &[u64], number: Option<u64>) -> usize
    ensures { IfSome number (λ n. result ≡ first_row index.now cells.now n) }
{
    number.map_or(0, |n| index.first_row(cells, n))
}

impl KnownBook<'_, '_, '_> {
    // Whether the memory is fit; memory that is known to be safe is not tested again.
    fn may_act(&self) -> bool
        ensures { result ≡ fit (ledger_in self.now.book.now) }
    {
        if self.safe {
            return true;
        }
        is_fit(&self.book.view())
    }

    // An event within its limits. What it names is looked for from where the indexes say.
    fn take_sound(&mut self, e: Event) -> Result<HandedOn, Refusal>
        requires { checked e ≡ (Ok tt) }
        ensures book { self.new.book.ghost_name ≡ self.old.book.ghost_name }
        ensures loans { SameLoans self.old.book.now self.new.book.now }
        ensures taken { Taken (ledger_in self.old.book.now) e result (ledger_in self.new.book.now) }
    {
        if !self.may_act() {
            return Err(Refusal::UnfitMemory);
        }
        let view = self.book.view();
        let mandates = since(self.mandates, view.mandates, named_mandate(e));
        let collections = since(self.collections, view.collections, named_collection(e));
        act_from(self.book, e, mandates, collections)
    }

    // A line: what the reader refuses, or what the ledger answers. What it hands on is not written.
    #[tactic(auto, using(lines::proofs::Laws::Promises::only_within_is_taken, model::proofs::Laws::Handed::outcome_accepted))]
    fn take_line(&mut self, line: &[u8]) -> Result<(), Refusal>
        ensures book { self.new.book.ghost_name ≡ self.old.book.ghost_name }
        ensures loans { SameLoans self.old.book.now self.new.book.now }
        ensures taken { LineTaken (ledger_in self.old.book.now) line.now result (ledger_in self.new.book.now) }
    {
        let e = read(line)?;
        self.take_sound(e)?;
        Ok(())
    }

    // Answers a line that has ended, unless 999,999 were answered before.
    fn end_line(&mut self, p: Progress, line: &[u8], out: &mut [u8]) -> Progress
        requires { p.written + answer_length ≤ length out.old }
        ensures book { self.new.book.ghost_name ≡ self.old.book.ghost_name }
        ensures loans { SameLoans self.old.book.now self.new.book.now }
        ensures answered { LineAnswered (ledger_in self.old.book.now) p line.now out.old result (ledger_in self.new.book.now) out.new }
    {
        if p.lines >= LAST_NUMBER {
            return p;
        }
        let number = p.lines + 1;
        let answer = self.take_line(line);
        let _ = answer_line(out, p.written, number, answer_number(&answer));
        Progress {
            lines: number,
            written: p.written + ANSWER,
        }
    }

    // Answers the lines of a text that have ended.
    #[tactic(auto, using(crate::proofs::Laws::Text::end_inside, crate::proofs::Laws::Text::end_onward))]
    fn take_lines(&mut self, lines: u64, text: &[u8], out: &mut [u8]) -> Lines
        requires { answer_length * length text.now ≤ length out.old }
        ensures book { self.new.book.ghost_name ≡ self.old.book.ghost_name }
        ensures loans { SameLoans self.old.book.now self.new.book.now }
        ensures answered { LinesAnswered (run_at (ledger_in self.old.book.now) lines []) text.now out.old result (ledger_in self.new.book.now) out.new }
    {
        // each line begins behind the end of the one before
        let mut progress = Progress { lines, written: 0 };
        let mut at = 0;
        while let Some(end) = line_end(text, at) {
            let next = end + 1;
            progress = self.end_line(progress, &text[at..next], out);
            at = next;
        }
        Lines { progress, at }
    }
}

// The bytes of a partial line that are left of so many.
fn clip(long: usize) -> usize
    ensures { result ≡ min long clipped_length }
{
    long.min(CLIPPED)
}

// Puts the partial line that begins at a place, clipped, to the front of the text, and gives its length.
#[tactic(auto, using(crate::proofs::Laws::Text::partial_length, crate::proofs::Laws::Text::partial_kept))]
fn keep_partial(text: &mut [u8], at: usize, filled: usize) -> usize
    requires { (at ≤ filled) × (filled ≤ length text.old) }
    ensures length { result ≡ length (clipped (drop at (take filled text.old))) }
    ensures text { text.new ≡ pasted 0 (clipped (drop at (take filled text.old))) text.old }
{
    let n = clip(filled - at);
    text.copy_within(at..at + n, 0);
    n
}

// Whether the text is there and the buffer has room for an answer to each byte.
fn piece_fits(filled: usize, long: usize, room: usize) -> bool
    ensures { result ≡ leb filled long && leb filled (room / answer_length) }
{
    (filled <= long) & (filled <= room / ANSWER)
}

// Takes a piece of input, its first `filled` bytes: answers every line that has ended, and puts the partial one behind
// them, clipped, to the front of the text. The memory is tested once, and each table gets an index. Refusal 2 where text and buffer
// do not fit. The text is flat with its length beside it: C lends it so, and there is no heap to hold a text of its own.
#[tactic(auto, using(crate::proofs::Laws::Text::piece_room))]
pub fn take_text(
    book: &mut BookMut,
    lines: u64,
    filled: usize,
    text: &mut [u8],
    out: &mut [u8],
) -> Result<Piece, Refusal>
    ensures loans { SameLoans book.old book.new }
    ensures taken { PieceTaken (ledger_in book.old) lines filled text.old out.old result (ledger_in book.new) text.new out.new }
{
    if !piece_fits(filled, text.len(), out.len()) {
        return Err(Refusal::UnfitMemory);
    }
    let view = book.view();
    let safe = is_safe(&view);
    let mandates = Index::of(view.mandates, view.header.mandates);
    let collections = Index::of(view.collections, view.header.collections);
    let mut tables = KnownBook {
        book,
        safe,
        mandates: &mandates,
        collections: &collections,
    };
    let Lines { progress, at } = tables.take_lines(lines, &text[..filled], out);
    let partial = keep_partial(text, at, filled);
    Ok(Piece {
        lines: progress.lines,
        partial,
        written: progress.written,
    })
}
