// Lent memory of every sort that refusal 2 of document 01 names, with the answer that it gets, and fit memory that a
// hasty reading would refuse. Each case is the ledger of `lent` with one thing changed; a line is its name and the
// answer, 2 or 0. The names of the cases say what is expected of them and why; stdout holds the answers.
#![tactic(auto)]

use fitness::fitness::is_fit;
use opening::open_ledger;
use refusals::{Refusal, answer_number};
use std::io;
use tables::lookup::find;
use tables::rows::{STRIDE, put_record};
use tables::{
    BookRef, Collection, Header, Mandate, Standing, State, Undoing, collection_column,
    mandate_column,
};

// The rows of the tables of the cases.
const MANDATES: usize = 3;

const COLLECTIONS: usize = 5;

// A limit of positions and of the compensation, in cents.
const LIMIT: i64 = 10000000000000000;

// What a case changes of the ledger of `lent`.
#[derive(Clone, Copy)]
enum Change {
    // the header: the latest date, the rows used and the compensation
    Header(u64, usize, usize, i64),
    // a cell of the mandates; cell k of the first row is cell k of the table
    Mandate(usize, u64),
    // a cell of the collections
    Collection(usize, u64),
    // an entry of the creditor table and its position, and the positions of the last debtor and the last bank
    Party(usize, u64, i64, i64, i64),
}

// Row tables of other sizes, with no row used: the cells of the mandates and of the collections.
const ROW_COUNTS: [(&str, usize, usize); 9] = [
    ("one row of each, fit", STRIDE, STRIDE),
    ("no mandate row", 0, STRIDE),
    ("no collection row", STRIDE, 0),
    ("two mandate rows less a cell", 2 * STRIDE - 1, STRIDE),
    ("a collection row and a cell", STRIDE, STRIDE + 1),
    ("4096 mandate rows, fit", 4096 * STRIDE, STRIDE),
    ("4097 mandate rows", 4097 * STRIDE, STRIDE),
    ("16384 collection rows, fit", STRIDE, 16384 * STRIDE),
    ("16385 collection rows", STRIDE, 16385 * STRIDE),
];

// The other tables of other sizes: creditors, and the positions of creditors, debtors and banks.
const PARTY_SIZES: [(&str, usize, usize, usize, usize); 8] = [
    ("255 creditors", 255, 256, 4096, 64),
    ("257 creditors", 257, 256, 4096, 64),
    ("255 creditor positions", 256, 255, 4096, 64),
    ("257 creditor positions", 256, 257, 4096, 64),
    ("4095 debtor positions", 256, 256, 4095, 64),
    ("4097 debtor positions", 256, 256, 4097, 64),
    ("63 bank positions", 256, 256, 4096, 63),
    ("65 bank positions", 256, 256, 4096, 65),
];

// Other headers.
const HEADERS: [(&str, Change); 12] = [
    (
        "the ledger as lent, fit",
        Change::Header(20240412, 2, 4, 10),
    ),
    (
        "4 mandates used of 3 rows",
        Change::Header(20240412, 4, 4, 10),
    ),
    (
        "6 collections used of 5 rows",
        Change::Header(20240412, 2, 6, 10),
    ),
    ("a used row of zeros", Change::Header(20240412, 3, 4, 10)),
    ("latest date 20240230", Change::Header(20240230, 2, 1, 10)),
    ("latest date 20091231", Change::Header(20091231, 2, 1, 10)),
    ("latest date 21900101", Change::Header(21900101, 2, 1, 10)),
    (
        "latest date 0 with a settled row",
        Change::Header(0, 2, 3, 10),
    ),
    (
        "latest date 0 with a rejected row, fit",
        Change::Header(0, 2, 2, 10),
    ),
    ("compensation below 0", Change::Header(20240412, 2, 4, -1)),
    (
        "compensation at its limit, fit",
        Change::Header(20240412, 2, 4, LIMIT),
    ),
    (
        "compensation beyond it",
        Change::Header(20240412, 2, 4, LIMIT + 1),
    ),
];

// A cell of the first mandate, or of the last.
const MANDATE_CELLS: [(&str, Change); 16] = [
    (
        "mandate number 0",
        Change::Mandate(mandate_column::NUMBER, 0),
    ),
    (
        "mandate number 1000000000",
        Change::Mandate(mandate_column::NUMBER, 1000000000),
    ),
    (
        "mandate of creditor 0",
        Change::Mandate(mandate_column::CREDITOR, 0),
    ),
    (
        "mandate of creditor 257",
        Change::Mandate(mandate_column::CREDITOR, 257),
    ),
    (
        "mandate of a creditor not added",
        Change::Mandate(mandate_column::CREDITOR, 2),
    ),
    (
        "mandate of debtor 0",
        Change::Mandate(mandate_column::DEBTOR, 0),
    ),
    (
        "mandate of debtor 4097",
        Change::Mandate(mandate_column::DEBTOR, 4097),
    ),
    (
        "mandate at bank 0",
        Change::Mandate(mandate_column::BANK, 0),
    ),
    (
        "mandate at bank 65",
        Change::Mandate(mandate_column::BANK, 65),
    ),
    (
        "signed on 20230229",
        Change::Mandate(mandate_column::SIGNED, 20230229),
    ),
    (
        "signed before the range",
        Change::Mandate(mandate_column::SIGNED, 20091231),
    ),
    ("kind 2", Change::Mandate(mandate_column::CODE, 2)),
    ("standing 3", Change::Mandate(mandate_column::STANDING, 3)),
    ("FRST cell 2", Change::Mandate(mandate_column::FIRST, 2)),
    (
        "last presented on 20240431",
        Change::Mandate(mandate_column::PRESENTED, 20240431),
    ),
    (
        "the last row's standing 3",
        Change::Mandate(STRIDE + mandate_column::STANDING, 3),
    ),
];

// A cell of a collection.
const COLLECTION_CELLS: [(&str, Change); 15] = [
    (
        "collection number 0",
        Change::Collection(collection_column::NUMBER, 0),
    ),
    (
        "collection number 1000000000",
        Change::Collection(collection_column::NUMBER, 1000000000),
    ),
    (
        "collection of creditor 257",
        Change::Collection(collection_column::CREDITOR, 257),
    ),
    (
        "collection of a creditor not added",
        Change::Collection(collection_column::CREDITOR, 2),
    ),
    (
        "collection of debtor 4097",
        Change::Collection(collection_column::DEBTOR, 4097),
    ),
    (
        "creditor bank 65",
        Change::Collection(collection_column::CBANK, 65),
    ),
    (
        "debtor bank 0",
        Change::Collection(collection_column::DBANK, 0),
    ),
    ("amount 0", Change::Collection(collection_column::AMOUNT, 0)),
    (
        "amount 100000000000",
        Change::Collection(collection_column::AMOUNT, 100000000000),
    ),
    (
        "kept due 21900101",
        Change::Collection(collection_column::DUE, 21900101),
    ),
    ("state 6", Change::Collection(collection_column::STATE, 6)),
    (
        "settled on 0",
        Change::Collection(2 * STRIDE + collection_column::DAY, 0),
    ),
    (
        "settled on 20240230",
        Change::Collection(2 * STRIDE + collection_column::DAY, 20240230),
    ),
    (
        "settled after the latest date",
        Change::Collection(2 * STRIDE + collection_column::DAY, 20240413),
    ),
    (
        "undone after the latest date",
        Change::Collection(3 * STRIDE + collection_column::DAY, 20240413),
    ),
];

// A creditor, and positions.
const PARTIES: [(&str, Change); 10] = [
    ("creditor at bank 65", Change::Party(0, 65, 0, 0, 0)),
    (
        "rows of a creditor without a bank",
        Change::Party(0, 0, 0, 0, 0),
    ),
    (
        "a position of a creditor not added",
        Change::Party(1, 0, 1, 0, 0),
    ),
    ("a negative one", Change::Party(1, 0, -1, 0, 0)),
    (
        "creditor beyond the limit",
        Change::Party(0, 1, LIMIT + 1, 0, 0),
    ),
    (
        "creditor beyond it below 0",
        Change::Party(0, 1, -LIMIT - 1, 0, 0),
    ),
    (
        "debtor beyond the limit",
        Change::Party(0, 1, 0, LIMIT + 1, 0),
    ),
    (
        "debtor beyond it below 0",
        Change::Party(0, 1, 0, -LIMIT - 1, 0),
    ),
    (
        "bank beyond the limit",
        Change::Party(0, 1, 0, 0, LIMIT + 1),
    ),
    (
        "bank beyond it below 0",
        Change::Party(0, 1, 0, 0, -LIMIT - 1),
    ),
];

// Fit, though a hasty reading would refuse it: numbers and days, other fields, and cells with no meaning.
const FIT: [(&str, Change); 15] = [
    (
        "two mandates of one number, fit",
        Change::Mandate(STRIDE + mandate_column::NUMBER, 7),
    ),
    (
        "two collections of one number, fit",
        Change::Collection(STRIDE + collection_column::NUMBER, 70),
    ),
    (
        "kept due on a Saturday, fit",
        Change::Collection(collection_column::DUE, 20240330),
    ),
    (
        "settled on a Sunday, fit",
        Change::Collection(2 * STRIDE + collection_column::DAY, 20240407),
    ),
    (
        "settled before the kept due, fit",
        Change::Collection(2 * STRIDE + collection_column::DAY, 20240327),
    ),
    (
        "settled on the latest date, fit",
        Change::Collection(2 * STRIDE + collection_column::DAY, 20240412),
    ),
    (
        "signed after the latest date, fit",
        Change::Mandate(mandate_column::SIGNED, 20250101),
    ),
    (
        "FRST due on a one-off, fit",
        Change::Mandate(STRIDE + mandate_column::FIRST, 1),
    ),
    (
        "nothing presented yet, fit",
        Change::Mandate(mandate_column::PRESENTED, 0),
    ),
    (
        "another creditor bank than today's, fit",
        Change::Collection(collection_column::CBANK, 9),
    ),
    (
        "any day of a presented row, fit",
        Change::Collection(collection_column::DAY, 99999999),
    ),
    (
        "any day of a rejected row, fit",
        Change::Collection(STRIDE + collection_column::DAY, 20300101),
    ),
    (
        "any cell of an unused mandate row, fit",
        Change::Mandate(2 * STRIDE + mandate_column::STANDING, 77),
    ),
    (
        "any cell of an unused collection row, fit",
        Change::Collection(4 * STRIDE + collection_column::STATE, 77),
    ),
    (
        "positions that add up to 1, fit",
        Change::Party(0, 64, LIMIT, -LIMIT, 1),
    ),
];

// The rows used and the number that is looked for.
const LOOKUPS: [(&str, usize, u64); 5] = [
    ("the row of 72", 4, 72),
    ("the lowest row of 70", 5, 70),
    ("no row of 74", 5, 74),
    ("no used row of 73", 3, 73),
    ("no row past the table", 9, 0),
];

// The cells of the mandates that are lent.
const OPENINGS: [(&str, usize); 2] = [
    ("opening over rubbish", MANDATES * STRIDE),
    ("opening of no whole rows", MANDATES * STRIDE - 1),
];

// All that is lent.
#[derive(Drop)]
struct Memory {
    header: Header,
    mandates: [u64; MANDATES * STRIDE],
    collections: [u64; COLLECTIONS * STRIDE],
    creditors: [u64; 256],
    creditor_positions: [i64; 256],
    debtor_positions: [i64; 4096],
    bank_positions: [i64; 64],
}

impl Memory {
    // Every cell 0, no row used.
    fn zeros() -> Memory {
        Memory {
            header: Header::default(),
            mandates: [0; MANDATES * STRIDE],
            collections: [0; COLLECTIONS * STRIDE],
            creditors: [0; 256],
            creditor_positions: [0; 256],
            debtor_positions: [0; 4096],
            bank_positions: [0; 64],
        }
    }

    fn book(&self) -> BookRef<'_> {
        BookRef {
            header: self.header,
            mandates: &self.mandates,
            collections: &self.collections,
            creditors: &self.creditors,
            creditor_positions: &self.creditor_positions,
            debtor_positions: &self.debtor_positions,
            bank_positions: &self.bank_positions,
        }
    }
}

// One line: a name and a number.
fn line(rt: &impl Print, name: &str, n: u64) -> io::Result<()> {
    println!(rt; "{name}: {n}")
}

// The answer to lent memory: 0 where it is fit.
fn answer(book: &BookRef) -> u64 {
    if is_fit(book) {
        0
    } else {
        u64::from(Refusal::UnfitMemory)
    }
}

// Writes a cell; one past the end changes nothing.
fn set<T: Copy>(cells: &mut [T], k: usize, v: T) {
    if let Some(cell) = cells.get_mut(k) {
        *cell = v;
    }
}

// The first n of a slice that has them.
fn first<T>(cells: &[T], n: usize) -> &[T] {
    cells.get(..n).unwrap_or(cells)
}

fn head(latest: u64, mandates: usize, collections: usize, compensation: i64) -> Header {
    Header {
        latest,
        mandates,
        collections,
        compensation,
    }
}

// A mandate. Its code is a number, as a row has it.
fn mandate(number: u64, code: u64) -> Mandate {
    Mandate {
        number,
        creditor: 1,
        debtor: 5,
        bank: 2,
        signed: 20240325,
        code,
        standing: Standing::Live,
        first: false,
        presented: 20240402,
    }
}

fn collection(number: u64, state: State) -> Collection {
    Collection {
        number,
        creditor: 1,
        debtor: 5,
        cbank: 1,
        dbank: 2,
        amount: 10000,
        due: 20240402,
        state,
    }
}

// A collection in each state.
fn lent_collections(collections: &mut [u64]) {
    put_record(collections, 0, collection(70, State::Presented));
    put_record(collections, 1, collection(71, State::Rejected));
    put_record(collections, 2, collection(72, State::Settled(20240402)));
    put_record(
        collections,
        3,
        collection(73, State::Undone(20240412, Undoing::Refund)),
    );
}

// Creditor 1 of bank 1, two mandates of it, a recurrent and a one-off one, and a collection in each state; a row of each table is not used.
fn lent(memory: &mut Memory) {
    memory.header = head(20240412, 2, 4, 10);
    put_record(&mut memory.mandates, 0, mandate(7, 0));
    put_record(&mut memory.mandates, 1, mandate(8, 1));
    lent_collections(&mut memory.collections);
    set(&mut memory.creditors, 0, 1);
}

// A change of the ledger of `lent`.
fn make(change: Change, memory: &mut Memory) {
    match change {
        Change::Header(latest, mandates, collections, compensation) => {
            memory.header = head(latest, mandates, collections, compensation);
        }
        Change::Mandate(k, v) => set(&mut memory.mandates, k, v),
        Change::Collection(k, v) => set(&mut memory.collections, k, v),
        Change::Party(entry, bank, creditor, debtor, other) => {
            set(&mut memory.creditors, entry, bank);
            set(&mut memory.creditor_positions, entry, creditor);
            set(&mut memory.debtor_positions, 4095, debtor);
            set(&mut memory.bank_positions, 63, other);
        }
    }
}

fn changes(rt: &impl Print, cases: &[(&str, Change)]) -> io::Result<()> {
    for (name, change) in cases {
        let mut memory = Memory::zeros();
        lent(&mut memory);
        make(*change, &mut memory);
        line(rt, name, answer(&memory.book()))?;
    }
    Ok(())
}

// The first cells of one table are each table of rows.
fn row_counts(rt: &impl Print, cells: &[u64]) -> io::Result<()> {
    let zeros = Memory::zeros();
    for (name, mandates, collections) in &ROW_COUNTS {
        let book = BookRef {
            mandates: first(cells, *mandates),
            collections: first(cells, *collections),
            ..zeros.book()
        };
        line(rt, name, answer(&book))?;
    }
    Ok(())
}

// The first cells of one table and the first entries of another are each other table.
fn party_sizes(rt: &impl Print, cells: &[u64], cents: &[i64]) -> io::Result<()> {
    for (name, creditors, held, debtors, banks) in &PARTY_SIZES {
        let book = BookRef {
            header: Header::default(),
            mandates: first(cells, STRIDE),
            collections: first(cells, STRIDE),
            creditors: first(cells, *creditors),
            creditor_positions: first(cents, *held),
            debtor_positions: first(cents, *debtors),
            bank_positions: first(cents, *banks),
        };
        line(rt, name, answer(&book))?;
    }
    Ok(())
}

// Among the collections of `lent` and a second one of 70: the row of a number, 9 where there is none.
fn lookups(rt: &impl Print) -> io::Result<()> {
    let mut collections = [0; COLLECTIONS * STRIDE];
    lent_collections(&mut collections);
    put_record(&mut collections, 4, collection(70, State::Presented));
    for (name, used, number) in &LOOKUPS {
        let row = find(&collections, *used, *number).unwrap_or(9);
        line(rt, name, row as u64)?;
    }
    Ok(())
}

// Memory whose tables have their sizes, and no more that is fit.
fn rubbish() -> Memory {
    let mut memory = Memory::zeros();
    memory.header = head(77, 900, 900, -5);
    lent_collections(&mut memory.collections);
    set(&mut memory.creditors, 3, 99);
    set(&mut memory.creditor_positions, 255, LIMIT + 1);
    set(&mut memory.debtor_positions, 0, -1);
    set(&mut memory.bank_positions, 9, LIMIT + 1);
    memory
}

// The opening's answer, and the answer to the memory after it.
fn openings(rt: &impl Print) -> io::Result<()> {
    let rows = [77; MANDATES * STRIDE];
    for (name, cells) in &OPENINGS {
        let mut memory = rubbish();
        let mandates = first(&rows, *cells);
        let opened = open_ledger(
            &mut memory.header,
            mandates,
            &memory.collections,
            &mut memory.creditors,
            &mut memory.creditor_positions,
            &mut memory.debtor_positions,
            &mut memory.bank_positions,
        );
        line(rt, name, answer_number(&opened))?;
        let book = BookRef {
            mandates,
            ..memory.book()
        };
        line(rt, "and the memory after it", answer(&book))?;
    }
    Ok(())
}

fn main(rt: HostRuntime) -> io::Result<()> {
    let cents = [0i64; 4097];
    let cells = [0u64; 16385 * STRIDE];
    row_counts(&rt, &cells)?;
    party_sizes(&rt, &cells, &cents)?;
    changes(&rt, &HEADERS)?;
    changes(&rt, &MANDATE_CELLS)?;
    changes(&rt, &COLLECTION_CELLS)?;
    changes(&rt, &PARTIES)?;
    changes(&rt, &FIT)?;
    lookups(&rt)?;
    openings(&rt)
}
