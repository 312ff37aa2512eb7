// Events 1 to 5, which write records and post nothing: specs/Records. The caller has looked for what an event names and gives the rows
// that it found; for any rows and any lent memory each call says what it answers and writes.
#![tactic(auto)]

pub mod collects;
pub mod creditors;
pub mod mandates;

use tables::Header;

// What events 2 to 5 act on: the mandates, lent to be changed, and the creditors, lent to be read; event 5 is lent the collections beside. What
// they promise holds whatever the other tables are. That the mandates stay lent is each call's own promise, as at `BookMut` of tables.
#[derive(Drop)]
pub struct MandatesMut<'a> {
    pub header: Header,
    pub mandates: &'a mut [u64],
    pub creditors: &'a [u64],
}
