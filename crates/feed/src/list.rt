// A feed that is a list of records.
ghost use Rattle.std.specs.Prelude.{◌≡◌, ◌^◌, ◌<◌, true};
ghost use Rattle.std.specs.List.Sorted.{IsNonDecreasingBy};
ghost use Rattle.std.proofs.Common.{rules};
ghost use Rattle.feed.specs.Lists.{list_reads, first_reading, rank, ranked};

use crate::feed::{Feed, STATES, VARIABLES};

// A record: the number that a variable has in a state. It lies in memory as C lays it out, so that a C program can lend a list.
#[repr(C)]
#[derive(Clone, Copy, Debug, PartialEq, Eq)]
pub struct Reading {
    pub state: u32,
    pub variable: u32,
    pub number: i64,
}

// Reads from a list of records, in any order. The first one for a variable and a state counts.
#[derive(Clone, Copy, Debug)]
pub struct ListFeed<'a> {
    list: &'a [Reading],
    // Whether the list rises, by state and then by variable. Then it can be searched by halves.
    rises: bool,
    ghost order: { rises ≡ true → IsNonDecreasingBy rank list.now },
}

impl<'a> ListFeed<'a> {
    // A feed over the whole list, which is looked through once for its order. Records outside the ranges are passed over.
    pub fn new(list: &'a [Reading]) -> ListFeed<'a>
        ensures { result.list.now ≡ list.now }
    {
        ListFeed {
            list,
            rises: rises(list),
        }
    }
}

// What a list of records means.
impl<'a> Feed for ListFeed<'a> {
    // The number of the first record, in the ranges.
    ghost readings = { λ s. list_reads s.list.now };

    // Searches the list for the first record, by halves where it rises.
    fn reading(&self, variable: usize, state: usize) -> Option<i64> {
        if variable >= VARIABLES || state >= STATES {
            return None;
        }
        if self.rises {
            by_halves(self.list, variable, state)
        } else {
            from_the_front(self.list, variable, state)
        }
    }

    // A record outside the ranges is no reading.
    ghost elsewhere = { λ s v k e. Prim.search rules };
}

// The number of the first record for a variable and a state, from the front on.
fn from_the_front(list: &[Reading], variable: usize, state: usize) -> Option<i64>
    ensures { result ≡ first_reading list.now variable state }
{
    // There is no `From<u32>` for `usize`, so a record's numbers widen by `as`.
    list.iter()
        .find(|r| r.state as usize == state && r.variable as usize == variable)
        .map(|r| r.number)
}

// The same in a list that rises, by halves. Of equal records the first is found.
fn by_halves(list: &[Reading], variable: usize, state: usize) -> Option<i64>
    requires small { (variable < 16) × (state < 65535) }
    requires rises { IsNonDecreasingBy rank list.now }
    ensures { result ≡ first_reading list.now variable state }
{
    let wanted = ranked(variable as u64, state as u64);
    let place = list.partition_point(|r| rank(r) < wanted);
    let found = list.get(place)?;
    if rank(found) == wanted {
        Some(found.number)
    } else {
        None
    }
}

// Whether a list rises. Equal records may follow each other.
fn rises(list: &[Reading]) -> bool
    ensures { result ≡ true → IsNonDecreasingBy rank list.now }
{
    list.is_sorted_by(|q, r| rank(q) <= rank(r))
}

// Where a record stands in the order.
fn rank(record: &Reading) -> u64
    ensures { result ≡ rank record.now }
{
    ranked(u64::from(record.variable), u64::from(record.state))
}

// Where a variable and a state stand in the order of states, and of variables in a state.
// All variables above 15 count alike, since none of them has readings: so a number says the order.
fn ranked(variable: u64, state: u64) -> u64
    requires small { state < 2 ^ 32 }
    ensures { result ≡ ranked variable state }
{
    17 * state + variable.min(16)
}
