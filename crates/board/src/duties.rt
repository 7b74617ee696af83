// A list of duties.
ghost use Rattle.std.specs.Prelude.{◌≡◌, ◌<◌, ◌≤◌, true, false, IfOk, [], ◌∷◌, ◌++◌, map, slice_index, vec_len, vec_capacity};
ghost use Rattle.std.specs.List.{slice_get};
ghost use Rattle.meaning.specs.Work.{has_duty};
ghost use Rattle.board.specs.Outcomes.{adding_once, grown};
ghost use Rattle.board.specs.Buckets.{bucket, place_after, duty_in, all_lead};

use crate::board::MOST_DUTIES;
use crate::buckets::{BUCKETS, bucket};
use meaning::{Duty, Stop};
use std::alloc::{AllocError, Global};

// A list of duties in the order in which they came, with a table that says quickly of most duties whether the list has them.
// Duties are counted as they come. The count goes on when the list is cleared, and wraps around.
#[derive(Drop)]
pub(crate) struct DutyList {
    list: Vec<Duty>,
    // for each bucket, how many duties had come before the one that came to it last
    arrivals: Vec<u32>,
    // how many duties had come before the first of the list; what came to a bucket before that leads past the list's end
    gone: u32,
    ghost few: { vec_len list ≤ 512 },
    ghost room: { 512 ≤ vec_capacity list },
    ghost whole: { vec_len arrivals ≡ 2048 },
    ghost listed: { all_lead (map (place_after gone) arrivals.items) (map duty_in list.items) ≡ true },
}

impl DutyList {
    // A list without duties. Its memory is reserved here.
    pub(crate) fn new(heap: Global) -> Result<DutyList, AllocError>
        ensures { IfOk result (λ l. l.list.items ≡ []) }
    {
        let list = Vec::with_capacity(heap, MOST_DUTIES)?;
        let arrivals = vec![in heap; u32::MAX; BUCKETS]?;
        Ok(DutyList {
            list,
            arrivals,
            gone: 0,
        })
    }

    // How many duties there are.
    pub(crate) fn len(&self) -> usize
        ensures { result ≡ vec_len self.now.list }
    {
        self.list.len()
    }

    // The duty at a place, or none past the end.
    pub(crate) fn get(&self, place: usize) -> Option<Duty>
        ensures { result ≡ slice_get self.now.list.items place }
    {
        self.list.get(place).copied()
    }

    // Where the duty stands that came to a bucket last, or past the end if none has come since the list was cleared.
    fn place_in(&self, own: usize) -> usize
        requires { own < 2048 }
        ensures { result ≡ slice_index (map (place_after self.now.gone) self.now.arrivals.items) own }
    {
        self.arrivals[own].wrapping_sub(self.gone) as usize
    }

    // Whether a duty is in the list, which is searched for it.
    fn search(&self, duty: &Duty) -> bool
        ensures { result ≡ has_duty duty.now self.now.list.items }
    {
        // No `contains`: `first_place` is the one search for ordered items, proved once, and this would be a second.
        search::first_place(&self.list, duty).is_some()
    }

    // Adds a duty, once. Mostly its bucket says whether it is there: no duty has come to it, or this one came last.
    pub(crate) fn add_once(&mut self, duty: Duty) -> Result<bool, Stop>
        ensures answer { result ≡ adding_once duty self.old.list.items }
        ensures items { self.new.list.items ≡ grown result duty self.old.list.items }
    {
        let own = bucket(&duty);
        let Some(last) = self.list.get(self.place_in(own)) else {
            return self.add_new(own, duty);
        };
        if duty == *last {
            return Ok(false);
        }
        self.add_searched(own, duty)
    }

    // The same, for which the list is searched. It is seldom called, and the saving of registers for its loop stays out of `add_once`.
    #[inline(never)]
    fn add_searched(&mut self, own: usize, duty: Duty) -> Result<bool, Stop>
        requires { own ≡ bucket duty }
        ensures answer { result ≡ adding_once duty self.old.list.items }
        ensures items { self.new.list.items ≡ grown result duty self.old.list.items }
    {
        if self.search(&duty) {
            return Ok(false);
        }
        self.add_new(own, duty)
    }

    // Adds a duty that is not there yet, if there is room for it.
    fn add_new(&mut self, own: usize, duty: Duty) -> Result<bool, Stop>
        requires place { own ≡ bucket duty }
        requires absent { has_duty duty self.old.list.items ≡ false }
        ensures answer { result ≡ adding_once duty self.old.list.items }
        ensures items { self.new.list.items ≡ grown result duty self.old.list.items }
    {
        if self.list.len() >= MOST_DUTIES {
            return Err(Stop::Crowded);
        }
        self.push_in(own, duty);
        Ok(true)
    }

    // Adds a duty that is not there yet. There is room for it.
    pub(crate) fn push(&mut self, duty: Duty)
        requires { vec_len self.old.list < 512 }
        ensures { self.new.list.items ≡ self.old.list.items ++ duty ∷ [] }
    {
        self.push_in(bucket(&duty), duty);
    }

    // The same, where its bucket is known.
    fn push_in(&mut self, own: usize, duty: Duty)
        requires place { own ≡ bucket duty }
        requires room { vec_len self.old.list < 512 }
        ensures { self.new.list.items ≡ self.old.list.items ++ duty ∷ [] }
    {
        // `as` stays: the place is below 512, and `try_from` would add an error that cannot come.
        self.arrivals[own] = self.gone.wrapping_add(self.list.len() as u32);
        self.list.push_reserved(duty);
    }

    // Drops all duties. The table stays as it is: what it says leads to no duty now.
    pub(crate) fn clear(&mut self)
        ensures { self.new.list.items ≡ [] }
    {
        self.gone = self.gone.wrapping_add(self.list.len() as u32);
        self.list.clear();
    }
}
