ghost use Rattle.std.specs.Prelude.{◌≡◌, Some, IsSome, position, nat_eq, fold};
ghost use Rattle.indexmap.specs.IndexMap.{get, spare, Updates};
ghost use Rattle.ctl_state.specs.Holds.{seeks};
ghost use Rattle.ctl_state.specs.Marks.{has_mark, mark_of, next_mark};

use crate::hold::{Held, Hold, Sought, is_sought};
use crate::room_list::RoomList;
use indexmap::IndexMap;
use std::alloc::{AllocError, Global};
use std::marker::Model;
use std::mem::replace;
use zq_base::{Endpoint, PairId};

/// The holds of a socket by the marks of their endpoints: the first of each mark, and in order those
/// that stand behind another of their mark.
#[derive(Drop)]
pub(crate) struct HoldTable {
    firsts: IndexMap<u64, Hold>,
    others: RoomList<Hold>,
}

impl Model for HoldTable {
    ghost use Rattle.std.specs.Prelude.{◌≤◌};
    ghost use Rattle.indexmap.specs.IndexMap.{spare};
    ghost use Rattle.ctl_state.specs.Marks.{HoldRows, HaveFirsts};

    ghost Value = { HoldRows };

    ghost view = { λ t. record { firsts = t.firsts.entries; others = t.others.items; spare = t.others.spare } };

    ghost invariant = { λ t. HaveFirsts t.firsts.entries t.others.items
        × (t.others.spare ≤ spare t.firsts) };
}

// The mark once one octet more is read.
fn next_mark(mark: u64, octet: u8) -> u64
    ensures { result ≡ next_mark mark octet }
{
    mark.wrapping_mul(31).wrapping_add(octet as u64)
}

// The number that an endpoint is searched for by.
fn mark_of(at: &Endpoint) -> u64
    ensures { result ≡ mark_of at.now }
{
    match at {
        Endpoint::Inproc(name) => return mark_from(0, name.as_slice()),
        Endpoint::Tcp(address) => return mark_from(address.port as u64, address.octets.as_slice()),
    }
}

fn mark_from(start: u64, octets: &[u8]) -> u64
    ensures { result ≡ fold next_mark start octets.now }
{
    octets
        .iter()
        .fold(start, |mark, octet| next_mark(mark, *octet))
}

// Where the first hold of this mark stands.
fn place_of(holds: &[Hold], mark: u64) -> Option<usize>
    ensures { result ≡ position (has_mark mark) holds.now }
{
    holds.iter().position(|hold| mark == mark_of(&hold.at))
}

// Where the first hold stands that is sought.
fn place_sought(holds: &[Hold], to: &Endpoint, sought: Sought) -> Option<usize>
    ensures { result ≡ position (seeks sought to.now) holds.now }
{
    holds.iter().position(|hold| is_sought(hold, to, sought))
}

// Puts another hold in the place of the first of a mark.
fn put_first(firsts: &mut IndexMap<u64, Hold>, mark: u64, next: Hold) -> Option<Hold>
    requires there { IsSome (get nat_eq firsts.old mark) }
    ensures found { result ≡ get nat_eq firsts.old mark }
    ensures updates { Updates nat_eq firsts.old firsts.new mark (Some next) }
    ensures spare { spare firsts.new ≡ spare firsts.old }
{
    match firsts.get_mut(&mark) {
        Some(first) => return Some(replace(first, next)),
        None => return None,
    }
}

impl HoldTable {
    ghost use Rattle.std.specs.Prelude.{◌≡◌, ◌<◌, ◌≤◌, ◌+◌, ◌-◌, ◌++◌, false, filter, find, nat_eq, option_map, option_to_list, OnOk, OnErr};
    ghost use Rattle.std.specs.List.{list_any};
    ghost use Rattle.std.specs.Map.{lookup};
    ghost use Rattle.std.specs.Option.{option_map_or};
    ghost use Rattle.spec_control.specs.EndpointBook.{without_first};
    ghost use Rattle.ctl_state.specs.Holds.{joined, joined_first, seeks};
    ghost use Rattle.ctl_state.specs.Marks.{at_mark, has_mark, mark_of, no_rows, with_others, Adds, Puts};

    /// No hold, and no room for one. It takes no memory.
    pub(crate) fn new(alloc: Global) -> HoldTable
        ensures { result ≡ no_rows }
    {
        HoldTable {
            firsts: IndexMap::new(alloc),
            others: RoomList::new(alloc),
        }
    }

    /// Keeps room for so many more holds.
    pub(crate) fn reserve(&mut self, more: usize) -> Result<(), AllocError>
        ensures ok { OnOk result (self.new ≡ record self.old { spare = self.old.spare + more }) }
        ensures err { OnErr result (self.new ≡ self.old) }
    {
        // More room than a number can say is more than any memory has.
        let Some(room) = self.others.spare().checked_add(more) else {
            return Err(AllocError);
        };
        self.firsts.reserve(room)?;
        self.others.reserve(more)?;
        Ok(())
    }

    /// Gives up room that was kept: so many holds fewer will come.
    pub(crate) fn release(&mut self, fewer: usize)
        requires kept { fewer ≤ self.old.spare }
        ensures { self.new ≡ record self.old { spare = self.old.spare - fewer } }
    {
        self.others.release(fewer);
    }

    /// Adds a hold behind those of its mark, in room that was kept. It takes no memory.
    pub(crate) fn push(&mut self, hold: Hold)
        requires room { 0 < self.old.spare }
        ensures { Adds hold self.old self.new }
    {
        let mark = mark_of(&hold.at);
        if self.firsts.contains_key(&mark) {
            self.others.push(hold);
            return;
        }
        self.others.release(1);
        match self.firsts.insert(mark, hold) {
            Ok(_) => return,
            Err(_) => return,
        }
    }

    /// Whether a hold is there that is sought, by one look-up, and a walk over the others where the
    /// first of the mark is not the one.
    pub(crate) fn has(&self, to: &Endpoint, sought: Sought) -> bool
        ensures { result ≡ list_any (seeks sought to.now) (at_mark self.now (mark_of to.now)) }
    {
        if self.is_first(mark_of(to), to, sought) {
            return true;
        }
        place_sought(self.others.as_slice(), to, sought).is_some()
    }

    // Whether the first hold of the mark is the one that is sought.
    fn is_first(&self, mark: u64, to: &Endpoint, sought: Sought) -> bool
        ensures { result ≡ option_map_or (seeks sought to.now) (lookup (nat_eq mark) self.now.firsts) false }
    {
        match self.firsts.get(&mark) {
            Some(hold) => return is_sought(hold, to, sought),
            None => return false,
        }
    }

    /// Strikes the first hold that is sought, if there is one, by a look-up, and a walk over the
    /// others where one of its mark was there before or comes after it.
    pub(crate) fn strike(&mut self, to: &Endpoint, sought: Sought) -> Option<Hold>
        ensures found { result ≡ find (seeks sought to.now) (at_mark self.old (mark_of to.now)) }
        ensures rest { Puts (mark_of to.now) (without_first (seeks sought to.now)
            (at_mark self.old (mark_of to.now))) self.old self.new }
    {
        let mark = mark_of(to);
        if self.is_first(mark, to, sought) {
            return self.strike_first(mark);
        }
        self.strike_other(to, sought)
    }

    // Strikes the first hold of the mark. The next one of the mark is then its first.
    fn strike_first(&mut self, mark: u64) -> Option<Hold>
        ensures found { result ≡ lookup (nat_eq mark) self.old.firsts }
        ensures rest { Puts mark (filter (has_mark mark) self.old.others) self.old self.new }
    {
        match place_of(self.others.as_slice(), mark) {
            Some(place) => {
                let next = self.others.remove(place);
                return put_first(&mut self.firsts, mark, next);
            }
            None => return self.firsts.swap_remove(&mark),
        }
    }

    // Strikes the first of the others that is sought.
    fn strike_other(&mut self, to: &Endpoint, sought: Sought) -> Option<Hold>
        ensures found { result ≡ find (seeks sought to.now) self.old.others }
        ensures rest { self.new ≡ with_others (without_first (seeks sought to.now) self.old.others) self.old }
    {
        match place_sought(self.others.as_slice(), to, sought) {
            Some(place) => return Some(self.others.remove(place)),
            None => return None,
        }
    }

    /// The first hold that waits for the endpoint, if there is one, has got this pair.
    pub(crate) fn join(&mut self, at: &Endpoint, pair: PairId)
        ensures { Puts (mark_of at.now) (joined_first at.now pair
            (at_mark self.old (mark_of at.now))) self.old self.new }
    {
        let mark = mark_of(at);
        if self.is_first(mark, at, Sought::Waiting) {
            self.join_first(mark, pair);
            return;
        }
        self.join_other(at, pair);
    }

    // The first hold of the mark has got this pair.
    fn join_first(&mut self, mark: u64, pair: PairId)
        ensures { Puts mark (option_to_list (option_map (joined pair) (lookup (nat_eq mark) self.old.firsts))
            ++ filter (has_mark mark) self.old.others) self.old self.new }
    {
        match self.firsts.get_mut(&mark) {
            Some(hold) => {
                hold.held = Held::Joined(pair, None);
                return;
            }
            None => return,
        }
    }

    // The first of the others that waits for the endpoint has got this pair.
    fn join_other(&mut self, at: &Endpoint, pair: PairId)
        ensures { self.new ≡ with_others (joined_first at.now pair self.old.others) self.old }
    {
        match place_sought(self.others.as_slice(), at, Sought::Waiting) {
            Some(place) => {
                self.others.join(place, Held::Joined(pair, None));
                return;
            }
            None => return,
        }
    }
}
