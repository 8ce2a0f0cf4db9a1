ghost use Rattle.std.specs.Prelude.{◌≡◌, [], filter, length, IfOk};
ghost use Rattle.std.specs.List.{list_all};
ghost use Rattle.spec_control.specs.EndpointBook.{is_fulfilled, waiters};
ghost use Rattle.endpoint_book.specs.Owned.{keys_under, KeepsUnder, PutsUnder};
ghost use Rattle.endpoint_book.specs.WaitLists.{KeepOthers, line_of as endpoint_line};
ghost use Rattle.endpoint_book.specs.NotedWaits.{is_line, same_line, IsAmongLines, KeepsElsewhere, KeepsNoted, KeepsUnfulfilled};

use crate::change::Change;
use crate::owned::Owned;
use crate::wait_lists::{WaitLists, line_of};
use crate::waits::{copy, is_fulfilled};
use indexmap::IndexSet;
use spec_control::{Binding, Waiting};
use std::alloc::{AllocError, Global};
use std::marker::Model;
use zq_base::{Address, Endpoint, Kind, Log, ObjId};

/// The connects that wait, each where its endpoint is searched for, and where those of each object do. `past` has what
/// happened to them, for proofs alone: it says in which order they wait, and takes no memory.
#[derive(Drop)]
pub(crate) struct WaitTable {
    lists: WaitLists,
    owned: Owned<Vec<u8>>,
    past: Log<Endpoint, Change>,
}

impl Model for WaitTable {
    ghost use Rattle.std.specs.Prelude.{List, []};
    ghost use Rattle.endpoint_book.specs.NotedWaits.{AreWaitsNoted};
    ghost use Rattle.spec_control.specs.declared.book.Waiting.{Waiting};
    ghost use Rattle.endpoint_book.specs.WaitLists.{AreLists, after_all};

    ghost Value = { List Waiting };

    ghost view = { λ t. after_all [] t.past.items };

    ghost invariant = { λ t. AreLists (after_all [] t.past.items) t.lists
        × AreWaitsNoted (after_all [] t.past.items) t.owned.sets };
}

// What the endpoint is searched for by, once more.
fn copy_line(alloc: Global, at: &Endpoint) -> Result<Vec<u8>, AllocError>
    ensures { IfOk result (λ v. v.items ≡ endpoint_line at.now) }
{
    match at {
        Endpoint::Inproc(name) => return Vec::from_slice(alloc, name.as_slice()),
        Endpoint::Tcp(address) => return Vec::from_slice(alloc, &line_of(address)),
    }
}

// The object waits no more where the endpoint is searched for.
fn strike_line(owned: &mut Owned<Vec<u8>>, object: ObjId, at: &Endpoint)
    ensures { KeepsUnder same_line object (is_line (endpoint_line at.now)) owned.old.sets owned.new.sets }
{
    match at {
        Endpoint::Inproc(name) => return owned.strike(object, name.as_slice()),
        Endpoint::Tcp(address) => return owned.strike(object, line_of(address).as_slice()),
    }
}

// What the endpoint is searched for by is struck where none of the object waits there any more.
fn strike_bare(lists: &WaitLists, owned: &mut Owned<Vec<u8>>, object: ObjId, at: &Endpoint)
    ensures { KeepsNoted lists.now owned.old.sets owned.new.sets }
{
    if !lists.has_beside(at, object) {
        strike_line(owned, object, at);
    }
}

// Whether a bind of the endpoint fulfils each of these.
fn are_fulfilled(list: &Vec<Waiting>, at: &Endpoint, binding: Binding) -> bool
    ensures { result ≡ list_all (is_fulfilled at.now binding) list.now.items }
{
    list.iter().all(|wait| is_fulfilled(wait, at, binding))
}

// None of their objects waits where the endpoint is searched for any more.
fn strike_each(list: &Vec<Waiting>, owned: &mut Owned<Vec<u8>>, at: &Endpoint)
    ensures { KeepsElsewhere (endpoint_line at.now) owned.old.sets owned.new.sets }
{
    'waits: for wait in list.iter() {
        strike_line(owned, wait.waiter, at);
    }
}

// What the endpoint is searched for by is struck where a bind of it leaves none waiting there.
fn strike_fulfilled(lists: &WaitLists, owned: &mut Owned<Vec<u8>>, at: &Endpoint, binding: Binding)
    ensures { KeepsUnfulfilled at.now binding lists.now owned.old.sets owned.new.sets }
{
    match lists.beside(at) {
        Some(list) => {
            if are_fulfilled(list, at, binding) {
                strike_each(list, owned, at);
            }
            return;
        }
        None => return,
    }
}

// Takes out all of the object, by one walk over what waits where it does.
fn drop_all(lists: &mut WaitLists, object: ObjId, lines: IndexSet<Vec<u8>>)
    requires { IsAmongLines object lines.keys lists.old }
    ensures { KeepOthers object lists.old lists.new }
{
    let mut left = lines;
    'lines: while let Some(line) = left.pop() {
        lists.drop_at(line.as_slice(), object);
    }
}

// Takes out all of the object, which are where this is noted.
fn drop_noted(lists: &mut WaitLists, owned: &mut Owned<Vec<u8>>, object: ObjId)
    requires { IsAmongLines object (keys_under owned.old.sets object) lists.old }
    ensures dropped { KeepOthers object lists.old lists.new }
    ensures left { PutsUnder object [] owned.old.sets owned.new.sets }
{
    match owned.take(object) {
        Some(lines) => return drop_all(lists, object, lines),
        None => return,
    }
}

// How many of these a bind of the endpoint fulfils.
fn count_in(list: &Vec<Waiting>, at: &Endpoint, binding: Binding) -> usize
    ensures { result ≡ length (filter (is_fulfilled at.now binding) list.now.items) }
{
    list.iter()
        .filter(|wait| is_fulfilled(wait, at, binding))
        .count()
}

// The sockets of those that it fulfils.
fn waiters_in(
    alloc: Global,
    list: &Vec<Waiting>,
    at: &Endpoint,
    binding: Binding,
) -> Result<Vec<ObjId>, AllocError>
    ensures { IfOk result (λ v. v.items ≡ waiters (filter (is_fulfilled at.now binding) list.now.items)) }
{
    list.iter()
        .filter(|wait| is_fulfilled(wait, at, binding))
        .map(|wait| wait.waiter)
        .collect(alloc)
}

impl WaitTable {
    ghost use Rattle.std.specs.Prelude.{◌≡◌, ◌++◌, ◌∷◌, [], not, filter, length, IfOk, OnOk, OnErr};
    ghost use Rattle.std.specs.List.{list_any};
    ghost use Rattle.spec_control.specs.EndpointBook.{is_fulfilled, is_connect_of, is_waiter, without_first, waiters};

    /// Nothing waits.
    pub(crate) fn new(alloc: Global) -> Self
        ensures { result ≡ [] }
    {
        WaitTable {
            lists: WaitLists::new(alloc),
            owned: Owned::new(alloc),
            past: Log::new(),
        }
    }

    /// Puts a connect behind all that wait.
    pub(crate) fn push(
        &mut self,
        alloc: Global,
        at: &Endpoint,
        waiter: ObjId,
        kind: Kind,
    ) -> Result<(), AllocError>
        ensures ok { OnOk result (self.new ≡ self.old
            ++ record { at = at.now; waiter = waiter; kind = kind } ∷ []) }
        ensures err { OnErr result (self.new ≡ self.old) }
    {
        let line = copy_line(alloc, at)?;
        let kept = copy(alloc, at)?;
        let wait = Waiting {
            at: kept,
            waiter,
            kind,
        };
        self.owned.note(alloc, waiter, line)?;
        self.lists.push(alloc, at, wait)?;
        self.past = self.past.and(at, &Change::Waits(waiter, kind));
        Ok(())
    }

    /// How many a bind of the endpoint fulfils.
    pub(crate) fn count(&self, at: &Endpoint, binding: Binding) -> usize
        ensures { result ≡ length (filter (is_fulfilled at.now binding) self.now) }
    {
        match self.lists.beside(at) {
            Some(list) => return count_in(list, at, binding),
            None => return 0,
        }
    }

    /// The sockets of these, the longest waiting first.
    pub(crate) fn waiters(
        &self,
        alloc: Global,
        at: &Endpoint,
        binding: Binding,
    ) -> Result<Vec<ObjId>, AllocError>
        ensures { IfOk result (λ v. v.items ≡ waiters (filter (is_fulfilled at.now binding) self.now)) }
    {
        match self.lists.beside(at) {
            Some(list) => return waiters_in(alloc, list, at, binding),
            None => return Ok(Vec::new(alloc)),
        }
    }

    /// Takes these out.
    pub(crate) fn take_fulfilled(&mut self, at: &Endpoint, binding: Binding)
        ensures { self.new ≡ filter (λ w. not (is_fulfilled at.now binding w)) self.old }
    {
        strike_fulfilled(&self.lists, &mut self.owned, at, binding);
        self.lists.take_fulfilled(at, binding);
        self.past = self.past.and(at, &Change::Bound(binding));
    }

    /// Takes out the object's longest waiting connect to the endpoint, if there is one.
    pub(crate) fn take_first(&mut self, object: ObjId, at: &Endpoint) -> bool
        ensures waits { result ≡ list_any (is_connect_of object at.now) self.old }
        ensures takes { self.new ≡ without_first (is_connect_of object at.now) self.old }
    {
        let found = self.lists.take_first(object, at);
        strike_bare(&self.lists, &mut self.owned, object, at);
        self.past = self.past.and(at, &Change::Back(object));
        found
    }

    /// Takes out all of the object, by one walk over what waits where it does.
    pub(crate) fn drop_object(&mut self, object: ObjId)
        ensures { self.new ≡ filter (λ w. not (is_waiter object w)) self.old }
    {
        drop_noted(&mut self.lists, &mut self.owned, object);
        let nowhere = Endpoint::Tcp(Address {
            octets: [0; 4],
            port: 0,
        });
        self.past = self.past.and(&nowhere, &Change::Dropped(object));
    }
}
