ghost use Rattle.std.specs.Prelude.{◌≡◌, [], true};
ghost use Rattle.std.specs.List.{list_any, position};
ghost use Rattle.spec_control.specs.EndpointBook.{is_connect_of, is_waiter};
ghost use Rattle.endpoint_book.specs.Lines.{address_line};

use crate::waits::{is_connect_of, is_fulfilled};
use spec_control::{Binding, Waiting};
use std::alloc::{AllocError, Global};
use std::collections::BTreeMap;
use std::marker::Model;
use zq_base::{Address, Endpoint, ObjId};

/// The connects that wait at each key, the longest waiting first.
#[derive(Drop)]
pub(crate) struct WaitLists {
    lists: BTreeMap<Vec<u8>, Vec<Waiting>>,
}

impl Model for WaitLists {
    ghost use Rattle.endpoint_book.specs.WaitLists.{Lists, lists_of};

    ghost Value = { Lists };

    ghost view = { λ w. lists_of w.lists.entries };
}

/// The octets that an address is searched for by.
pub(crate) fn line_of(address: &Address) -> [u8; 6]
    ensures { result ≡ address_line address.now }
{
    let octets = &address.octets;
    [
        octets[0],
        octets[1],
        octets[2],
        octets[3],
        (address.port / 256) as u8,
        (address.port % 256) as u8,
    ]
}

// Whether one of these is the object's.
fn has_waiter(list: &Vec<Waiting>, object: ObjId) -> bool
    ensures { result ≡ list_any (is_waiter object) list.now.items }
{
    list.iter().any(|wait| wait.waiter == object)
}

// Whether nothing is in it.
fn is_bare(list: &Vec<Waiting>) -> bool
    ensures { result ≡ true → list.now.items ≡ [] }
{
    list.is_empty()
}

// Where the object's longest waiting connect to the endpoint stands.
fn place_of(list: &Vec<Waiting>, object: ObjId, at: &Endpoint) -> Option<usize>
    ensures { result ≡ position (is_connect_of object at.now) list.now.items }
{
    list.iter().position(|wait| is_connect_of(wait, object, at))
}

impl WaitLists {
    ghost use Rattle.std.specs.Prelude.{◌≡◌, ◌++◌, ◌∷◌, [], not, filter, IsTrue, OnOk, OnErr};
    ghost use Rattle.std.specs.List.{list_any};
    ghost use Rattle.std.specs.Map.{lookup};
    ghost use Rattle.std.specs.Option.{option_map};
    ghost use Rattle.std.specs.Str.{bytes_eq};
    ghost use Rattle.spec_control.specs.EndpointBook.{is_fulfilled, is_connect_of, is_waiter, without_first};
    ghost use Rattle.endpoint_book.specs.WaitLists.{Sets, AreAlike, line_of, list_at};

    /// Nothing waits.
    pub(crate) fn new(alloc: Global) -> Self
        ensures { result ≡ [] }
    {
        WaitLists {
            lists: BTreeMap::new(alloc),
        }
    }

    /// What waits where the endpoint is searched for.
    pub(crate) fn beside(&self, at: &Endpoint) -> Option<&Vec<Waiting>>
        ensures { option_map (λ v. v.now.items) result ≡ lookup (bytes_eq (line_of at.now)) self.now }
    {
        match at {
            Endpoint::Inproc(name) => return self.lists.get(name.as_slice()),
            Endpoint::Tcp(address) => return self.lists.get(line_of(address).as_slice()),
        }
    }

    /// Whether one of the object waits where the endpoint is searched for.
    pub(crate) fn has_beside(&self, at: &Endpoint, object: ObjId) -> bool
        ensures { result ≡ list_any (is_waiter object) (list_at self.now (line_of at.now)) }
    {
        match self.beside(at) {
            Some(list) => return has_waiter(list, object),
            None => return false,
        }
    }

    /// Puts a connect behind those that wait where the endpoint is searched for.
    pub(crate) fn push(
        &mut self,
        alloc: Global,
        at: &Endpoint,
        wait: Waiting,
    ) -> Result<(), AllocError>
        ensures ok { OnOk result (Sets (line_of at.now)
            (list_at self.old (line_of at.now) ++ wait ∷ []) self.old self.new) }
        ensures err { OnErr result (AreAlike self.old self.new) }
    {
        match at {
            Endpoint::Inproc(name) => return self.push_at(alloc, name.as_slice(), wait),
            Endpoint::Tcp(address) => return self.push_at(alloc, &line_of(address), wait),
        }
    }

    fn push_at(&mut self, alloc: Global, line: &[u8], wait: Waiting) -> Result<(), AllocError>
        ensures ok { OnOk result (Sets line.now (list_at self.old line.now ++ wait ∷ []) self.old self.new) }
        ensures err { OnErr result (AreAlike self.old self.new) }
    {
        match self.lists.get_mut(line) {
            Some(list) => match list.push(wait) {
                Ok(()) => return Ok(()),
                Err(e) => return Err(e.into()),
            },
            None => return self.begin(alloc, line, wait),
        }
    }

    // The first connect at the key.
    fn begin(&mut self, alloc: Global, line: &[u8], wait: Waiting) -> Result<(), AllocError>
        requires { list_at self.old line.now ≡ [] }
        ensures ok { OnOk result (Sets line.now (list_at self.old line.now ++ wait ∷ []) self.old self.new) }
        ensures err { OnErr result (AreAlike self.old self.new) }
    {
        let key = Vec::from_slice(alloc, line)?;
        let mut list = Vec::new(alloc);
        list.push(wait)?;
        self.lists.insert(key, list)?;
        Ok(())
    }

    /// Takes out those that a bind of the endpoint fulfils.
    pub(crate) fn take_fulfilled(&mut self, at: &Endpoint, binding: Binding)
        ensures { Sets (line_of at.now) (filter (λ w. not (is_fulfilled at.now binding w))
            (list_at self.old (line_of at.now))) self.old self.new }
    {
        match at {
            Endpoint::Inproc(name) => return self.strip(name.as_slice(), at, binding),
            Endpoint::Tcp(address) => return self.strip(&line_of(address), at, binding),
        }
    }

    fn strip(&mut self, line: &[u8], at: &Endpoint, binding: Binding)
        ensures { Sets line.now (filter (λ w. not (is_fulfilled at.now binding w))
            (list_at self.old line.now)) self.old self.new }
    {
        self.strike_fulfilled(line, at, binding);
        self.sweep(line);
    }

    fn strike_fulfilled(&mut self, line: &[u8], at: &Endpoint, binding: Binding)
        ensures { Sets line.now (filter (λ w. not (is_fulfilled at.now binding w))
            (list_at self.old line.now)) self.old self.new }
    {
        match self.lists.get_mut(line) {
            Some(list) => {
                list.retain(|wait| !is_fulfilled(wait, at, binding));
                return;
            }
            None => return,
        }
    }

    /// Takes out the object's longest waiting connect to the endpoint, if there is one.
    pub(crate) fn take_first(&mut self, object: ObjId, at: &Endpoint) -> bool
        ensures waits { result ≡ list_any (is_connect_of object at.now) (list_at self.old (line_of at.now)) }
        ensures takes { Sets (line_of at.now) (without_first (is_connect_of object at.now)
            (list_at self.old (line_of at.now))) self.old self.new }
    {
        match at {
            Endpoint::Inproc(name) => return self.strip_first(name.as_slice(), object, at),
            Endpoint::Tcp(address) => return self.strip_first(&line_of(address), object, at),
        }
    }

    fn strip_first(&mut self, line: &[u8], object: ObjId, at: &Endpoint) -> bool
        ensures waits { result ≡ list_any (is_connect_of object at.now) (list_at self.old line.now) }
        ensures takes { Sets line.now (without_first (is_connect_of object at.now)
            (list_at self.old line.now)) self.old self.new }
    {
        let found = self.strike_first(line, object, at);
        self.sweep(line);
        found
    }

    fn strike_first(&mut self, line: &[u8], object: ObjId, at: &Endpoint) -> bool
        ensures waits { result ≡ list_any (is_connect_of object at.now) (list_at self.old line.now) }
        ensures takes { Sets line.now (without_first (is_connect_of object at.now)
            (list_at self.old line.now)) self.old self.new }
    {
        match self.lists.get_mut(line) {
            Some(list) => match place_of(list, object, at) {
                Some(place) => {
                    list.remove(place);
                    return true;
                }
                None => return false,
            },
            None => return false,
        }
    }

    /// Takes out all of the object that wait at the key.
    pub(crate) fn drop_at(&mut self, line: &[u8], object: ObjId)
        ensures { Sets line.now (filter (λ w. not (is_waiter object w))
            (list_at self.old line.now)) self.old self.new }
    {
        self.strike_all(line, object);
        self.sweep(line);
    }

    fn strike_all(&mut self, line: &[u8], object: ObjId)
        ensures { Sets line.now (filter (λ w. not (is_waiter object w))
            (list_at self.old line.now)) self.old self.new }
    {
        match self.lists.get_mut(line) {
            Some(list) => {
                list.retain(|wait| wait.waiter != object);
                return;
            }
            None => return,
        }
    }

    // A key at which nothing waits goes.
    fn sweep(&mut self, line: &[u8])
        ensures { AreAlike self.old self.new }
    {
        if self.has_none(line) {
            self.lists.remove(line);
        }
    }

    // Whether there is a list at the key with nothing in it.
    fn has_none(&self, line: &[u8]) -> bool
        ensures { IsTrue result → list_at self.now line.now ≡ [] }
    {
        match self.lists.get(line) {
            Some(list) => return is_bare(list),
            None => return false,
        }
    }
}
