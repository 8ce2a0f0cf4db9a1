ghost use Rattle.std.specs.Prelude.{◌≡◌};
ghost use Rattle.spec_control.specs.Control.{next_object, next_pair};
ghost use Rattle.spec_control.specs.After.{owner_or_root};
ghost use Rattle.spec_control.specs.Rows.{obj};
ghost use Rattle.ctl_plane.specs.Addressee.{addressee_of, last_addressee};
ghost use Rattle.ctl_plane.specs.Addressee.{asked_by, asked_with, last_asked};
ghost use Rattle.ctl_plane.specs.Past.{control_of};

use crate::history::History;
use msg_pipe::Pipes;
use spec_control::{Did, ObjKind, Word};
use zq_base::{EndId, ObjId};

// Who gets the command of an event.
fn addressee<N, S>(did: &Did<N, S>) -> Option<ObjId>
    ensures { result ≡ addressee_of did.now }
{
    match did {
        Did::Delivered(_, letter, _) => return Some(letter.to),
        Did::Asked(_, _, _) | Did::Delimited(_, _) => return None,
    }
}

// Who got the command of the last of these events.
fn last_of<N, S>(events: &[Did<N, S>]) -> Option<ObjId>
    ensures { result ≡ last_addressee events.now }
{
    match events.last() {
        Some(did) => return addressee(did),
        None => return None,
    }
}

// The end whose other end was asked, where a command says that.
fn asked_by(word: &Word) -> Option<EndId>
    ensures { result ≡ asked_by word.now }
{
    match word {
        Word::PipeTerm(end) => return Some(*end),
        Word::Own(_)
        | Word::Plug(_)
        | Word::TermReq(_)
        | Word::Term
        | Word::TermAck(_)
        | Word::PipeBind(_, _)
        | Word::PipeTermAck(_)
        | Word::Stop
        | Word::Reap(_) => return None,
    }
}

// And so in an event.
fn asked_with<N, S>(did: &Did<N, S>) -> Option<EndId>
    ensures { result ≡ asked_with did.now }
{
    match did {
        Did::Delivered(_, letter, _) => return asked_by(&letter.word),
        Did::Asked(_, _, _) | Did::Delimited(_, _) => return None,
    }
}

// And in the last of these.
fn asked_last<N, S>(events: &[Did<N, S>]) -> Option<EndId>
    ensures { result ≡ last_asked events.now }
{
    match events.last() {
        Some(did) => return asked_with(did),
        None => return None,
    }
}

impl<P: Pipes> History<P> {
    /// How many objects were made, the root among them. This is the next one's number. It costs
    /// nothing.
    pub fn objects(&self) -> usize
        ensures { result ≡ next_object (control_of self.now) }
    {
        self.state.objects()
    }

    /// Who owns an object, and the root where nobody does. It costs a look at one row.
    pub fn owner_of(&self, id: ObjId) -> ObjId
        ensures { owner_or_root (obj (control_of self.now).rows id.0).owner ≡ result.0 }
    {
        match self.state.row(id) {
            Some(row) => match row.owner {
                Some(owner) => return owner,
                None => return ObjId(0),
            },
            None => return ObjId(0),
        }
    }

    /// How many numbers of pairs were drawn, number 0 among them. This is the next pair's number. It
    /// costs nothing.
    pub fn pairs(&self) -> usize
        ensures { result ≡ next_pair (control_of self.now) }
    {
        self.state.pairs()
    }

    /// What an object is. It costs a look at one row.
    pub fn kind(&self, id: ObjId) -> ObjKind
        ensures { result ≡ (obj (control_of self.now).rows id.0).kind }
    {
        match self.state.row(id) {
            Some(row) => return row.kind,
            None => return ObjKind::Root,
        }
    }

    /// Who got the command of the last event, if that was a delivery. It costs a look at one event.
    pub fn last_addressee(&self) -> Option<ObjId>
        ensures { result ≡ last_addressee self.now.events }
    {
        last_of(self.events.as_slice())
    }

    /// The end whose other end was asked, if the last event was the delivery of a command that says
    /// so. It costs a look at one event.
    pub fn last_asked(&self) -> Option<EndId>
        ensures { result ≡ last_asked self.now.events }
    {
        asked_last(self.events.as_slice())
    }
}
