ghost use Rattle.std.specs.Prelude.{◌≡◌, ◌++◌, IfOk, OnOk};
ghost use Rattle.ctl_plane.specs.Enders.{ender_of, enders_in, request_ender, root_ender};

use crate::history::History;
use msg_pipe::Pipes;
use spec_control::{Did, Reply, Req};
use std::alloc::{AllocError, Global};
use zq_base::{ObjId, Seq};

// The root behind those before, where it is asked now.
fn note_root(objects: &mut Vec<ObjId>, reply: Reply) -> Result<(), AllocError>
    ensures { OnOk result (objects.new.items ≡ objects.old.items ++ root_ender reply) }
{
    match reply {
        Reply::Asked => {
            objects.push(ObjId(0))?;
            return Ok(());
        }
        Reply::Done | Reply::Object(_) | Reply::Pair(_) | Reply::Both(_, _) => return Ok(()),
        Reply::Wait | Reply::Before | Reply::Refused(_) => return Ok(()),
    }
}

// What a request may end.
fn note_request(objects: &mut Vec<ObjId>, req: &Req, reply: Reply) -> Result<(), AllocError>
    ensures { OnOk result (objects.new.items ≡ objects.old.items ++ request_ender req.now reply) }
{
    match req {
        Req::AskTerm => return note_root(objects, reply),
        Req::OutputOver(session) => {
            objects.push(*session)?;
            return Ok(());
        }
        Req::Socket(_, _) | Req::Bind(_, _) | Req::Connect(_, _) => return Ok(()),
        Req::Unbind(_, _) | Req::Disconnect(_, _) | Req::Close(_) => return Ok(()),
        Req::Accepted(_) | Req::Shaken(_, _) | Req::AskEnd(_, _) => return Ok(()),
        Req::AskOver(_) => return Ok(()),
    }
}

// What an event may end.
fn note_event<N, S>(objects: &mut Vec<ObjId>, did: &Did<N, S>) -> Result<(), AllocError>
    ensures { OnOk result (objects.new.items ≡ objects.old.items ++ ender_of did.now) }
{
    match did {
        Did::Asked(req, reply, _) => return note_request(objects, req, *reply),
        Did::Delivered(_, letter, _) => {
            objects.push(letter.to)?;
            return Ok(());
        }
        Did::Delimited(_, _) => return Ok(()),
    }
}

// What these events may end.
fn note_all<N, S>(alloc: Global, events: &[Did<N, S>]) -> Result<Seq<ObjId>, AllocError>
    ensures { IfOk result (λ objects. objects ≡ enders_in events.now) }
{
    let mut objects = Vec::new(alloc);
    'events: for did in events {
        note_event(&mut objects, did)?;
    }
    Ok(Seq::of_vec(objects))
}

impl<P: Pipes> History<P> {
    /// The object that each event so far may have ended, in order: who got a command, whose output was
    /// over, and the root where it was asked. It walks over all events.
    pub fn enders(&self, alloc: Global) -> Result<Seq<ObjId>, AllocError>
        ensures { IfOk result (λ objects. objects ≡ enders_in self.now.events) }
    {
        note_all(alloc, self.events.as_slice())
    }
}
