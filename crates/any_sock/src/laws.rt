ghost use Rattle.any_sock.specs.Told.{IsToldByPeers};

use crate::any_sock::AnySock;

impl AnySock {
    /// What the socket is over its ends is told by the ends at its peers' places. It costs nothing.
    pub fn is_told_by_its_peers(&self)
        ensures { IsToldByPeers self.now }
    {
        match self {
            AnySock::Push(_) => return,
            AnySock::Pull(_) => return,
            AnySock::Pair(_) => return,
            AnySock::Dealer(_) => return,
            AnySock::Req(req) => return req.has_asked_a_peer(),
            AnySock::Rep(rep) => return rep.owes_a_peer(),
            AnySock::Router(_) => return,
            AnySock::Pub(publisher) => return publisher.hears_its_peers(),
            AnySock::XPub(publisher) => return publisher.hears_its_peers(),
            AnySock::Sub(_) => return,
            AnySock::XSub(_) => return,
        }
    }
}
