ghost use Rattle.std.specs.Prelude.{◌≡◌};
ghost use Rattle.any_sock.specs.Groups.{group_of};

use crate::any_sock::AnySock;

/// The kinds of a socket by their patterns.
pub(crate) enum Group {
    /// PUSH, PULL, and PAIR.
    Pipeline,
    /// DEALER, REQ, REP and ROUTER.
    RequestReply,
    /// PUB, XPUB, SUB and XSUB.
    PublishSubscribe,
}

impl AnySock {
    /// The pattern of its kind.
    pub(crate) fn group(&self) -> Group
        ensures { result ≡ group_of self.now }
    {
        match self {
            AnySock::Push(_) | AnySock::Pull(_) | AnySock::Pair(_) => return Group::Pipeline,
            AnySock::Dealer(_) | AnySock::Req(_) | AnySock::Rep(_) | AnySock::Router(_) => {
                return Group::RequestReply;
            }
            AnySock::Pub(_) | AnySock::XPub(_) | AnySock::Sub(_) | AnySock::XSub(_) => {
                return Group::PublishSubscribe;
            }
        }
    }
}
