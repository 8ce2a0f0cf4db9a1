use crate::life::Life;
use crate::tally::Tally;
use link_side::{Dialler, LinkSide};
use spec_link::LinkTopics;
use zq_base::Peer;

/// What a session keeps, aside from the halves of its end.
#[derive(Drop)]
pub(crate) struct Course {
    pub(crate) life: Life,
    /// Its side of a link, while it has one.
    pub(crate) side: Option<LinkSide>,
    /// The topics that it took, of a session that says them again at each link.
    pub(crate) topics: Option<LinkTopics>,
    /// What dials, of a connecting session.
    pub(crate) dialler: Option<Dialler>,
    /// The peer, where its handshake is to be told.
    pub(crate) peer: Option<Peer>,
    /// What it counted.
    pub(crate) tally: Tally,
}
