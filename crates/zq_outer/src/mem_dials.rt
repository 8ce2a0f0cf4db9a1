ghost use Rattle.std.specs.Prelude.{◌≡◌, ◌<◌, [], None, IfOk, IfSome};
ghost use Rattle.zq_outer.specs.Mates.{heard_at, said_at, cut_at};

use crate::at_address::{Waiting, first_at};
use crate::mem_host::MemHost;
use crate::mem_link::MemLink;
use crate::mem_peer::peer_link;
use crate::plan::MemPeer;
use std::alloc::AllocError;
use std::sync::Arc;
use zq_base::Address;

// Room for so many octets each way of a link.
const ROOM: usize = 65_536;

impl MemHost {
    ghost use Rattle.std.specs.Prelude.{◌≡◌, ◌<◌, [], None, Some, IfOk, IfSome};
    ghost use Rattle.zq_outer.specs.Mates.{heard_at, said_at, cut_at};

    // The link to the first peer left at an address.
    fn link_to_peer(&mut self, at: &Address) -> Result<Option<MemLink>, AllocError>
        ensures unsaid { IfOk result (λ found. IfSome found (λ l. (heard_at l ≡ []) × (said_at l ≡ []) × (cut_at l ≡ None))) }
        ensures others { self.new ≡ self.old }
    {
        let Some(n) = first_at(&self.peers, at) else {
            return Ok(None);
        };
        self.far_ends.reserve(1)?;
        let (near, far) = self.ends_to(&self.peers[n])?;
        self.far_ends.push_reserved(far);
        drop(self.peers.remove(n));
        Ok(Some(near))
    }

    // Both ends of a link to a peer, of which this side's goes by the plan.
    fn ends_to(&self, peer: &MemPeer) -> Result<(MemLink, MemLink), AllocError>
        ensures { IfOk result (λ r. (heard_at r.0 ≡ []) × (said_at r.0 ≡ []) × (cut_at r.0 ≡ None)) }
    {
        let calls = Arc::try_clone(&self.calls)?;
        let pieces = peer.pieces.as_slice();
        let (mut near, far) = peer_link(self.alloc, pieces, ROOM, self.most)?;
        near.follow(calls);
        Ok((near, far))
    }

    // The link to a listener at an address, whose other end waits for an accept.
    fn link_to_listener(&mut self, at: &Address) -> Result<Option<MemLink>, AllocError>
        ensures unsaid { IfOk result (λ found. IfSome found (λ l. (heard_at l ≡ []) × (said_at l ≡ []) × (cut_at l ≡ None))) }
        ensures others { self.new ≡ self.old }
    {
        if first_at(&self.listeners, at).is_none() {
            return Ok(None);
        }
        self.waiting.reserve(1)?;
        let (near, far) = self.planned_pair()?;
        self.waiting.push_reserved(Waiting { at: *at, link: far });
        Ok(Some(near))
    }

    // Both ends of a link of this host, which go by the plan.
    fn planned_pair(&self) -> Result<(MemLink, MemLink), AllocError>
        ensures near { IfOk result (λ r. (heard_at r.0 ≡ []) × (said_at r.0 ≡ []) × (cut_at r.0 ≡ None)) }
        ensures far { IfOk result (λ r. (heard_at r.1 ≡ []) × (said_at r.1 ≡ [])) }
    {
        let near_calls = Arc::try_clone(&self.calls)?;
        let far_calls = Arc::try_clone(&self.calls)?;
        let (mut near, mut far) = MemLink::pair(self.alloc, ROOM, self.most)?;
        near.follow(near_calls);
        far.follow(far_calls);
        Ok((near, far))
    }

    /// The link of a connect: to a peer, or else to a listener.
    pub(crate) fn dialled(&mut self, to: &Address) -> Result<Option<MemLink>, AllocError>
        ensures unsaid { IfOk result (λ found. IfSome found (λ l. (heard_at l ≡ []) × (said_at l ≡ []) × (cut_at l ≡ None))) }
        ensures others { self.new ≡ self.old }
    {
        match self.link_to_peer(to)? {
            Some(link) => Ok(Some(link)),
            None => self.link_to_listener(to),
        }
    }

    /// The end that waits for an accept at an address.
    pub(crate) fn waiting(&mut self, at: &Address) -> Option<MemLink>
        ensures unsaid { IfSome result (λ l. (heard_at l ≡ []) × (said_at l ≡ [])) }
        ensures others { self.new ≡ self.old }
    {
        let n = first_at(&self.waiting, at)?;
        let waiting = self.waiting.remove(n);
        Some(waiting.link)
    }

    /// The link that waits at an address: of a peer, or else of a connect.
    pub(crate) fn next_link(&mut self, at: &Address) -> Result<Option<MemLink>, AllocError>
        ensures unsaid { IfOk result (λ found. IfSome found (λ l. (heard_at l ≡ []) × (said_at l ≡ []))) }
        ensures others { self.new ≡ self.old }
    {
        match self.link_to_peer(at)? {
            Some(link) => Ok(Some(link)),
            None => Ok(self.waiting(at)),
        }
    }
}
