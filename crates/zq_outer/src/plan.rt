ghost use Rattle.std.specs.Prelude.{◌≡◌, ◌↔◌, IsTrue};
ghost use Rattle.zq_outer.specs.Plan.{IsListed, cut_of};

use zq_base::{Address, Octets, Seq};

/// A kind of call of a host or of its links.
#[derive(Clone, Copy, Debug, PartialEq, Eq)]
pub enum CallKind {
    Listen,
    Accept,
    Connect,
    Read,
    Write,
}

/// A call of a host or of its links, by its number from 1 among those of its kind.
#[derive(Clone, Copy, Debug, PartialEq, Eq)]
pub struct PlannedCall {
    pub kind: CallKind,
    pub number: u64,
}

/// A link that ends when its connecting end has written so many octets. Connects that gave a link count them, from 1.
#[derive(Clone, Copy, Debug, PartialEq, Eq)]
pub struct Cut {
    pub link: u64,
    pub octets: u64,
}

/// So many reads stall, and then these octets come.
#[derive(Debug, Drop)]
pub struct Piece {
    pub stalls: u64,
    pub octets: Octets,
}

/// What a peer says that is dialled or that dials here. Behind its last piece reads stall.
#[derive(Debug, Drop)]
pub struct MemPeer {
    pub at: Address,
    pub pieces: Seq<Piece>,
}

/// What becomes of the calls of a host in memory. A call that is to fail and to stall fails. A listen doesn't stall.
#[derive(Debug, Drop)]
pub struct Plan {
    pub fails: Seq<PlannedCall>,
    pub stalls: Seq<PlannedCall>,
    pub cuts: Seq<Cut>,
    pub peers: Seq<MemPeer>,
}

/// Whether a call is listed.
pub(crate) fn is_listed(calls: &[PlannedCall], kind: CallKind, number: u64) -> bool
    ensures { IsTrue result ↔ IsListed calls.now kind number }
{
    calls.contains(&PlannedCall { kind, number })
}

/// After how many octets a link is cut.
pub(crate) fn find_cut(cuts: &[Cut], link: u64) -> Option<u64>
    ensures { result ≡ cut_of cuts.now link }
{
    cuts.iter()
        .find(|cut| cut.link == link)
        .map(|cut| cut.octets)
}
