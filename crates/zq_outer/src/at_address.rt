ghost use Rattle.std.specs.Prelude.{◌≡◌, ◌<◌, [], IfSome, length};
ghost use Rattle.zq_outer.specs.Mates.{heard_at, said_at};

use crate::mem_link::MemLink;
use crate::plan::MemPeer;
use zq_base::Address;

/// What stands at an address.
pub(crate) trait AtAddress {
    fn at(&self) -> &Address;
}

/// Who listens at an address.
#[derive(Drop)]
pub(crate) struct Listener {
    pub(crate) key: u32,
    pub(crate) at: Address,
}

/// The end of a link that waits for an accept at an address.
#[derive(Drop)]
pub(crate) struct Waiting {
    pub(crate) at: Address,
    pub(crate) link: MemLink,
    ghost unsaid: { (heard_at link ≡ []) × (said_at link ≡ []) },
}

impl AtAddress for MemPeer {
    fn at(&self) -> &Address {
        &self.at
    }
}

impl AtAddress for Listener {
    fn at(&self) -> &Address {
        &self.at
    }
}

impl AtAddress for Waiting {
    fn at(&self) -> &Address {
        &self.at
    }
}

/// The place of the first of these that stands at an address.
pub(crate) fn first_at<T: AtAddress>(rows: &[T], at: &Address) -> Option<usize>
    ensures { IfSome result (λ n. n < length rows.now) }
{
    rows.iter().position(|row| row.at() == at)
}
