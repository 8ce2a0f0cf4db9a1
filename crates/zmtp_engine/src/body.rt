ghost use Rattle.std.specs.Prelude.{◌≡◌, ◌++◌, ◌≤◌, [], length, IfOk, OnOk, OnErr};

use bytes::{Bytes, BytesMut};
use std::alloc::{AllocError, Global};
use std::cmp::max;
use std::marker::Model;
use std::mem::replace;

/// The octets of a block that small bodies share.
const BLOCK: usize = 8192;

/// The most octets of a body that lies in a block with others.
const SMALL: usize = 2048;

/// The octets of a body as far as they came: in a block with others, or in a place of their own.
#[derive(Drop)]
pub(crate) struct Body {
    block: BytesMut,
    own: Option<Vec<u8>>,
}

impl Model for Body {
    ghost use Rattle.std.specs.Prelude.{List, ℕ};
    ghost use Rattle.zmtp_engine.specs.BodyView.{octets_of};

    ghost Value = { List ℕ };

    ghost view = { octets_of };
}

// Makes room for so many octets: a whole block where there is none left.
fn make_room(block: &mut BytesMut, count: usize) -> Result<(), AllocError>
    ensures same { block.new.items ≡ block.old.items }
    ensures room { OnOk result (count ≤ block.new.spare) }
{
    if count <= block.capacity() - block.len() {
        return Ok(());
    }
    block.reserve(max(count, BLOCK))
}

impl Body {
    /// A body of which nothing came.
    pub(crate) fn new(alloc: Global) -> Self
        ensures { result ≡ [] }
    {
        Body {
            block: BytesMut::new(alloc),
            own: None,
        }
    }

    /// The octets.
    pub(crate) fn as_slice(&self) -> &[u8]
        ensures { result.now ≡ self.now }
    {
        match &self.own {
            Some(own) => own.as_slice(),
            None => self.block.as_slice(),
        }
    }

    /// Begins with the next body.
    pub(crate) fn clear(&mut self)
        ensures { self.new ≡ [] }
    {
        self.own = None;
        self.block.clear();
    }

    /// Adds octets. Of a body that begins, room is made for all that are to come, these among them.
    pub(crate) fn add(&mut self, alloc: Global, part: &[u8], left: usize) -> Result<(), AllocError>
        ensures ok { OnOk result (self.new ≡ self.old ++ part.now) }
        ensures err { OnErr result (self.new ≡ self.old) }
    {
        if left > SMALL && self.own.is_none() && self.block.is_empty() {
            self.own = Some(Vec::with_capacity(alloc, left)?);
        }
        match &mut self.own {
            Some(own) => own.extend_from_slice(part),
            None => {
                make_room(&mut self.block, max(left, part.len()))?;
                self.block.extend_reserved(part);
                Ok(())
            }
        }
    }

    /// Takes the octets out, and copies none.
    pub(crate) fn take(&mut self) -> Result<Bytes, AllocError>
        ensures ok { IfOk result (λ b. b ≡ self.old) }
        ensures rest { OnOk result (self.new ≡ []) }
        ensures err { OnErr result (self.new ≡ self.old) }
    {
        let Some(own) = replace(&mut self.own, None) else {
            let count = self.block.len();
            return self.block.freeze_to(count);
        };
        match Bytes::from_vec(own) {
            Ok(whole) => {
                self.block.clear();
                Ok(whole)
            }
            Err(failed) => {
                self.own = Some(failed.value);
                Err(AllocError)
            }
        }
    }
}
