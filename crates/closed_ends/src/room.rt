ghost use Rattle.std.specs.Prelude.{◌<◌, OnOk};
ghost use Rattle.indexmap.specs.IndexMap.{IsUnchanged, spare};

use indexmap::IndexMap;
use std::alloc::AllocError;

/// Room for the place of one closed socket more.
pub fn keep_place(places: &mut IndexMap<u32, usize>) -> Result<(), AllocError>
    ensures kept { IsUnchanged places.old places.new }
    ensures room { OnOk result (0 < spare places.new) }
{
    places.reserve(1)
}
