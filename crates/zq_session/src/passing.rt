ghost use Rattle.std.specs.Prelude.{◌≡◌, IsSome, OnOk, OnErr};
ghost use Rattle.zq_base.specs.Message.{Frames};
ghost use Rattle.link_side.specs.declared.behind.Behind.TheVariants.{Unsaid};
ghost use Rattle.link_side.specs.Says.{IsFree};
ghost use Rattle.zq_session.specs.Noting.{PassesOn};

use crate::topics::note;
use link_side::LinkSide;
use spec_link::LinkTopics;
use std::alloc::{AllocError, Global};

/// Notes the message that was taken and isn't offered yet, and offers it. Where memory wants, all
/// is as before.
pub(crate) fn pass_on(
    topics: &mut Option<LinkTopics>,
    alloc: Global,
    side: &mut LinkSide,
) -> Result<(), AllocError>
    ensures ok { OnOk result (PassesOn
        side.old.behind side.old.kept topics.old side.new topics.new) }
    ensures free { OnOk result (IsFree side.new.behind) }
    ensures err { OnErr result ((side.new ≡ side.old) × ((topics.new ≡ topics.old)
        × (IsSome topics.old × ((m : Frames) × (side.old.behind ≡ Unsaid m))))) }
{
    match side.unsaid() {
        None => return Ok(()),
        Some(message) => note(topics, alloc, message)?,
    }
    side.forward();
    Ok(())
}
