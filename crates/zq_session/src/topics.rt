ghost use Rattle.std.specs.Prelude.{◌≡◌, ◌⊎◌, IsSome, IfSome, option_map, OnOk, OnErr};
ghost use Rattle.spec_link.specs.Turn.{subscribes};
ghost use Rattle.spec_link.specs.Topics.{with_again};
ghost use Rattle.zq_session.specs.TopicSteps.{noted, over_link, topics_for};

use spec_link::LinkTopics;
use std::alloc::{AllocError, Global};
use zq_base::{Kind, Message};

/// Notes what a message says, where there are topics.
pub fn note(
    topics: &mut Option<LinkTopics>,
    alloc: Global,
    message: &Message,
) -> Result<(), AllocError>
    ensures ok { OnOk result (topics.new ≡ noted message.now topics.old) }
    ensures err { OnErr result ((topics.new ≡ topics.old) × IsSome topics.old) }
{
    match topics {
        None => return Ok(()),
        Some(all) => return all.note(alloc, message),
    }
}

/// Makes the messages that say topics at the next link, where there are topics.
pub fn prepare(topics: &mut Option<LinkTopics>, alloc: Global) -> Result<(), AllocError>
    ensures ok { OnOk result (topics.new ≡ option_map (λ t. with_again t) topics.old) }
    ensures either { (topics.new ≡ topics.old)
        ⊎ (topics.new ≡ option_map (λ t. with_again t) topics.old) }
    ensures ready { OnOk result (IfSome topics.new (λ t. IsSome t.again)) }
    ensures err { OnErr result (topics.new ≡ topics.old) }
{
    match topics {
        None => return Ok(()),
        Some(all) => return all.prepare(alloc),
    }
}

/// A link is over: at the next one all topics are said again.
pub fn say_anew(topics: &mut Option<LinkTopics>)
    ensures { topics.new ≡ over_link topics.old }
{
    match topics {
        None => return,
        Some(all) => {
            all.link_over();
            return;
        }
    }
}

/// The topics of a new connecting session, where it is to say some.
pub fn new_topics(alloc: Global, kind: Kind) -> Option<LinkTopics>
    ensures { result ≡ topics_for (subscribes kind) }
{
    match kind {
        Kind::Sub => return Some(LinkTopics::new(alloc)),
        Kind::XSub => return Some(LinkTopics::new(alloc)),
        _ => return None,
    }
}
