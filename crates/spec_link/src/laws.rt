ghost use Rattle.spec_link.specs.Across.{CrossesWhole};
ghost use Rattle.spec_link.specs.Examples.{WorkedLinks};
ghost use Rattle.spec_link.specs.InFlight.{AllIsWritten, CountsAreOne, OneIsInFlight};
ghost use Rattle.spec_link.specs.OneByOne.{AllButOneAreWritten, TakesComeOneByOne};
ghost use Rattle.spec_link.specs.TopicExamples.{UnsaidPuts, WorkedTopics};
ghost use Rattle.spec_link.specs.TopicsFirst.{TopicsComeFirst};

/// Across a link that gives its reader a front of what was written to it, the messages that one
/// side hears, and those that it puts, are a front of those offered at the other, each whole.
pub fn what_is_put_was_taken_across_a_link()
    ensures { CrossesWhole }
{}

/// In whatever order commands and messages stand among each other: the octets said tell how many
/// messages are written, and how many a link that ends there has lost.
pub fn so_many_are_written_and_no_other()
    ensures { CountsAreOne }
{}

/// Where all is said, each message that was taken for a link is written, and none is lost.
pub fn what_is_said_whole_is_written()
    ensures { AllIsWritten }
{}

/// A message that was taken where all was said, and isn't wholly said, is the one that is not
/// written.
pub fn one_message_is_in_flight()
    ensures { OneIsInFlight }
{}

/// At each link of a session the last message was taken where all was said, and nothing is offered
/// since.
pub fn messages_are_taken_one_by_one()
    ensures { TakesComeOneByOne }
{}

/// At such a link all messages that were taken are written but for one that isn't wholly said.
pub fn all_but_one_are_written()
    ensures { AllButOneAreWritten }
{}

/// On a new link of a connecting session of a SUB or XSUB the topics that it took before come first:
/// in order, before any message that it takes; and so its peer hears them.
pub fn topics_come_first()
    ensures { TopicsComeFirst }
{}

/// The worked links are link runs of their parts, with their rows.
pub fn worked_links_run()
    ensures { WorkedLinks }
{}

/// The worked link of a SUB is a link run with its counts, and what isn't to be said is refused.
pub fn worked_topics_are_said()
    ensures worked { WorkedTopics }
    ensures unsaid { UnsaidPuts }
{}
