ghost use Rattle.zq_session.specs.Laws.{KeepsALinkRun};

/// The acts at a link whose side is at rest are a run of the link.
pub fn what_is_kept_is_of_a_link_run()
    ensures { KeepsALinkRun }
{}
