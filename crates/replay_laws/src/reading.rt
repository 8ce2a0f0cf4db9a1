ghost use Rattle.replay_laws.specs.ReadScripts.{ScriptsMayBeAsked};

/// Each line of a script that is read may be asked: its marks are from 1 to 10000, its identities are
/// ones that peers may say, and its binds and connects are within the context.
pub fn scripts_that_are_read_may_be_asked()
    ensures { ScriptsMayBeAsked }
{}
