ghost use Rattle.std.specs.Prelude.{◌≡◌, Option, MatchOption};
ghost use Rattle.std.specs.Option.{option_map};
ghost use Rattle.zq_base.specs.Message.{Frames};
ghost use Rattle.spec_pattern.specs.TurnList.{End};
ghost use Rattle.spec_pattern.specs.Duty.{Duty};
ghost use Rattle.spec_pattern.specs.Drops.{Given};

use zq_base::{Message, PairId};

/// What a receive gives of the messages that come; the others it drops.
pub trait Sieve {
    ghost use Rattle.spec_pattern.specs.Dropping.{with_duty};

    /// It can take a message.
    ghost ready: { Self → Type 0 };

    /// What it gives of a message of an end, and what is under way then.
    ghost gives: { Self → End → Frames → Option Given };

    /// What is under way once a message of the end was given.
    ghost duty: { Self → End → Duty };

    /// What is given of a message of this pair. One that gives nothing leaves all as it was.
    fn sift(&mut self, pair: PairId, message: Message) -> Option<Message>
        requires { ready self.old }
        ensures gives { (e : End) → e.pair ≡ pair →
            gives self.old e message ≡ option_map (with_duty (duty self.new e)) result }
        ensures kept { MatchOption result (self.new ≡ self.old) (λ _. Unit {0}) };
}
