ghost use Rattle.std.specs.Prelude.{◌≡◌, ◌≢◌, ◌↔◌, ◌⊎◌, IsTrue, IsSome, Some, None};
ghost use Rattle.spec_control.specs.EndLife.{new_life, life_after, commands_at, comes, ReasonFits};
ghost use Rattle.spec_control.specs.declared.end.EndState.TheVariants.{Active, WaitDelimiter, AskedOnce, AskedTwice, Gone};
ghost use Rattle.spec_control.specs.declared.end.EndEvent.TheVariants.{Asked, TermCame, DelimiterSeen, AckCame};

use spec_control::{EndCommands, EndState, Reason};
use std::marker::Model;

/// An end of a pair of pipes: how far it is in its life, and why it was asked to end. Each call is one step of a
/// table, in the same time always and without memory.
#[derive(Drop)]
pub struct End {
    state: EndState,
    reason: Option<Reason>,
}

impl Model for End {
    ghost use Rattle.spec_control.specs.EndLife.{Life, ReasonFits};

    ghost Value = { Life };

    ghost view = { λ e. record { state = e.state; reason = e.reason } };

    ghost invariant = { λ e. ReasonFits e.state e.reason };
}

impl End {
    /// An end that was just attached.
    pub fn new() -> End
        ensures { result ≡ new_life }
    {
        End {
            state: EndState::Active,
            reason: None,
        }
    }

    pub fn state(&self) -> EndState
        ensures { result ≡ self.now.state }
    {
        self.state
    }

    /// Why the end was asked to end: the reason of the first ask that had an effect.
    pub fn reason(&self) -> Option<Reason>
        ensures kept { result ≡ self.now.reason }
        ensures fits { ReasonFits self.now.state result }
    {
        self.reason
    }

    /// Whether the end may be read, and so whether its owner looks for the delimiter.
    pub fn can_read(&self) -> bool
        ensures { result ≡ comes DelimiterSeen self.now.state }
    {
        matches!(self.state, EndState::Active | EndState::WaitDelimiter)
    }

    /// Whether the end has settled the pipe that it reads, and has acknowledged.
    pub fn is_gone(&self) -> bool
        ensures { IsTrue result ↔ (self.now.state ≡ Gone) }
    {
        matches!(self.state, EndState::Gone)
    }

    /// Whether the other end's PipeTerm may still come.
    pub fn awaits_term(&self) -> bool
        ensures { result ≡ comes TermCame self.now.state }
    {
        matches!(
            self.state,
            EndState::Active | EndState::DelimiterGot | EndState::AskedOnce
        )
    }

    /// Whether the other end's PipeTermAck may come.
    pub fn awaits_ack(&self) -> bool
        ensures { result ≡ comes AckCame self.now.state }
    {
        matches!(
            self.state,
            EndState::AckSent | EndState::AskedOnce | EndState::AskedTwice
        )
    }

    /// The end is asked to end. With delay it may first read to the delimiter, where the other end was asked
    /// before.
    pub fn ask(&mut self, reason: Reason, delay: bool) -> EndCommands
        requires here { self.old.state ≢ Gone }
        ensures next { self.new ≡ life_after (Asked reason delay) self.old }
        ensures commands { result ≡ commands_at (Asked reason delay) self.old }
    {
        match self.state {
            EndState::Active | EndState::DelimiterGot => {
                self.state = EndState::AskedOnce;
                self.reason = Some(reason);
                EndCommands::TermAndSeal
            }
            EndState::WaitDelimiter if !delay => {
                self.state = EndState::AckSent;
                self.reason = Some(reason);
                EndCommands::Ack
            }
            _ => EndCommands::Nothing,
        }
    }

    /// The other end's PipeTerm comes.
    pub fn on_term(&mut self) -> EndCommands
        requires awaited { IsTrue (comes TermCame self.old.state) }
        ensures next { self.new ≡ life_after TermCame self.old }
        ensures commands { result ≡ commands_at TermCame self.old }
    {
        match self.state {
            EndState::Active => {
                self.state = EndState::WaitDelimiter;
                EndCommands::Nothing
            }
            EndState::DelimiterGot => {
                self.state = EndState::AckSent;
                EndCommands::Ack
            }
            _ => {
                self.state = EndState::AskedTwice;
                EndCommands::Ack
            }
        }
    }

    /// The delimiter is seen at the front of the pipe that the end reads.
    pub fn on_delimiter(&mut self) -> EndCommands
        requires readable { IsTrue (comes DelimiterSeen self.old.state) }
        ensures next { self.new ≡ life_after DelimiterSeen self.old }
        ensures commands { result ≡ commands_at DelimiterSeen self.old }
    {
        match self.state {
            EndState::Active => {
                self.state = EndState::DelimiterGot;
                EndCommands::Nothing
            }
            _ => {
                self.state = EndState::AckSent;
                EndCommands::Ack
            }
        }
    }

    /// The other end's PipeTermAck comes, with its writing half.
    pub fn on_ack(&mut self) -> EndCommands
        requires awaited { IsTrue (comes AckCame self.old.state) }
        ensures next { self.new ≡ life_after AckCame self.old }
        ensures commands { result ≡ commands_at AckCame self.old }
    {
        let commands = match self.state {
            EndState::AskedOnce => EndCommands::SettleAndAck,
            _ => EndCommands::Settle,
        };
        self.state = EndState::Gone;
        commands
    }
}
