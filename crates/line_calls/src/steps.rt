ghost use Rattle.std.specs.Prelude.{◌≡◌, ℕ, List, IfOk, OnOk, OnErr};
ghost use Rattle.zq_base.specs.declared.ids.EndId.{EndId};
ghost use Rattle.spec_control.specs.Moments.{Moment};
ghost use Rattle.spec_run.specs.Act.{Act};
ghost use Rattle.spec_run.specs.OpenSocket.{OpenSock};

use crate::found::{Found, Reader};
use msg_pipe::Front;
use spec_control::Req;
use spec_pattern::Skip;
use spec_run::Answer;
use std::alloc::{AllocError, Global};
use zq_base::{Endpoint, Message, ObjId};

/// A socket that its caller has open, with the pipes that it is lent and its caller's desk, by the
/// single steps of a line on it.
///
/// Want of memory leaves the socket as what was done so far left it.
pub trait OpenSteps {
    ghost use Rattle.std.specs.Prelude.{◌<◌, ◌+◌, ◌++◌, [], length};
    ghost use Rattle.spec_pattern.specs.declared.answers.Skip.{Skip};
    ghost use Rattle.zq_base.specs.Message.{max_octets};
    ghost use Rattle.spec_pattern.specs.PatternCalls.{Subscribe, Unsubscribe};
    ghost use Rattle.spec_control.specs.Control.{id};
    ghost use Rattle.spec_run.specs.Act.{moments_in};
    ghost use Rattle.spec_run.specs.OpenSocket.{waiting_ends};
    ghost use Rattle.spec_run.specs.SocketCall.{SendsOpen, ReceivesOpen, ChangesOpen, takes_connect, leave_asked};
    ghost use Rattle.msg_pipe.specs.declared.pipes.Front.TheVariants.{Delimiter};
    ghost use Rattle.line_calls.specs.Reading.{ReadsOnAt, IsNextReader, LeavesReader, ReadingStays};
    ghost use Rattle.line_calls.specs.Steps.{LeadsSome, Takes, LooksAtFront, MeetsEnd, PumpsKind, CallsSo, RequestsSo, IsNamingOf, ClosesOpen};

    /// What a pipe goes by.
    type Name;

    /// What a half of a pipe committed or took.
    type Story;

    /// The socket, as a run tells it.
    ghost as_open: { Self → OpenSock };

    /// What its caller did and saw so far.
    ghost moments: { Self → List (Moment Self.Name Self.Story) };

    /// It is one of the caller's, and with these pipes it is what the caller's moments left.
    ghost agrees: { Self → Type 0 };

    /// It may take what is in its mailbox: each end that is on its way to it may join it.
    ghost may_take: { Self → Type 0 };

    /// These acts lead from the one to the other, and leave the ends of other sockets.
    ghost leads: { Self → List (Act Self.Name Self.Story) → Self → Type 0 };

    /// Its ends that read on to their delimiters, from a place on.
    ghost reading: { Self → ℕ → List EndId };

    /// An end has met its delimiter.
    ghost at_end: { Self → EndId → Type 0 };

    /// Want of memory has left nothing of it to do.
    ghost whole: { Self → Type 0 };

    /// Its number.
    fn number(&self) -> ObjId
        requires agrees { agrees self.now }
        ensures { result ≡ id (as_open self.now).object };

    /// Whether it processed its Stop.
    fn is_stopped(&self) -> bool
        requires agrees { agrees self.now }
        ensures { result ≡ (as_open self.now).stopped };

    /// Whether its kind takes a connect to the endpoint.
    fn takes_connect(&self, to: &Endpoint) -> bool
        requires agrees { agrees self.now }
        ensures { result ≡ takes_connect (as_open self.now).pattern to.now };

    /// Whether the root was asked, as its caller's last moment left it.
    fn finds_asked(&self) -> bool
        requires agrees { agrees self.now }
        requires some { 0 < length (moments self.now) }
        ensures { result ≡ leave_asked (moments self.now) };

    /// The first of its ends that read on, from a place on.
    fn next_reading(&self, place: usize) -> Option<Reader>
        requires agrees { agrees self.now }
        ensures { IsNextReader (reading self.now) place result };

    /// Takes the oldest letter of its mailbox, or finds it empty. Want of memory leaves the letter
    /// where it was.
    fn take(&mut self, alloc: Global) -> Result<Found, AllocError>
        requires agrees { agrees self.old }
        requires whole { whole self.old }
        requires may { may_take self.old }
        ensures ok { IfOk result (λ found. Takes leads as_open found self.old self.new) }
        ensures reader { IfOk result (LeavesReader (reading self.new)) }
        ensures err { OnErr result (LeadsSome leads self.old self.new) }
        ensures whole { whole self.new }
        ensures agrees { agrees self.new }
        ensures may { may_take self.new };

    /// Looks at the front of the pipe that an end reads which reads on, and takes nothing.
    fn look(&mut self, alloc: Global, reader: Reader) -> Front
        requires agrees { agrees self.old }
        requires reads { ReadsOnAt (reading self.old) reader }
        ensures looked { LooksAtFront leads as_open reader.end result self.old self.new }
        ensures met { result ≡ Delimiter → at_end self.new reader.end }
        ensures reading { ReadingStays (reading self.old) (reading self.new) }
        ensures whole { whole self.old → whole self.new }
        ensures agrees { agrees self.new }
        ensures may { may_take self.old → may_take self.new };

    /// Tells that an end which reads on is at its delimiter.
    fn meet(&mut self, alloc: Global, reader: Reader)
        requires agrees { agrees self.old }
        requires whole { whole self.old }
        requires reads { ReadsOnAt (reading self.old) reader }
        requires met { at_end self.old reader.end }
        ensures meets { MeetsEnd leads as_open reader.end self.old self.new }
        ensures behind { reading self.new (reader.place + 1) ≡ reading self.old (reader.place + 1) }
        ensures whole { whole self.new }
        ensures agrees { agrees self.new }
        ensures may { may_take self.old → may_take self.new };

    /// What comes before each call: a publisher hears what its peers subscribe to and cancel, and a
    /// subscriber tells its peers what it wants.
    fn pump_kind(&mut self, alloc: Global) -> Result<(), AllocError>
        requires agrees { agrees self.old }
        ensures ok { OnOk result (PumpsKind leads as_open self.old self.new) }
        ensures err { OnErr result (LeadsSome leads self.old self.new) }
        ensures whole { OnOk result (whole self.old → whole self.new) }
        ensures agrees { agrees self.new };

    /// Sends a message by the rule of its kind (zmq_msg_send(3)).
    fn send(&mut self, alloc: Global, message: &Message) -> Result<Answer, AllocError>
        requires agrees { agrees self.old }
        requires whole { whole self.old }
        ensures ok { IfOk result (λ answer. (told : List Skip) →
            CallsSo leads as_open moments (SendsOpen message.now) answer told told
            self.old self.new) }
        ensures err { OnErr result (LeadsSome leads self.old self.new) }
        ensures whole { OnOk result (whole self.new) }
        ensures agrees { agrees self.new };

    /// Receives by the rule of its kind (zmq_msg_recv(3)); the messages that it drops are told behind
    /// those told before.
    fn recv(&mut self, alloc: Global, told: &mut Vec<Skip>) -> Result<Answer, AllocError>
        requires agrees { agrees self.old }
        requires whole { whole self.old }
        ensures ok { IfOk result (λ answer. CallsSo leads as_open moments ReceivesOpen answer
            told.old.items told.new.items self.old self.new) }
        ensures err { OnErr result (LeadsSome leads self.old self.new) }
        ensures whole { OnOk result (whole self.new) }
        ensures agrees { agrees self.new };

    /// Subscribes once more to a topic (zmq_setsockopt(3), "ZMQ_SUBSCRIBE").
    fn subscribe(&mut self, alloc: Global, topic: &[u8]) -> Result<Answer, AllocError>
        requires agrees { agrees self.old }
        requires whole { whole self.old }
        requires short { length topic.now < max_octets }
        ensures ok { IfOk result (λ answer. (told : List Skip) →
            CallsSo leads as_open moments (ChangesOpen Subscribe topic.now) answer told told
            self.old self.new) }
        ensures err { OnErr result (LeadsSome leads self.old self.new) }
        ensures whole { OnOk result (whole self.new) }
        ensures agrees { agrees self.new };

    /// Cancels one subscription to a topic (zmq_setsockopt(3), "ZMQ_UNSUBSCRIBE").
    fn unsubscribe(&mut self, alloc: Global, topic: &[u8]) -> Result<Answer, AllocError>
        requires agrees { agrees self.old }
        requires whole { whole self.old }
        requires short { length topic.now < max_octets }
        ensures ok { IfOk result (λ answer. (told : List Skip) →
            CallsSo leads as_open moments (ChangesOpen Unsubscribe topic.now) answer told told
            self.old self.new) }
        ensures err { OnErr result (LeadsSome leads self.old self.new) }
        ensures whole { OnOk result (whole self.new) }
        ensures agrees { agrees self.new };

    /// Makes a request of it that binds or connects to a name, or strikes one of these (zmq_bind(3),
    /// zmq_connect(3), zmq_unbind(3), zmq_disconnect(3)). Its kind takes what it connects to.
    fn ask(&mut self, alloc: Global, request: Req) -> Result<Answer, AllocError>
        requires agrees { agrees self.old }
        requires whole { whole self.old }
        requires asks { IsNamingOf (as_open self.old).object request }
        ensures ok { IfOk result (λ answer. (told : List Skip) →
            RequestsSo leads as_open moments request answer told self.old self.new) }
        ensures err { OnErr result (LeadsSome leads self.old self.new) }
        ensures whole { whole self.new }
        ensures agrees { agrees self.new };

    /// Closes it (zmq_close(3)): its ends are on their way to the reaper. Want of memory leaves it
    /// open.
    fn close(&mut self, alloc: Global) -> Result<(), AllocError>
        requires agrees { agrees self.old }
        ensures ok { OnOk result (ClosesOpen leads as_open self.old self.new) }
        ensures err { OnErr result (LeadsSome leads self.old self.new) }
        ensures back { OnErr result (agrees self.new) };

    /// Those of its ends that read on are the ends that await their delimiters, as a run tells them.
    ghost readers: { (s : Self) → agrees s → reading s 0 ≡ waiting_ends (as_open s) };

    /// The items among acts are the moments more.
    ghost led_moments: { (s t : Self) (acts : List (Act Self.Name Self.Story)) → leads s acts t →
        moments t ≡ moments s ++ moments_in acts };

    /// No act leads nowhere.
    ghost led_none: { (s : Self) → leads s [] s };

    /// Acts behind others lead on.
    ghost led_more: { (s t u : Self) (before after : List (Act Self.Name Self.Story)) →
        leads s before t → leads t after u → leads s (before ++ after) u };
}
