ghost use Rattle.std.specs.Prelude.{◌≡◌, ◌+◌, ◌∷◌, [], true, false, Some, IfOk, IfErr, OnOk, OnErr, map};

use crate::given::{Given, Parting};
use crate::halves::Halves;
use crate::made::Made;
use msg_pipe::Pipes;
use spec_control::EndState;
use std::alloc::{AllocError, AllocFailed, Global};
use zq_base::{Address, Attached, EndId, Kind, ObjId, Octets, Options, Settled};

/// The owner of ends, lent to the control plane for one event, with its pipes.
///
/// It has ends of one socket, of all that an I/O worker took in, or of the closed sockets of the
/// reaper. The plane names the object with each end.
pub trait Holder<P: Pipes> {
    ghost use Rattle.desk.specs.Holding.{Holding, IsCapacity, MayRefuse, has_end, written_in};
    ghost use Rattle.desk.specs.Holding.{read_in, Stays, Joined, Left, Yielded, HasGiven};
    ghost use Rattle.desk.specs.Holding.{IsTold, IsPlugged, NoneWrites, held_with, AreCrossed};
    ghost use Rattle.desk.specs.Holding.{held_given, held_optional};
    ghost use Rattle.desk.specs.Holding.{AllSealed, AllTold, AllWriting, AreAtDelimiter, AreGivenAs};
    ghost use Rattle.desk.specs.TakingOver.{AreGivenWith, ComeApart};
    ghost use Rattle.desk.specs.declared.given.Given.{Given};
    ghost use Rattle.desk.specs.Holding.{writes_in};
    ghost use Rattle.zq_base.specs.declared.ids.EndId.{EndId};
    ghost use Rattle.desk.specs.Holding.{KeepsTurns, BeginsActive, Begins, TurnsTo, Seals, AllStated};
    ghost use Rattle.desk.specs.Holding.{HasNowhere, JoinsBy, joining_with};
    ghost use Rattle.desk.specs.Lent.{has_writer};
    ghost use Rattle.spec_control.specs.Place.{At};
    ghost use Rattle.desk.specs.Holding.{joins_optional, states_optional, states_given, writes_optional};
    ghost use Rattle.std.specs.Prelude.{Bool, List, ℕ};
    ghost use Rattle.std.specs.Option.{ForSome};
    ghost use Rattle.desk.specs.declared.halves.Halves.{Halves};
    ghost use Rattle.desk.specs.Counts.{KeepsCounts};
    ghost use Rattle.desk.specs.Holding.{HearsNone, HearsMore};
    ghost use Rattle.desk.specs.declared.notice.Notice.TheVariants.{Plug, Stop, Term, Over};
    ghost use Rattle.zq_base.specs.declared.ids.Settled.{Settled};

    /// What it has.
    ghost holding: { Self → Holding P.Name };

    /// The pipes of its ends.
    ghost pipes: { Self → P };

    /// What joining the half by which an end reads with this writing half of its pipe tells.
    ghost counts: { Self → EndId → P.Out → Settled };

    /// An end may be made whose pipes hold so many messages: the one that it writes, and the one that
    /// it reads.
    ghost may_make: { EndId → ℕ → ℕ → Type 0 };

    /// Halves that may join what it has as this end: their pipes are among its own, nothing was sealed
    /// in them, and none of its ends has a half of one of them.
    ghost fits: { Self → EndId → Halves P.Out P.In → Type 0 };

    /// Whether it takes in listeners and sessions.
    ghost serves: { Bool };

    /// Whether it takes in the ends of closed sockets.
    ghost reaps: { Bool };

    /// Whether it has sockets, whose ends it gives away when they are closed.
    ghost gives: { Bool };

    /// Ends that the closed socket of this number gave and that it may take in: it has room for them,
    /// and their halves are those of its pipes.
    ghost may_take: { Self → ℕ → List (Given P.Name P.Out P.In) → Type 0 };

    /// It is lent for an event in which no end was turned yet, and these joined, the last first.
    ghost calm: { Self → List EndId → Type 0 };

    /// Makes the pipes of a pair for an end of this holder's: it writes the first, of this many
    /// messages, and reads the second.
    fn make(
        &mut self,
        alloc: Global,
        o: ObjId,
        end: EndId,
        written: u32,
        read: u32,
        mine: &P::Waker,
        other: &P::Waker,
    ) -> Result<Made<P::Out, P::In>, AllocError>
        requires here { (holding self.old).holds o.0 ≡ true }
        requires new { has_end end ((holding self.old).ends o.0) ≡ false }
        requires written { IsCapacity written }
        requires read { IsCapacity read }
        requires may { may_make end written read }
        ensures pair { IfOk result (λ m.
            AreCrossed P.known.out_name P.known.in_name m.mine m.other) }
        ensures fits { IfOk result (λ m. fits self.new end m.mine) }
        ensures stays { Stays o.0 (holding self.old) (holding self.new) }
        ensures turns { KeepsTurns (holding self.old) (holding self.new) }
        ensures heard { HearsNone (holding self.old) (holding self.new) }
        ensures calm { (came : List EndId) → calm self.old came → calm self.new came };

    /// An end joins an object, whose kind answers to its peer's identity. It keeps the halves of an
    /// end that its kind refuses too; the end is then no peer. The answer is kept with the end among
    /// those that joined. Want of memory hands the halves back.
    fn attach(
        &mut self,
        alloc: Global,
        o: ObjId,
        end: EndId,
        identity: &Octets,
        halves: Halves<P::Out, P::In>,
    ) -> Result<Attached, AllocFailed<Halves<P::Out, P::In>>>
        requires here { (holding self.old).holds o.0 ≡ true }
        requires new { HasNowhere end (holding self.old) }
        requires fits { fits self.old end halves }
        requires calm { (came : List EndId) × calm self.old came }
        ensures ok { OnOk result (Joined o.0 (held_with P.known.out_name P.known.in_name end halves)
            (holding self.old) (holding self.new)) }
        ensures turns { OnOk result (BeginsActive end (holding self.old) (holding self.new)) }
        ensures joins { IfOk result (λ a. JoinsBy (joining_with P.known.out_name P.known.in_name
            end identity.now halves a ∷ []) (holding self.old) (holding self.new)) }
        ensures refuses { IfOk result (λ a. MayRefuse ((holding self.old).kind o.0) a) }
        ensures err { IfErr result (λ e. (e.value ≡ halves)
            × Stays o.0 (holding self.old) (holding self.new)
            × KeepsTurns (holding self.old) (holding self.new)) }
        ensures heard { HearsNone (holding self.old) (holding self.new) }
        ensures calm { OnOk result ((came : List EndId) →
            calm self.old came → calm self.new (end ∷ came)) }
        ensures still { OnErr result ((came : List EndId) →
            calm self.old came → calm self.new came) };

    /// An end goes to a state of its life.
    fn set_state(&mut self, o: ObjId, end: EndId, state: EndState)
        requires here { has_end end ((holding self.old).ends o.0) ≡ true }
        ensures stays { Stays o.0 (holding self.old) (holding self.new) }
        ensures turns { TurnsTo end state (holding self.old) (holding self.new) }
        ensures counts { KeepsCounts P.known.out_name o.0 end (holding self.old)
            (counts self.old) (counts self.new) }
        ensures heard { HearsNone (holding self.old) (holding self.new) };

    /// The pipe that an end writes gets its delimiter.
    fn seal(&mut self, o: ObjId, end: EndId)
        requires here { has_end end ((holding self.old).ends o.0) ≡ true }
        requires writer { (holding self.old).writes end ≡ true }
        ensures stays { Stays o.0 (holding self.old) (holding self.new) }
        ensures turns { Seals end (holding self.old) (holding self.new) }
        ensures heard { HearsNone (holding self.old) (holding self.new) };

    /// Gives away the writing half of an end that acknowledges; parts that were not committed are
    /// rolled back.
    fn yield_writer(&mut self, o: ObjId, end: EndId) -> P::Out
        requires here { has_end end ((holding self.old).ends o.0) ≡ true }
        requires writer { (holding self.old).writes end ≡ true }
        requires out { has_writer (At ((holding self.old).state end)) ≡ false }
        ensures name { written_in ((holding self.old).ends o.0) end
            ≡ Some (P.known.out_name result) }
        ensures parted { (P.known.writing (pipes self.new) result).parts ≡ [] }
        ensures yielded { Yielded o.0 end (holding self.old) (holding self.new) }
        ensures turns { KeepsTurns (holding self.old) (holding self.new) }
        ensures counts { KeepsCounts P.known.out_name o.0 end (holding self.old)
            (counts self.old) (counts self.new) }
        ensures heard { HearsNone (holding self.old) (holding self.new) };

    /// Joins the two halves of the pipe that an end read, which is gone then. What is left in a
    /// pipe that was read to its delimiter is nothing.
    fn settle(&mut self, o: ObjId, end: EndId, writer: P::Out) -> Settled
        requires yielded { (holding self.old).writes end ≡ false }
        requires pipe { read_in ((holding self.old).ends o.0) end ≡ Some (P.known.out_name writer) }
        requires apart { NoneWrites P.known.exact (P.known.out_name writer) (holding self.old) }
        ensures counts { result ≡ counts self.old end writer }
        ensures sum { result.sent ≡ result.got + result.rest }
        ensures read_out { (holding self.old).at_delimiter end ≡ true → result.rest ≡ 0 }
        ensures gone { Left o.0 end (holding self.old) (holding self.new) }
        ensures turns { KeepsTurns (holding self.old) (holding self.new) }
        ensures heard { HearsNone (holding self.old) (holding self.new) };

    /// Calls of the socket other than close are refused from now on.
    fn stop(&mut self, o: ObjId)
        ensures stays { Stays o.0 (holding self.old) (holding self.new) }
        ensures turns { KeepsTurns (holding self.old) (holding self.new) }
        ensures heard { HearsMore (Stop o ∷ []) (holding self.old) (holding self.new) };

    /// A waker of this holder. Nothing is promised of it.
    fn waker(&self) -> P::Waker;

    /// Takes in a listener, which has no end, or a session with its end or none yet, whose halves fit,
    /// and is told its socket's kind and its options. A session has no output left yet. Want of memory
    /// hands the halves back.
    fn plug(
        &mut self,
        alloc: Global,
        o: ObjId,
        kind: Kind,
        at: &Address,
        options: &Options,
        end: Option<(EndId, Halves<P::Out, P::In>)>,
    ) -> Result<(), AllocFailed<Option<(EndId, Halves<P::Out, P::In>)>>>
        requires serves { serves ≡ true }
        requires new { (holding self.old).holds o.0 ≡ false }
        requires nowhere { ForSome end (λ x. HasNowhere x.0 (holding self.old)) }
        requires fits { ForSome end (λ x. fits self.old x.0 x.1) }
        ensures ok { OnOk result (IsPlugged o.0
            (held_optional P.known.out_name P.known.in_name end)
            (holding self.old) (holding self.new)) }
        ensures turns { OnOk result (Begins (states_optional end)
            (holding self.old) (holding self.new)) }
        ensures joins { OnOk result (JoinsBy
            (joins_optional P.known.out_name P.known.in_name end)
            (holding self.old) (holding self.new)) }
        ensures writing { OnOk result ((e : EndId) → (holding self.new).writes e
            ≡ writes_optional end e ((holding self.old).writes e)) }
        ensures err { IfErr result (λ e. (e.value ≡ end)
            × Stays o.0 (holding self.old) (holding self.new)
            × KeepsTurns (holding self.old) (holding self.new)) }
        ensures left { OnOk result ((holding self.new).output_left o.0 ≡ false) }
        ensures heard { OnOk result (HearsMore (Plug o kind options.now ∷ [])
            (holding self.old) (holding self.new)) }
        ensures unheard { OnErr result (HearsNone (holding self.old) (holding self.new)) };

    /// An object's Term was processed. It is kept.
    fn told(&mut self, o: ObjId)
        ensures told { IsTold o.0 (holding self.old) (holding self.new) }
        ensures holds { (holding self.new).holds o.0 ≡ (holding self.old).holds o.0 }
        ensures heard { HearsMore (Term o ∷ []) (holding self.old) (holding self.new) };

    /// Whether a session has output left to write within its linger.
    fn output_left(&self, o: ObjId) -> bool
        ensures { result ≡ (holding self.now).output_left o.0 };

    /// An object has ended. It may be let go.
    fn over(&mut self, o: ObjId)
        requires none { (holding self.old).ends o.0 ≡ [] }
        ensures told { IsTold o.0 (holding self.old) (holding self.new) }
        ensures heard { HearsMore (Over o ∷ []) (holding self.old) (holding self.new) };

    /// Gives all ends of a socket that is closed.
    fn give_ends(&mut self, o: ObjId) -> Parting<P::Name, P::Out, P::In>
        requires gives { gives ≡ true }
        requires here { (holding self.old).holds o.0 ≡ true }
        ensures all { map (held_given P.known.out_name P.known.in_name) result.ends.items
            ≡ (holding self.old).ends o.0 }
        ensures joined { AreGivenAs P.known.out_name P.known.in_name result.ends.items
            result.joined }
        ensures none { HasGiven o.0 (holding self.old) (holding self.new) }
        ensures told { AllTold (holding self.old).at_delimiter result.ends.items }
        ensures writing { AllWriting (holding self.old).writes result.ends.items }
        ensures states { AllStated (holding self.old).state result.ends.items }
        ensures sealed { AllSealed (holding self.old).sealed result.ends.items }
        ensures turns { KeepsTurns (holding self.old) (holding self.new) }
        ensures given { AreGivenWith P.known (pipes self.new) result.ends.items }
        ensures heard { HearsNone (holding self.old) (holding self.new) }
        ensures calm { calm self.old [] → calm self.new [] };

    /// Takes the ends of a closed socket, where it is a reaper's. They joined their socket before, and
    /// join nothing now. It needs no memory.
    fn take_ends(&mut self, o: ObjId, ends: Vec<Given<P::Name, P::Out, P::In>>)
        requires new { (holding self.old).holds o.0 ≡ false }
        requires may { may_take self.old o.0 ends.items }
        requires apart { ComeApart P.known.exact
            (map (held_given P.known.out_name P.known.in_name) ends.items) (holding self.old) }
        ensures all { reaps ≡ true → IsPlugged o.0
            (map (held_given P.known.out_name P.known.in_name) ends.items)
            (holding self.old) (holding self.new) }
        ensures at { reaps ≡ true → AreAtDelimiter (holding self.new).at_delimiter ends.items }
        ensures turns { reaps ≡ true →
            Begins (states_given ends.items) (holding self.old) (holding self.new) }
        ensures joins { (holding self.new).joined ≡ (holding self.old).joined }
        ensures writing { reaps ≡ true → (e : EndId) → (holding self.new).writes e
            ≡ writes_in ends.items e ((holding self.old).writes e) }
        ensures heard { HearsNone (holding self.old) (holding self.new) };
}

/// A holder that takes attaches back, as a bind does that wants memory.
pub trait Undoes<P: Pipes>: Holder<P> {
    ghost use Rattle.desk.specs.Holding.{BeginsNone, HearsNone, IsLast, Left, TakesBack};
    ghost use Rattle.desk.specs.Holding.{read_in, written_in};
    ghost use Rattle.zq_base.specs.declared.ids.EndId.{EndId};
    ghost use Rattle.std.specs.Prelude.{List};

    /// Undoes the last attach that still stands.
    fn take_back(&mut self, o: ObjId, end: EndId) -> Halves<P::Out, P::In>
        requires last { IsLast end ((Self.holding self.old).ends o.0) }
        requires writer { (Self.holding self.old).writes end ≡ true }
        requires calm { (came : List EndId) × Self.calm self.old (end ∷ came) }
        ensures left { Left o.0 end (Self.holding self.old) (Self.holding self.new) }
        ensures written { written_in ((Self.holding self.old).ends o.0) end
            ≡ Some (P.known.out_name result.out) }
        ensures read { read_in ((Self.holding self.old).ends o.0) end
            ≡ Some (P.known.in_name result.input) }
        ensures turns { BeginsNone (Self.holding self.old) (Self.holding self.new) }
        ensures joins { TakesBack (Self.holding self.old) (Self.holding self.new) }
        ensures heard { HearsNone (Self.holding self.old) (Self.holding self.new) }
        ensures calm { (came : List EndId) → Self.calm self.old (end ∷ came) → Self.calm self.new came };
}
