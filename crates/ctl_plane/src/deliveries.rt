ghost use Rattle.std.specs.Prelude.{◌≡◌, ◌<◌, ◌&&◌, ◌==◌, ◌∷◌, [], ℕ, List, Option, true, false, IfOk, IsOk, OnErr};
ghost use Rattle.std.specs.List.{list_any};
ghost use Rattle.zq_base.specs.declared.ids.EndId.{EndId};
ghost use Rattle.spec_control.specs.ControlRun.{is_between};
ghost use Rattle.desk.specs.Counts.{CountsOnce};
ghost use Rattle.desk.specs.Turns.{HasTurned};
ghost use Rattle.ctl_plane.specs.Coming.{ComesWith};
ghost use Rattle.ctl_plane.specs.Past.{control_of, items_of};
ghost use Rattle.spec_control.specs.Names.{name_of};
ghost use Rattle.desk.specs.TakingOver.{AreDistinct, MayTakeFirst};
ghost use Rattle.ctl_moves.specs.Attaching.{binds_end, StaysAll};
ghost use Rattle.spec_control.specs.declared.letter.Letter.{Letter};
ghost use Rattle.ctl_plane.specs.Hearing.{AreApart, AreOfKind, FindsOldest};
ghost use Rattle.ctl_moves.specs.Processing.{AreFree};
ghost use Rattle.ctl_plane.specs.Hearing.{FitBinds, HasPlugged, HasWhat, IsServed};
ghost use Rattle.zq_base.specs.declared.ids.ObjId.{ObjId};
ghost use Rattle.spec_control.specs.declared.letter.Word.TheVariants.{Plug};
ghost use Rattle.desk.specs.Output.{LeavesOnce};

use crate::heard::Heard;
use crate::history::History;
use ctl_moves::process;
use ctl_state::Command;
use desk::Holder;
use msg_pipe::Pipes;
use spec_control::Did;
use std::alloc::{AllocError, Global};
use zq_base::SlotId;

impl<P: Pipes> History<P> {
    /// Processes the oldest command of a mailbox with the holder of the objects that it serves. The
    /// root's mailbox, 0, is the reaper's: its holder takes in the ends of closed sockets, which
    /// nobody has on their way. An I/O worker's holder takes in a listener, or a session with its end,
    /// at its Plug, and has none before. A bind takes memory, in the time of copying an identity, and a
    /// Plug what its holder wants; where that wants, the command stays with all that it brings. No other
    /// command takes any. It costs at the most a walk over what the object has that the command is for,
    /// its ends, its names or its children, and what the holder does.
    pub fn deliver<H: Holder<P>>(
        &mut self,
        alloc: Global,
        slot: SlotId,
        holder: &mut H,
    ) -> Result<Heard, AllocError>
        requires there { slot.0 < (control_of self.old).slots }
        requires held { list_any (λ o. is_between o && o.slot == slot.0)
            (control_of self.old).rows.objects ≡ false }
        requires lent { (i : ℕ) → IsServed (control_of self.old) slot.0 i →
            (H.holding holder.old).holds i ≡ true }
        requires plugged { HasPlugged (control_of self.old) (H.holding holder.old) }
        requires has { HasWhat self.old (H.holding holder.old) }
        requires apart { AreApart P.known.exact self.old slot.0 (H.holding holder.old) }
        requires kinds { AreOfKind (control_of self.old) slot.0 (H.holding holder.old) }
        requires fits { FitBinds P.known.out_name P.known.in_name self.old slot.0
            (λ h. (e : EndId) → H.fits holder.old e h) }
        requires plugs { (to : ObjId) (end : Option EndId) (behind : List Letter) →
            (control_of self.old).boxes slot.0 ≡ record { to = to; word = Plug end } ∷ behind →
            H.serves ≡ true }
        requires reaps { slot.0 ≡ 0 → H.reaps ≡ true }
        requires free { slot.0 ≡ 0 → AreFree (control_of self.old) (H.holding holder.old) }
        requires takes { slot.0 ≡ 0 → MayTakeFirst (H.may_take holder.old)
            (control_of self.old) self.old.given }
        requires distinct { slot.0 ≡ 0 → AreDistinct P.known.exact (name_of (items_of self.old)) }
        requires calm { H.calm holder.old [] }
        ensures ok { IfOk result (λ found.
            FindsOldest P.known.out_name P.known.in_name slot found self.old self.new) }
        ensures succeeds { (letter : Letter) (behind : List Letter) →
            (control_of self.old).boxes slot.0 ≡ letter ∷ behind → binds_end letter.word ≡ false →
            IsOk result }
        ensures empty { (control_of self.old).boxes slot.0 ≡ [] → IsOk result }
        ensures err { OnErr result ((self.new ≡ self.old)
            × StaysAll (H.holding holder.old) (H.holding holder.new)) }
        ensures keeps { HasWhat self.new (H.holding holder.new) }
        ensures turned { HasTurned (control_of self.old) (control_of self.new)
            (H.holding holder.old) (H.holding holder.new) }
        ensures joins { ComesWith self.old self.new (H.holding holder.old) (H.holding holder.new) }
        ensures counts { CountsOnce P.known.out_name (H.counts holder.old)
            self.old.events self.new.events (H.holding holder.old) }
        ensures left { LeavesOnce (control_of self.old)
            self.old.events self.new.events (H.holding holder.old) }
    {
        let Some(command) = self.state.take(slot) else {
            return Ok(Heard::Empty);
        };
        let Command { letter, load } = command;
        match process(&mut self.state, alloc, holder, &letter, load) {
            Ok(answered) => {
                self.events.push(Did::Delivered(slot, letter, answered));
                return Ok(Heard::Done);
            }
            Err(load) => {
                self.state.put_back(slot, Command { letter, load });
                return Err(AllocError);
            }
        }
    }
}
