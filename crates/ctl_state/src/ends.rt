ghost use Rattle.std.specs.Prelude.{◌≡◌, ◌≢◌, ◌<◌, slice_set, true, false};
ghost use Rattle.zq_base.specs.Ends.{other_end};
ghost use Rattle.spec_control.specs.declared.object.ObjState.TheVariants.{Ended as HasEnded};
ghost use Rattle.spec_control.specs.declared.end.EndEvent.TheVariants.{AckCame};
ghost use Rattle.spec_control.specs.Place.{is_away, is_here};
ghost use Rattle.spec_control.specs.PairPhase.{Opens, BindCame};
ghost use Rattle.spec_control.specs.Control.{Control, attach, commands_in, met_in, owner_of, place_of, tell_other};
ghost use Rattle.own_tree.specs.Rows.{state_at};
ghost use Rattle.ctl_state.specs.declared.pair.Spot.TheVariants.{Unmade, Away};
ghost use Rattle.ctl_state.specs.Boxes.{mail_at};
ghost use Rattle.ctl_state.specs.Objects.{tree_row, TakesEnd, TakesBind};
ghost use Rattle.ctl_state.specs.Pairs.{state_in, FitsAt, entry_at, entry_struck, owner_at, spot_after, spot_at, spot_comes, with_spot};
ghost use Rattle.own_tree.specs.Changes.{change, without_end};
ghost use Rattle.ctl_state.specs.Parts.{bound, on_pairs, on_tree, opened, sent_to};
ghost use Rattle.ctl_state.specs.Stands.{Stands, Updates, letter_for, slot_of, stepped, struck_now, tells, told_word};

use crate::pair::{fits_there, is_away, is_here, met_there, reason_there, state_there};
use crate::state::State;
use spec_control::{EndCommands, EndEvent, EndState, Reason, Word};
use zq_base::{EndId, ObjId};

impl<L: Drop> State<L> {
    /// Whose an end is.
    pub fn owner(&self, e: EndId) -> ObjId
        ensures owner { result ≡ owner_at self.now.pairs e }
        ensures stands { (c : Control) → Stands self.now c → owner_of c e ≡ result.0 }
    {
        self.pairs.owner(e)
    }

    /// Whether the bind of an end is on its way.
    pub fn is_away(&self, e: EndId) -> bool
        ensures { (c : Control) → Stands self.now c → result ≡ is_away (place_of c e) }
    {
        match self.pairs.spot(e) {
            Some(spot) => return is_away(spot),
            None => return false,
        }
    }

    /// Whether an end is attached and not gone.
    pub fn is_here(&self, e: EndId) -> bool
        ensures { (c : Control) → Stands self.now c → result ≡ is_here (place_of c e) }
    {
        match self.pairs.spot(e) {
            Some(spot) => return is_here(spot),
            None => return false,
        }
    }

    /// How far an end is in its life, if it was attached.
    pub fn end_state(&self, e: EndId) -> Option<EndState>
        ensures { (c : Control) → Stands self.now c → result ≡ state_in (place_of c e) }
    {
        match self.pairs.spot(e) {
            Some(spot) => return state_there(spot),
            None => return Some(EndState::Gone),
        }
    }

    /// Why an end was asked, if it was.
    pub fn reason(&self, e: EndId) -> Option<Reason>
        ensures { (c : Control) → Stands self.now c → result ≡ c.reasons e }
    {
        match self.pairs.spot(e) {
            Some(spot) => return reason_there(spot),
            None => return None,
        }
    }

    /// The reason of an end fits how far it is in its life. It costs nothing.
    pub fn reason_fits(&self, e: EndId)
        ensures { (c : Control) → Stands self.now c → FitsAt (place_of c e) (c.reasons e) }
    {
        match self.pairs.spot(e) {
            Some(spot) => {
                fits_there(spot);
                return;
            }
            None => return,
        }
    }

    /// Whether an end has met the delimiter of the pipe that it reads, and was asked for no reason.
    pub fn has_met(&self, e: EndId) -> bool
        ensures { (c : Control) → Stands self.now c → result ≡ met_in (place_of c e) (c.reasons e) }
    {
        match self.pairs.spot(e) {
            Some(spot) => return met_there(spot),
            None => return false,
        }
    }

    /// Whether the connect of an end was struck.
    pub fn is_struck(&self, e: EndId) -> bool
        ensures { (c : Control) → Stands self.now c → result ≡ c.struck e }
    {
        self.pairs.is_struck(e)
    }

    /// An event of an end, but the other end's acknowledgement. What is to be done is the answer.
    pub fn step_end(&mut self, e: EndId, event: EndEvent) -> EndCommands
        requires may { spot_comes event (spot_at self.old.pairs e) ≡ true }
        requires stays { event ≢ AckCame }
        ensures stands { Updates (stepped event e) self.old self.new }
        ensures commands { (c : Control) → Stands self.old c →
            result ≡ commands_in event (place_of c e) }
        ensures next { self.new
            ≡ on_pairs (with_spot e (spot_after event (spot_at self.old.pairs e))) self.old }
    {
        self.pairs.happens(e, event)
    }

    /// The other end's acknowledgement comes, and the end is gone.
    pub fn end_goes(&mut self, e: EndId) -> EndCommands
        requires may { spot_comes AckCame (spot_at self.old.pairs e) ≡ true }
        requires unended { state_at self.old.objects.tree (owner_at self.old.pairs e) ≢ HasEnded }
        requires attached { 0 < (tree_row self.old.objects (owner_at self.old.pairs e).0).ends }
        ensures stands { Updates (stepped AckCame e) self.old self.new }
        ensures commands { (c : Control) → Stands self.old c →
            result ≡ commands_in AckCame (place_of c e) }
        ensures next { self.new ≡ on_pairs (with_spot e (spot_after AckCame (spot_at self.old.pairs e)))
            (on_tree (change without_end (owner_at self.old.pairs e)) self.old) }
    {
        let owner = self.pairs.owner(e);
        self.objects.end_goes(owner);
        self.pairs.happens(e, EndEvent::AckCame)
    }

    /// An end tells the other end what its event wants told.
    pub fn tell_other(&mut self, commands: EndCommands, e: EndId, load: Option<L>)
        requires room { tells commands ≡ true →
            0 < (mail_at self.old.boxes
            (slot_of self.old (owner_at self.old.pairs (other_end e)).0)).spare }
        ensures stands { Updates (tell_other commands e) self.old self.new }
        ensures told { tells commands ≡ true → self.new
            ≡ sent_to (slot_of self.old (owner_at self.old.pairs (other_end e)).0)
            (letter_for (owner_at self.old.pairs (other_end e))
            (told_word commands (other_end e)) load) self.old }
        ensures kept { tells commands ≡ false → self.new ≡ self.old }
    {
        let other = e.other();
        let owner = self.pairs.owner(other);
        match commands {
            EndCommands::Nothing | EndCommands::Settle => return,
            EndCommands::TermAndSeal => {
                self.put(owner, Word::PipeTerm(other), load);
                return;
            }
            EndCommands::Ack | EndCommands::SettleAndAck => {
                self.put(owner, Word::PipeTermAck(other), load);
                return;
            }
        }
    }

    /// A pair is made: this end is attached, and the other's bind is to be put.
    pub fn open(&mut self, e: EndId)
        requires unmade { spot_at self.old.pairs e ≡ Unmade }
        requires other_unmade { spot_at self.old.pairs (other_end e) ≡ Unmade }
        requires takes_end { TakesEnd self.old.objects (owner_at self.old.pairs e) }
        requires takes_bind { TakesBind self.old.objects (owner_at self.old.pairs (other_end e)) }
        ensures stands { Updates (attach Opens e) self.old self.new }
        ensures next { self.new ≡ opened e self.old }
    {
        let owner = self.pairs.owner(e);
        let other = self.pairs.owner(e.other());
        self.objects.end_comes(owner, e);
        self.objects.bind_put(other);
        self.pairs.open(e);
    }

    /// An end's bind comes, and the end is attached.
    pub fn bind(&mut self, e: EndId)
        requires away { spot_at self.old.pairs e ≡ Away }
        requires takes_end { TakesEnd self.old.objects (owner_at self.old.pairs e) }
        requires coming { 0 < (tree_row self.old.objects (owner_at self.old.pairs e).0).binds }
        ensures stands { Updates (attach BindCame e) self.old self.new }
        ensures next { self.new ≡ bound e self.old }
    {
        let owner = self.pairs.owner(e);
        self.objects.bind_comes(owner);
        self.objects.end_comes(owner, e);
        self.pairs.bind(e);
    }

    /// The connect of an end is struck before the end is attached.
    pub fn strike(&mut self, e: EndId)
        requires away { spot_at self.old.pairs e ≡ Away }
        ensures stands { Updates (struck_now e) self.old self.new }
        ensures next { self.new ≡ on_pairs
            (λ es. slice_set es e.pair.0 (entry_struck e.a (entry_at es e.pair.0))) self.old }
    {
        self.pairs.strike(e);
    }
}
