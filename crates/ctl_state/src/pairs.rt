ghost use Rattle.std.specs.Prelude.{◌≡◌, ◌<◌, ◌^◌, ◌++◌, ◌∷◌, [], true, false, length, slice_set, take, IfOk, IfSome, IfNone, OnOk, OnErr};
ghost use Rattle.ctl_state.specs.declared.pair.Spot.TheVariants.{At, Over};
ghost use Rattle.spec_control.specs.EndLife.{new_life};
ghost use Rattle.ctl_state.specs.Pairs.{no_entry, entry_at, owner_at, struck_at, spot_at, with_spot, entry_struck, entry_open, entry_drawn, spot_comes, spot_after, spot_commands};

use crate::pair::{Entry, Spot, owner_in, spot_in, step_in, struck_in};
use pipe_term::End;
use spec_control::{EndCommands, EndEvent};
use std::alloc::{AllocError, Global};
use std::marker::Model;
use zq_base::{EndId, ObjId, PairId};

/// The pairs of a context, by their numbers. No pair has number 0.
#[derive(Drop)]
pub struct Pairs {
    pairs: Vec<Entry>,
}

impl Model for Pairs {
    ghost use Rattle.std.specs.Prelude.{List};
    ghost use Rattle.ctl_state.specs.declared.pair.Entry.{Entry};

    ghost Value = { List Entry };

    ghost view = { λ p. p.pairs.items };
}

impl Pairs {
    /// No pairs: number 0 is nobody's.
    pub fn new(alloc: Global) -> Result<Pairs, AllocError>
        ensures { IfOk result (λ p. p ≡ no_entry ∷ []) }
    {
        let mut pairs = Vec::new(alloc);
        pairs.push(Entry {
            a_owner: ObjId(0),
            b_owner: ObjId(0),
            a: Spot::Over,
            b: Spot::Over,
            a_struck: false,
            b_struck: false,
        })?;
        Ok(Pairs { pairs })
    }

    /// How many numbers were drawn, number 0 among them. This is the next pair's number.
    pub fn len(&self) -> usize
        ensures { result ≡ length self.now }
    {
        self.pairs.len()
    }

    /// Draws a pair's number.
    pub fn draw(&mut self, a_owner: ObjId, b_owner: ObjId) -> Result<PairId, AllocError>
        requires few { length self.old < 2 ^ 32 }
        ensures number { IfOk result (λ p. p.0 ≡ length self.old) }
        ensures ok { OnOk result (self.new ≡ self.old ++ entry_drawn a_owner b_owner ∷ []) }
        ensures err { OnErr result (self.new ≡ self.old) }
    {
        let number = self.pairs.len() as u32;
        self.pairs.push(Entry {
            a_owner,
            b_owner,
            a: Spot::Unmade,
            b: Spot::Unmade,
            a_struck: false,
            b_struck: false,
        })?;
        Ok(PairId(number))
    }

    /// Takes all numbers back but so many.
    pub fn truncate(&mut self, many: usize)
        ensures { self.new ≡ take many self.old }
    {
        self.pairs.truncate(many);
    }

    /// Whose an end is.
    pub fn owner(&self, e: EndId) -> ObjId
        ensures { result ≡ owner_at self.now e }
    {
        match self.pairs.get(e.pair.0 as usize) {
            Some(pair) => return owner_in(pair, e.a),
            None => return ObjId(0),
        }
    }

    /// Where an end is, if there is a pair of its number.
    pub fn spot(&self, e: EndId) -> Option<&Spot>
        ensures some { IfSome result (λ s. s.now ≡ spot_at self.now e) }
        ensures none { IfNone result (spot_at self.now e ≡ Over) }
    {
        match self.pairs.get(e.pair.0 as usize) {
            Some(pair) => return Some(spot_in(pair, e.a)),
            None => return None,
        }
    }

    /// Whether the connect of an end was struck before it was attached.
    pub fn is_struck(&self, e: EndId) -> bool
        ensures { result ≡ struck_at self.now e }
    {
        match self.pairs.get(e.pair.0 as usize) {
            Some(pair) => return struck_in(pair, e.a),
            None => return false,
        }
    }

    /// An event of the table of an end's life.
    pub fn happens(&mut self, e: EndId, event: EndEvent) -> EndCommands
        requires may { spot_comes event (spot_at self.old e) ≡ true }
        ensures next { self.new ≡ with_spot e (spot_after event (spot_at self.old e)) self.old }
        ensures commands { result ≡ spot_commands event (spot_at self.old e) }
    {
        step_in(&mut self.pairs[e.pair.0 as usize], e.a, event)
    }

    /// The pair is made: this end is attached, and the other's bind is on its way.
    pub fn open(&mut self, e: EndId)
        requires drawn { e.pair.0 < length self.old }
        ensures { self.new
            ≡ slice_set self.old e.pair.0 (entry_open e.a (entry_at self.old e.pair.0)) }
    {
        let pair = &mut self.pairs[e.pair.0 as usize];
        if e.a {
            pair.a = Spot::At(End::new());
            pair.b = Spot::Away;
            return;
        }
        pair.b = Spot::At(End::new());
        pair.a = Spot::Away;
    }

    /// An end's bind comes: it is attached.
    pub fn bind(&mut self, e: EndId)
        requires drawn { e.pair.0 < length self.old }
        ensures { self.new ≡ with_spot e (At new_life) self.old }
    {
        let pair = &mut self.pairs[e.pair.0 as usize];
        if e.a {
            pair.a = Spot::At(End::new());
            return;
        }
        pair.b = Spot::At(End::new());
    }

    /// The connect of an end is struck before it is attached.
    pub fn strike(&mut self, e: EndId)
        requires drawn { e.pair.0 < length self.old }
        ensures { self.new
            ≡ slice_set self.old e.pair.0 (entry_struck e.a (entry_at self.old e.pair.0)) }
    {
        let pair = &mut self.pairs[e.pair.0 as usize];
        if e.a {
            pair.a_struck = true;
            return;
        }
        pair.b_struck = true;
    }
}
