use crate::row::EndRow;
use msg_pipe::{Front, Peers, Pipes, PutIn, Taken};
use zq_base::{Message, PairId};

/// The ends of a socket, lent with its pipes for one call.
#[derive(Drop)]
pub struct Ends<'p, 'r, P: Pipes> {
    pub pipes: &'p mut P,
    pub rows: &'r mut Vec<Option<Box<EndRow<P::Out, P::In>>>>,
}

impl<P: Pipes> Peers for Ends<'_, '_, P> {
    ghost use Rattle.std.specs.Prelude.{◌≡◌, false};
    ghost use Rattle.std.proofs.Common.{refl, ◌∙◌};
    ghost use Rattle.end_table.specs.Rows.{table, row_at, IsRow, end_of, can_write_of};
    ghost use Rattle.end_table.specs.Held.{IsHeld};
    ghost use Rattle.end_table.specs.Runs.{DoesAll, seals};
    ghost use Rattle.end_table.specs.RunsOwed.{does_on, seals_on};

    ghost here = { λ s k. IsHeld P.known (table s.pipes.now s.rows.now.items)
        × IsRow s.rows.now.items k };

    ghost end_at = { λ s k. end_of (row_at s.rows.now.items k) };

    ghost writable = { λ s k. can_write_of (row_at s.rows.now.items k) };

    ghost runs = { λ s steps t.
        DoesAll P.known (table s.pipes.now s.rows.now.items) steps (table t.pipes.now t.rows.now.items)
        × (t.pipes.ghost_name ≡ s.pipes.ghost_name) × (t.rows.ghost_name ≡ s.rows.ghost_name)
        × (seals steps ≡ false) };

    ghost runs_none = { λ _. (refl, refl, refl, refl) };

    ghost runs_on = { λ s t u before after first then. (
      does_on P.known _ _ _ before after first.0 then.0,
      then.1 ∙ first.1,
      then.2 ∙ first.2,
      seals_on before after first.3 then.3,
    ) };

    fn pair(&self, place: usize) -> PairId {
        match &self.rows[place] {
            Some(row) => return row.end.pair,
            None => unreachable!(),
        }
    }

    fn can_write(&self, place: usize) -> bool {
        match &self.rows[place] {
            Some(row) => return row.writable,
            None => unreachable!(),
        }
    }

    fn put(&mut self, place: usize, message: Message) -> PutIn {
        match &mut self.rows[place] {
            Some(row) => return self.pipes.put(&mut row.out, message),
            None => unreachable!(),
        }
    }

    fn room(&mut self, place: usize) -> bool {
        match &mut self.rows[place] {
            Some(row) => return self.pipes.room(&mut row.out),
            None => unreachable!(),
        }
    }

    fn take(&mut self, place: usize) -> Taken {
        match &mut self.rows[place] {
            Some(row) => return self.pipes.take(&mut row.input),
            None => unreachable!(),
        }
    }
}

impl<P: Pipes> Ends<'_, '_, P> {
    ghost use Rattle.std.specs.Prelude.{◌≡◌, ◌∷◌, []};
    ghost use Rattle.spec_pattern.specs.PipeStep.{read_through};
    ghost use Rattle.msg_pipe.specs.Told.{front_step};
    ghost use Rattle.end_table.specs.Rows.{table, row_at, IsRow, end_of};
    ghost use Rattle.end_table.specs.Held.{IsHeld};
    ghost use Rattle.end_table.specs.Runs.{DoesAll};

    /// Looks at the front of the pipe that the end at a place reads, and takes nothing.
    pub fn front(&mut self, place: usize) -> Front
        requires held { IsHeld P.known (table self.old.pipes.now self.old.rows.now.items) }
        requires there { IsRow self.old.rows.now.items place }
        ensures runs { DoesAll P.known (table self.old.pipes.now self.old.rows.now.items)
            (front_step (read_through (end_of (row_at self.old.rows.now.items place))) result ∷ [])
            (table self.new.pipes.now self.new.rows.now.items) }
        ensures same_pipes { self.new.pipes.ghost_name ≡ self.old.pipes.ghost_name }
        ensures same_rows { self.new.rows.ghost_name ≡ self.old.rows.ghost_name }
    {
        match &mut self.rows[place] {
            Some(row) => return self.pipes.front(&mut row.input),
            None => unreachable!(),
        }
    }
}
