ghost use Rattle.std.specs.Prelude.{◌≡◌, ◌∷◌, [], ℕ, List, IfOk, OnOk};
ghost use Rattle.zq_script.specs.Groups.{Groups};
ghost use Rattle.zq_script.specs.Script.{actors_of};
ghost use Rattle.zq_script.specs.declared.statement.Statement.{Statement};
ghost use Rattle.zq_script.specs.declared.statement.Statement.TheVariants.{Actor, Socket, Closed, Other};

use crate::statement::Statement;
use spec_run::{ActorScript, Line, Script};
use std::alloc::{AllocError, Global};
use zq_base::{Octets, Seq};

// The actors of the last statements, backwards, and the lines before the first of these actors,
// backwards too.
#[derive(Drop)]
struct Group {
    actors: Vec<ActorScript>,
    lines: Vec<Line>,
}

impl Group {
    ghost use Rattle.std.specs.Prelude.{◌≡◌, ◌∷◌, [], ℕ, List, OnOk};
    ghost use Rattle.zq_script.specs.Groups.{Groups};
    ghost use Rattle.zq_script.specs.declared.statement.Statement.{Statement};
    ghost use Rattle.zq_script.specs.declared.statement.Statement.TheVariants.{Socket, Closed, Other};

    fn new(alloc: Global) -> Group
        ensures { Groups result [] }
    {
        Group {
            actors: Vec::new(alloc),
            lines: Vec::new(alloc),
        }
    }

    // Puts a line before the others.
    fn put_first(&mut self, line: Line) -> Result<(), AllocError>
        ensures socket { OnOk result ((rest : List Statement) (name : List ℕ)
            → Groups self.old rest → Groups self.new (Socket name line ∷ rest)) }
        ensures closed { OnOk result ((rest : List Statement) (name : List ℕ)
            → Groups self.old rest → Groups self.new (Closed name line ∷ rest)) }
        ensures other { OnOk result ((rest : List Statement)
            → Groups self.old rest → Groups self.new (Other line ∷ rest)) }
    {
        self.lines.push(line)?;
        Ok(())
    }
}

// The lines so far are those of this actor.
fn begin(alloc: Global, group: &mut Group, name: Octets) -> Result<(), AllocError>
    ensures { OnOk result ((rest : List Statement) → Groups group.old rest
        → Groups group.new (Actor name ∷ rest)) }
{
    let mut lines = std::mem::replace(&mut group.lines, Vec::new(alloc));
    lines.reverse();
    let lines = Seq::of_vec(lines);
    group.actors.push(ActorScript { name, lines })?;
    Ok(())
}

// Puts a statement before the others.
fn put(alloc: Global, group: &mut Group, statement: Statement) -> Result<(), AllocError>
    ensures { OnOk result ((rest : List Statement) → Groups group.old rest
        → Groups group.new (statement ∷ rest)) }
{
    match statement {
        Statement::Actor(name) => begin(alloc, group, name),
        Statement::Socket(_, line) => group.put_first(line),
        Statement::Closed(_, line) => group.put_first(line),
        Statement::Other(line) => group.put_first(line),
    }
}

/// The actors of these statements.
pub(crate) fn actors(alloc: Global, mut statements: Vec<Statement>) -> Result<Script, AllocError>
    ensures { IfOk result (λ s. s ≡ actors_of statements.items) }
{
    let mut grouped = Group::new(alloc);
    while let Some(statement) = statements.pop() {
        put(alloc, &mut grouped, statement)?;
    }
    let Group { mut actors, .. } = grouped;
    actors.reverse();
    Ok(Seq::of_vec(actors))
}
