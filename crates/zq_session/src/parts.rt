ghost use Rattle.std.specs.Prelude.{◌≡◌, ◌||◌, true, false, Some, IfOk, OnOk, OnErr};
ghost use Rattle.link_side.specs.declared.behind.Behind.TheVariants.{Nothing};
ghost use Rattle.link_side.specs.Calls.{CountsRead};
ghost use Rattle.link_side.specs.Says.{IsFree};
ghost use Rattle.zq_session.specs.Reading.{IsReading};
ghost use Rattle.zq_session.specs.Doing.{ReadsAtBy, WantsAtBy};
ghost use Rattle.zq_session.specs.Halves.{ReadsThere, WritesThere};
ghost use Rattle.zq_session.specs.Unlinked.{LooksBy};

use crate::life::{Life, ReadMode};
use link_side::{Fetched, Heard, LinkSide};
use msg_pipe::{Front, Pipes};
use std::alloc::{AllocError, Global};
use zq_outer::Link;

/// How the session reads at a link: not at all where what was heard there is refused.
pub(crate) fn reading_at(life: &Life, refused: bool) -> ReadMode
    ensures refused { refused ≡ true → result ≡ ReadMode.Nothing }
    ensures reading { refused ≡ false →
        IsReading life.now.kind life.now.state life.now.told result }
{
    if refused {
        return ReadMode::Nothing;
    }
    life.reading()
}

/// The reading part of a turn.
pub(crate) fn read_at<P: Pipes, L: Link>(
    how: ReadMode,
    alloc: Global,
    side: &mut LinkSide,
    pipes: &mut P,
    out: &mut Option<P::Out>,
    link: &mut L,
) -> Result<Heard, AllocError>
    requires rest { side.old.behind ≡ Nothing }
    requires here { how ≡ ReadMode.Puts → WritesThere P.known pipes.old out.old }
    ensures ok { IfOk result (λ done. ReadsAtBy P.known how side.old.kept done side.new.kept
        (L.heard link.old) (L.heard link.new) pipes.old out.old pipes.new out.new) }
    ensures rest { OnOk result (side.new.behind ≡ Nothing) }
    ensures free { IsFree side.new.behind }
    ensures err { OnErr result ((pipes.new ≡ pipes.old) × (out.new ≡ out.old)
        × WantsAtBy how side.old.kept side.new.kept
        (L.heard link.old) (L.heard link.new)
        (λ got. CountsRead L.faults L.stalls L.ends got link.old link.new)) }
    ensures others { L.said link.new ≡ L.said link.old }
    ensures counts { IfOk result
        (λ done. CountsRead L.faults L.stalls L.ends done.got link.old link.new) }
{
    match how {
        ReadMode::Nothing => return Ok(Heard {
            got: None,
            put: false,
        }),
        ReadMode::Holds => match side.read_only(alloc, link) {
            Ok(got) => return Ok(Heard { got, put: false }),
            Err(_) => return Err(AllocError),
        },
        ReadMode::Drops => {
            side.drop_whole();
            match side.read_only(alloc, link) {
                Ok(got) => return Ok(Heard { got, put: false }),
                Err(_) => return Err(AllocError),
            }
        }
        ReadMode::Puts => match out {
            Some(half) => match side.read_part(alloc, pipes, half, link) {
                Ok(done) => return Ok(done),
                Err(_) => return Err(AllocError),
            },
            None => unreachable!(),
        },
    }
}

/// A look at the front of the pipe that the end reads, where it can be read.
pub(crate) fn look_at<P: Pipes>(
    can_read: bool,
    pipes: &mut P,
    input: &mut Option<P::In>,
) -> Option<Front>
    requires here { can_read ≡ true → ReadsThere P.known pipes.old input.old }
    ensures looks { LooksBy P.known can_read result pipes.old input.old pipes.new input.new }
{
    if !can_read {
        return None;
    }
    match input {
        Some(half) => {
            let found = pipes.front(half);
            return Some(found);
        }
        None => unreachable!(),
    }
}

/// Whether a look found the delimiter.
pub(crate) fn found_delimiter(found: Option<Front>) -> bool
    ensures yes { result ≡ true → found ≡ Some Front.Delimiter }
    ensures no { result ≡ false → found ≡ Some Front.Delimiter → ⊥ }
{
    match found {
        Some(Front::Delimiter) => return true,
        Some(Front::Message) => return false,
        Some(Front::Empty) => return false,
        None => return false,
    }
}

/// Whether a take met the delimiter.
pub(crate) fn met_delimiter(look: Option<Fetched>) -> bool
    ensures yes { result ≡ true → look ≡ Some Fetched.Delimiter }
    ensures no { result ≡ false → look ≡ Some Fetched.Delimiter → ⊥ }
{
    match look {
        Some(Fetched::Delimiter) => return true,
        Some(Fetched::One) => return false,
        Some(Fetched::None) => return false,
        None => return false,
    }
}
