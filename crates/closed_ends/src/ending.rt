ghost use Rattle.std.specs.Prelude.{◌≡◌, ◌+◌, ◌++◌, ◌∷◌, [], true, false, not, None, Some, is_some};
ghost use Rattle.spec_pattern.specs.Half.{with_delimiter, without_parts};
ghost use Rattle.msg_pipe.specs.Known.{IsThere, KeepsButOut, KeepsButPipe};
ghost use Rattle.desk.specs.TakingOver.{IsGivenWith};
ghost use Rattle.end_table.specs.declared.changes.PipeChange.TheVariants.{Sealed, Parted, Settled as SettledNow};
ghost use Rattle.end_table.specs.Changes.{NotesHalf};
ghost use Rattle.end_table.specs.Counting.{counts_with};
ghost use Rattle.end_table.specs.Looking.{met_after};
ghost use Rattle.closed_ends.specs.Ending.{OneEnd, OneGone, LooksAt, halves_of};
ghost use Rattle.closed_ends.specs.Placing.{place_given};
ghost use Rattle.closed_ends.specs.Once.{ChangesOnce};

use desk::{Given, Halves};
use end_table::PipeChange;
use msg_pipe::{Front, Pipes};
use spec_control::EndState;
use zq_base::{EndId, Log, Settled};

/// An end goes to a state of its life.
pub fn turn<N, O, I>(end: &mut Given<N, O, I>, state: EndState)
    ensures { end.new ≡ record end.old { state = state } }
{
    end.state = state;
}

/// The pipe that an end writes gets its delimiter, once. What was done is noted.
pub fn seal<P: Pipes>(
    pipes: &mut P,
    end: &mut Given<P::Name, P::Out, P::In>,
    did: &mut Log<PipeChange<P::Out, P::In>, P>,
)
    requires given { IsGivenWith P.known pipes.old end.old }
    requires writes { is_some end.old.out ≡ true }
    ensures one { OneEnd P.known pipes.old pipes.new end.old end.new }
    ensures sealed { end.new ≡ record end.old { out = end.new.out; sealed = end.new.sealed } }
    ensures writes { is_some end.new.out ≡ is_some end.old.out }
    ensures changes { ChangesOnce P.known (place_given P.known.in_name end.old)
        ((end.old.end, not end.old.sealed) ∷ []) did.old.items pipes.old did.new.items pipes.new }
{
    let which = end.end;
    if end.sealed {
        let again: PipeChange<P::Out, P::In> = PipeChange::SealedAgain(0, which);
        *did = did.and(&again, pipes);
        return;
    }
    match &mut end.out {
        Some(out) => {
            seal_noted(pipes, out, did, which);
            end.sealed = true;
            return;
        }
        None => unreachable!(),
    }
}

// The pipe of a writing half gets its delimiter, which is noted.
fn seal_noted<P: Pipes>(
    pipes: &mut P,
    out: &mut P::Out,
    did: &mut Log<PipeChange<P::Out, P::In>, P>,
    end: EndId,
)
    requires here { IsThere P.known pipes.old (P.known.out_name out.old) }
    requires unsealed { (P.known.writing pipes.old out.old).sealed ≡ false }
    ensures seals { P.known.writing pipes.new out.new
        ≡ with_delimiter (P.known.writing pipes.old out.old) }
    ensures keeps { KeepsButOut P.known out.old out.new pipes.old pipes.new }
    ensures noted { NotesHalf (λ half. Sealed 0 end half) out.old out.new
        pipes.new did.old.items did.new.items }
{
    let half: Log<P::Out, ()> = Log::new();
    let lent = half.and(out, &());
    pipes.seal(out);
    let sealed = PipeChange::Sealed(0, end, lent.and(out, &()));
    *did = did.and(&sealed, pipes);
}

/// The writing half of an end, which is given away; parts that were not committed are rolled back.
/// What was done is noted.
pub fn yield_out<P: Pipes>(
    pipes: &mut P,
    end: &mut Given<P::Name, P::Out, P::In>,
    did: &mut Log<PipeChange<P::Out, P::In>, P>,
) -> Option<P::Out>
    requires given { IsGivenWith P.known pipes.old end.old }
    ensures one { OneEnd P.known pipes.old pipes.new end.old end.new }
    ensures yielded { end.new ≡ record end.old { out = None } }
    ensures there { is_some result ≡ is_some end.old.out }
    ensures name { (o : P.Out) → result ≡ Some o → P.known.out_name o ≡ end.old.written }
    ensures parted { (o : P.Out) → result ≡ Some o → (P.known.writing pipes.new o).parts ≡ [] }
    ensures counts { (writer : P.Out) → P.known.out_name writer ≡ P.known.in_name end.old.input →
        counts_with P.known pipes.new writer (Some end.old.input)
        ≡ counts_with P.known pipes.old writer (Some end.old.input) }
    ensures changes { is_some end.old.out ≡ true →
        ChangesOnce P.known (place_given P.known.in_name end.old) []
        did.old.items pipes.old did.new.items pipes.new }
{
    let which = end.end;
    match end.out.take() {
        Some(mut out) => {
            forget_noted(pipes, &mut out, did, which);
            return Some(out);
        }
        None => return None,
    }
}

// Parts that were not committed by a writing half are rolled back, which is noted.
fn forget_noted<P: Pipes>(
    pipes: &mut P,
    out: &mut P::Out,
    did: &mut Log<PipeChange<P::Out, P::In>, P>,
    end: EndId,
)
    requires here { IsThere P.known pipes.old (P.known.out_name out.old) }
    ensures forgets { P.known.writing pipes.new out.new
        ≡ without_parts (P.known.writing pipes.old out.old) }
    ensures keeps { KeepsButOut P.known out.old out.new pipes.old pipes.new }
    ensures noted { NotesHalf (λ half. Parted 0 end half) out.old out.new
        pipes.new did.old.items did.new.items }
{
    let half: Log<P::Out, ()> = Log::new();
    let lent = half.and(out, &());
    pipes.rollback(out);
    let parted = PipeChange::Parted(0, end, lent.and(out, &()));
    *did = did.and(&parted, pipes);
}

/// Looks at the front of the pipe that an end reads, and takes nothing. An end that finds the
/// delimiter has met it.
pub fn look<P: Pipes>(pipes: &mut P, end: &mut Given<P::Name, P::Out, P::In>) -> Front
    requires given { IsGivenWith P.known pipes.old end.old }
    ensures one { OneEnd P.known pipes.old pipes.new end.old end.new }
    ensures looked { LooksAt P.known pipes.old pipes.new result end.old end.new }
{
    let found = pipes.front(&mut end.input);
    meet(end, found);
    found
}

// An end that finds the delimiter has met it.
fn meet<N, O, I>(end: &mut Given<N, O, I>, found: Front)
    ensures { end.new ≡ record end.old { met = met_after found end.old.met } }
{
    match found {
        Front::Delimiter => end.met = true,
        Front::Message | Front::Empty => {}
    }
}

/// Joins the reading half of an end with the writing half of its pipe. What is left in a pipe that was
/// read to its delimiter is nothing. What was done is noted.
pub fn settle<P: Pipes>(
    pipes: &mut P,
    end: Given<P::Name, P::Out, P::In>,
    writer: P::Out,
    did: &mut Log<PipeChange<P::Out, P::In>, P>,
) -> Settled
    requires given { IsGivenWith P.known pipes.old end }
    requires pipe { P.known.in_name end.input ≡ P.known.out_name writer }
    ensures gone { OneGone P.known pipes.old pipes.new end }
    ensures counts { result ≡ counts_with P.known pipes.old writer (Some end.input) }
    ensures sum { result.sent ≡ result.got + result.rest }
    ensures read_out { end.met ≡ true → result.rest ≡ 0 }
    ensures noted { did.new.items ≡ did.old.items ++ (SettledNow 0 end.end, pipes.new) ∷ [] }
    ensures keeps { KeepsButPipe P.known (P.known.in_name end.input) pipes.old pipes.new }
{
    let Given {
        end: which,
        written: _,
        out: _,
        input,
        met: _,
        sealed: _,
        state: _,
    } = end;
    let counts = pipes.settle(input, writer);
    let settled: PipeChange<P::Out, P::In> = PipeChange::Settled(0, which);
    *did = did.and(&settled, pipes);
    counts
}

/// The halves of an end that has both.
pub fn halves_of<N: Drop, O, I: Drop>(end: Given<N, O, I>) -> Option<Halves<O, I>>
    ensures { result ≡ halves_of end }
{
    let Given {
        end: _,
        written: _,
        out,
        input,
        met: _,
        sealed: _,
        state: _,
    } = end;
    match out {
        Some(out) => return Some(Halves { out, input }),
        None => return None,
    }
}
