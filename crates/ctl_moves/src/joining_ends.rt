ghost use Rattle.std.specs.Prelude.{◌≡◌, ◌∷◌, true, false, List, IfOk, OnOk, OnErr};
ghost use Rattle.zq_base.specs.declared.ids.EndId.{EndId};
ghost use Rattle.desk.specs.Holding.{HasNowhere, HearsNone, IsCapacity, KeepsTurns, Stays};
ghost use Rattle.ctl_moves.specs.JoiningEnds.{AttachesFirst};

use desk::{Holder, Made, NamedHalves};
use msg_pipe::Pipes;
use std::alloc::{AllocError, Global};
use zq_base::{Attached, EndId, ObjId, Octets};

/// The names of the pipe that an end writes, and of the one that it reads.
#[derive(Drop)]
pub struct Names<N> {
    pub written: N,
    pub read: N,
}

/// The first end of a pair, once it is attached.
#[derive(Drop)]
pub struct FirstEnd<N, O, I> {
    /// What its kind answered.
    pub answer: Attached,
    /// The names of its pipes, for its owner.
    pub told: Names<N>,
    /// The same names, as those of the pipes that were made.
    pub opened: Names<N>,
    /// The halves of the other end.
    pub other: NamedHalves<N, O, I>,
}

/// The capacities of a pair's pipes: of the one that the first end writes, and of the one that it
/// reads.
#[derive(Clone, Copy, Drop)]
pub struct Capacities {
    pub written: u32,
    pub read: u32,
}

// The names of the pipes that these two halves write.
fn names_of<P: Pipes>(written: &P::Out, read: &P::Out) -> Names<P::Name>
    ensures written { result.written ≡ P.known.out_name written.now }
    ensures read { result.read ≡ P.known.out_name read.now }
{
    Names {
        written: P::name(written),
        read: P::name(read),
    }
}

/// Makes the pipes of a pair and attaches its first end, to whose peer's identity the kind of its
/// owner answers. Want of memory leaves the holder's ends as they were.
pub fn attach_first<P: Pipes, H: Holder<P>>(
    holder: &mut H,
    alloc: Global,
    o: ObjId,
    end: EndId,
    identity: &Octets,
    capacities: Capacities,
    mine: &P::Waker,
    other: &P::Waker,
) -> Result<FirstEnd<P::Name, P::Out, P::In>, AllocError>
    requires here { (H.holding holder.old).holds o.0 ≡ true }
    requires new { HasNowhere end (H.holding holder.old) }
    requires written { IsCapacity capacities.written }
    requires read { IsCapacity capacities.read }
    requires may { H.may_make end capacities.written capacities.read }
    requires calm { (came : List EndId) × H.calm holder.old came }
    ensures ok { IfOk result (λ f. AttachesFirst P.known.out_name P.known.in_name o.0 end
        identity.now f
        (H.holding holder.old) (H.holding holder.new)) }
    ensures err { OnErr result (Stays o.0 (H.holding holder.old) (H.holding holder.new)) }
    ensures keeps { OnErr result (KeepsTurns (H.holding holder.old) (H.holding holder.new)) }
    ensures heard { OnErr result (HearsNone (H.holding holder.old) (H.holding holder.new)) }
    ensures calm { OnOk result ((came : List EndId) →
        H.calm holder.old came → H.calm holder.new (end ∷ came)) }
    ensures still { OnErr result ((came : List EndId) →
        H.calm holder.old came → H.calm holder.new came) }
{
    let Capacities { written, read } = capacities;
    let made = holder.make(alloc, o, end, written, read, mine, other)?;
    let Made { mine, other } = made;
    let told = names_of::<P>(&mine.out, &other.out);
    let opened = names_of::<P>(&mine.out, &other.out);
    let theirs = names_of::<P>(&other.out, &mine.out);
    match holder.attach(alloc, o, end, identity, mine) {
        Ok(answer) => {
            let other = NamedHalves {
                halves: other,
                written: theirs.written,
                read: theirs.read,
            };
            return Ok(FirstEnd {
                answer,
                told,
                opened,
                other,
            });
        }
        Err(_) => return Err(AllocError),
    }
}
