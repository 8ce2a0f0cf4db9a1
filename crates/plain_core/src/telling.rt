ghost use Rattle.std.specs.Prelude.{◌≡◌};
ghost use Rattle.plain_core.specs.OneLent.{lent_now, lent_was};

use crate::context::OneLent;
use end_table::HeldPipes;
use plain_desk::OneDesk;
use sock_core::OpenSocket;
use spec_pattern::Skip;
use spec_run::{Answer, Call};
use std::snapshot::Snapshot;
use zq_base::{Log, Tells};
use zq_world::PieceMark;

/// A call of a caller that is one item and no step at a pipe.
#[derive(Drop)]
pub(crate) struct OneItem {
    pub(crate) by: usize,
}

impl Tells<PieceMark> for OneItem {
    ghost use Rattle.std.specs.Prelude.{◌≡◌};
    ghost use Rattle.plain_core.specs.Telling.{item_marks};

    ghost tells = { λ x marks. marks ≡ item_marks x.by };
}

/// A lent socket, with its pipes and its desk, as they were at some time.
#[derive(Drop)]
pub(crate) struct Was<P: HeldPipes> {
    pub(crate) pipes: Snapshot<P>,
    pub(crate) desk: Snapshot<OneDesk<P>>,
    pub(crate) socket: Snapshot<OpenSocket<P>>,
    pub(crate) since: Snapshot<Log<(), ()>>,
}

/// They are as they are now.
pub(crate) fn noted<P: HeldPipes>(lent: &OneLent<P>) -> Was<P>
    ensures { lent_was result ≡ lent_now lent.now }
{
    let pipes = Snapshot::of(&lent.pipes);
    let desk = Snapshot::of(&lent.desk);
    let socket = Snapshot::of(&lent.socket.core);
    let since = Snapshot::of(&lent.since);
    Was {
        pipes,
        desk,
        socket,
        since,
    }
}

/// What was done of the calls of a lent socket until there was no memory.
#[derive(Drop)]
pub(crate) struct SomeActs<P: HeldPipes> {
    pub(crate) by: u32,
    pub(crate) from: Was<P>,
    pub(crate) to: Was<P>,
}

impl<P: HeldPipes> Tells<PieceMark> for SomeActs<P> {
    ghost use Rattle.plain_core.specs.OneLent.{lent_was};
    ghost use Rattle.plain_core.specs.Calling.{TellsActs};

    ghost tells = { λ x marks. TellsActs P.known x.by
        (lent_was x.from)
        (lent_was x.to)
        marks };
}

/// The call of a line on a lent socket.
#[derive(Drop)]
pub(crate) struct OneLine<P: HeldPipes> {
    pub(crate) by: u32,
    pub(crate) from: Was<P>,
    pub(crate) to: Was<P>,
    pub(crate) line: Snapshot<Call>,
    pub(crate) answer: Snapshot<Answer>,
    pub(crate) told: Snapshot<Vec<Skip>>,
    pub(crate) told_now: Snapshot<Vec<Skip>>,
}

impl<P: HeldPipes> Tells<PieceMark> for OneLine<P> {
    ghost use Rattle.plain_core.specs.OneLent.{lent_was};
    ghost use Rattle.plain_core.specs.Calling.{TellsLine};

    ghost tells = { λ x marks. TellsLine P.known x.by
        x.line.value x.answer.value x.told.value.items x.told_now.value.items
        (lent_was x.from)
        (lent_was x.to)
        marks };
}

/// The close of a lent socket.
#[derive(Drop)]
pub(crate) struct OneClose<P: HeldPipes> {
    pub(crate) by: u32,
    pub(crate) from: Was<P>,
    pub(crate) to: Was<P>,
}

impl<P: HeldPipes> Tells<PieceMark> for OneClose<P> {
    ghost use Rattle.plain_core.specs.OneLent.{lent_was};
    ghost use Rattle.plain_core.specs.Calling.{TellsClose};

    ghost tells = { λ x marks. TellsClose P.known x.by
        (lent_was x.from)
        (lent_was x.to)
        marks };
}
