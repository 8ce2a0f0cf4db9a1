ghost use Rattle.std.specs.Prelude.{OnOk, OnErr};
ghost use Rattle.line_socket.specs.Owned.{Agrees, MayTakeEnds};
ghost use Rattle.plain_core.specs.OneLent.{lent_now, lent_for, lent_back};
ghost use Rattle.line_socket.specs.Ready.{IsReady};
ghost use Rattle.plain_core.specs.Calling.{IsTold, TellsActs};
ghost use Rattle.plain_core.specs.Letters.{HasLetter, TellsFetch};

use crate::context::OneLent;
use crate::telling::{SomeActs, Was, noted};
use end_table::HeldPipes;
use line_calls::take_letter;
use sock_core::OpenSocket;
use std::alloc::{AllocError, Global};
use std::mem;
use zq_base::{Log, Tale, Tells};
use zq_world::PieceMark;

/// A letter that was taken for a lent socket.
#[derive(Drop)]
pub(crate) struct OneFetch<P: HeldPipes> {
    pub(crate) by: u32,
    pub(crate) from: Was<P>,
    pub(crate) to: Was<P>,
}

impl<P: HeldPipes> Tells<PieceMark> for OneFetch<P> {
    ghost use Rattle.plain_core.specs.OneLent.{lent_was};
    ghost use Rattle.plain_core.specs.Letters.{TellsFetch};

    ghost tells = { λ x marks. TellsFetch P.known x.by
        (lent_was x.from)
        (lent_was x.to)
        marks };
}

// Takes the oldest letter of the mailbox of the socket that is lent, which has one, and tells it.
fn fetch_told<P>(
    alloc: Global,
    lent: &mut OneLent<P>,
    tale: &mut Tale<PieceMark>,
    caller: u32,
) -> Result<(), AllocError>
where
    P: HeldPipes,
    requires agrees { Agrees P.known (lent_now lent.old) }
    requires may { MayTakeEnds P.known (lent_now lent.old) }
    requires ready { IsReady (lent_now lent.old) }
    requires waits { HasLetter (lent_now lent.old) }
    ensures ok { OnOk result (IsTold (TellsFetch P.known caller (lent_now lent.old)
        (lent_now lent.new)) tale.old.items tale.new.items) }
    ensures err { OnErr result (IsTold (TellsActs P.known caller (lent_now lent.old)
        (lent_now lent.new)) tale.old.items tale.new.items) }
    ensures ready { OnOk result (IsReady (lent_now lent.new)) }
    ensures agrees { Agrees P.known (lent_now lent.new) }
{
    let from = noted(lent);
    match take_letter(alloc, lent) {
        Ok(true) => {
            let what = OneFetch {
                by: caller,
                from,
                to: noted(lent),
            };
            *tale = tale.and(&what);
            return Ok(());
        }
        Ok(false) => {
            lent.desk.is_of_one_order();
            unreachable!()
        }
        Err(want) => {
            let what = SomeActs {
                by: caller,
                from,
                to: noted(lent),
            };
            *tale = tale.and(&what);
            return Err(want);
        }
    }
}

/// Lends a socket to its caller for a letter of its mailbox, which has one, and takes it back.
pub(crate) fn fetch_lent<P>(
    alloc: Global,
    lent: &mut OneLent<P>,
    tale: &mut Tale<PieceMark>,
    caller: u32,
    socket: &mut OpenSocket<P>,
) -> Result<(), AllocError>
where
    P: HeldPipes,
    requires agrees { Agrees P.known (lent_for caller lent.old socket.old) }
    requires may { MayTakeEnds P.known (lent_for caller lent.old socket.old) }
    requires ready { IsReady (lent_for caller lent.old socket.old) }
    requires waits { HasLetter (lent_for caller lent.old socket.old) }
    ensures ok { OnOk result (IsTold (TellsFetch P.known caller
        (lent_for caller lent.old socket.old) (lent_back lent.new socket.new))
        tale.old.items tale.new.items) }
    ensures err { OnErr result (IsTold (TellsActs P.known caller
        (lent_for caller lent.old socket.old) (lent_back lent.new socket.new))
        tale.old.items tale.new.items) }
    ensures ready { OnOk result (IsReady (lent_back lent.new socket.new)) }
    ensures agrees { Agrees P.known (lent_back lent.new socket.new) }
{
    lent.desk.lend(caller);
    lent.since = Log::new();
    mem::swap(&mut lent.socket.core, socket);
    let answer = fetch_told(alloc, lent, tale, caller);
    mem::swap(&mut lent.socket.core, socket);
    answer
}
