ghost use Rattle.core_laws.specs.Laws.{CallsSendNone, ClosedAreApart, ComingJoinStill, HeldPlacesAreApart, OtherPlacesStay, OthersSayTheSame, OthersStayOwned, OwnedAreApart, SendsNoneAtAll, SettledWereRead};
ghost use Rattle.core_laws.specs.Lines.{ClosesAreOn, LinesAreOn, ObjectsStay, OldEndsCame, SendsNoOther};
ghost use Rattle.core_laws.specs.Rest.{EndingsSendNone, NoneIsSent, OthersAgreeStill, OthersAreKept};

use end_table::HeldPipes;
use socket_laws::ends_are_sealed_once;

/// A pipe that no end read that is held no more was not settled.
pub fn pipes_settled_were_read<P: HeldPipes>(_pipes: &P)
    ensures { SettledWereRead P.known }
{}

/// Calls on one socket leave what the moments of the caller of another say of it.
pub fn others_say_the_same<G, N, S>()
    ensures { OthersSayTheSame G N S }
{}

/// The ends that one socket holds are of other pipes than those of another, at each time of its calls.
pub fn held_places_are_apart<P: HeldPipes, G, S>(_pipes: &P)
    ensures { HeldPlacesAreApart P.known G S }
{}

/// The ends of a socket that its caller has open are of other pipes than those of another open socket.
pub fn owned_are_apart<P: HeldPipes, W, T>(_pipes: &P)
    ensures { OwnedAreApart W T P.known }
{}

/// A socket that its caller has open stays so behind calls on another.
pub fn others_stay_owned<P: HeldPipes, W, T>(_pipes: &P)
    ensures { OthersStayOwned W T P.known }
{}

/// Halves on their way to an open socket may join it still, behind calls on another that sent it none.
pub fn coming_join_still<P: HeldPipes, C, W, G, S>(_pipes: &P)
    ensures { ComingJoinStill C W P.known G S }
{}

/// The places of an open socket are of its ends still, behind calls on another.
pub fn other_places_stay<G, N, S, I>()
    ensures { OtherPlacesStay G N S I }
{}

/// Calls of a socket that are no requests make no pipe, and put no end on its way.
pub fn calls_send_none<G, N, S>()
    ensures { CallsSendNone G N S }
{}

/// Where no end was put on its way, none was to any mailbox.
pub fn sends_none_at_all<G, N, S>()
    ensures { SendsNoneAtAll G N S }
{}

/// Calls that attach no end and settle no pipe leave the ends of others apart.
pub fn closed_are_apart<P: HeldPipes>(_pipes: &P)
    ensures { ClosedAreApart P.known }
{}

/// The acts of a lent socket's line are of that socket.
pub fn lines_are_on<P: HeldPipes, W, T>(_pipes: &P)
    ensures { LinesAreOn W T P.known }
{}

/// And so are those of its close.
pub fn closes_are_on<P: HeldPipes, W, T>(_pipes: &P)
    ensures { ClosesAreOn W T P.known }
{}

/// An end on its way whose pair was there before calls of a socket was on its way before them.
pub fn old_ends_came<G, N, S>()
    ensures { OldEndsCame G N S }
{}

/// Calls that made no pair with an open socket sent it nothing.
pub fn sends_no_other<G, N, S>()
    ensures { SendsNoOther G N S }
{}

/// Each object that was made is there still.
pub fn objects_are_there<G, N, S>()
    ensures { ObjectsStay G N S }
{}

/// Each other socket that its caller has open agrees still, behind calls of one.
pub fn others_agree_still<P: HeldPipes, W, T>(_pipes: &P)
    ensures { OthersAgreeStill W T P.known }
{
    ends_are_sealed_once::<P::Name, T>();
}

/// Whatever the calls of a socket were, its actor's others are kept.
pub fn others_are_kept<P: HeldPipes, W, T>(_pipes: &P)
    ensures { OthersAreKept W T P.known }
{
    ends_are_sealed_once::<P::Name, T>();
}

/// Where no end was put on its way, none of a pair made since was.
pub fn none_is_sent<G, N, S>()
    ensures { NoneIsSent G N S }
{}

/// A request that ends what a socket bound or connected, or the socket, puts no end on its way.
pub fn endings_send_none<G, N, S>()
    ensures { EndingsSendNone G N S }
{}
