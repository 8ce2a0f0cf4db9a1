ghost use Rattle.std.specs.Prelude.{◌≡◌, true};
ghost use Rattle.spec_control.specs.EndLife.{comes, has_met, life_after, commands_at};
ghost use Rattle.spec_control.specs.Control.{met_in};
ghost use Rattle.spec_control.specs.Place.{is_away, is_here};
ghost use Rattle.ctl_state.specs.Pairs.{place_at, reason_at, state_in, FitsAt, spot_comes, spot_after, spot_commands, entry_with, spot_in, owner_in, struck_in};

use pipe_term::End;
use spec_control::{EndCommands, EndEvent, EndState, Reason};
use zq_base::ObjId;

/// Where an end is.
#[derive(Drop)]
pub enum Spot {
    /// Its pair has a number, and is not made yet.
    Unmade,
    /// Its bind is on its way.
    Away,
    At(End),
    /// Nobody's: the pair of this number was over long ago.
    Over,
}

/// A pair: the owners of its ends, where the ends are, and whether their connect was struck before
/// they were attached.
#[derive(Drop)]
pub struct Entry {
    pub a_owner: ObjId,
    pub b_owner: ObjId,
    pub a: Spot,
    pub b: Spot,
    pub a_struck: bool,
    pub b_struck: bool,
}

// An event of the table of an end's life.
fn hear(end: &mut End, event: EndEvent) -> EndCommands
    requires { comes event end.old.state ≡ true }
    ensures next { end.new ≡ life_after event end.old }
    ensures commands { result ≡ commands_at event end.old }
{
    match event {
        EndEvent::Asked(reason, delay) => return end.ask(reason, delay),
        EndEvent::TermCame => return end.on_term(),
        EndEvent::DelimiterSeen => return end.on_delimiter(),
        EndEvent::AckCame => return end.on_ack(),
    }
}

// An event of an end that is there.
fn step(spot: &mut Spot, event: EndEvent) -> EndCommands
    requires { spot_comes event spot.old ≡ true }
    ensures next { spot.new ≡ spot_after event spot.old }
    ensures commands { result ≡ spot_commands event spot.old }
{
    match spot {
        Spot::At(end) => return hear(end, event),
        Spot::Unmade | Spot::Away | Spot::Over => return EndCommands::Nothing,
    }
}

/// Whether an end there is attached and not gone.
pub(crate) fn is_here(spot: &Spot) -> bool
    ensures { result ≡ is_here (place_at spot.now) }
{
    match spot {
        Spot::At(end) => return !end.is_gone(),
        Spot::Unmade | Spot::Away | Spot::Over => return false,
    }
}

/// Whether the bind of an end there is on its way.
pub(crate) fn is_away(spot: &Spot) -> bool
    ensures { result ≡ is_away (place_at spot.now) }
{
    match spot {
        Spot::Away => return true,
        Spot::Unmade | Spot::At(_) | Spot::Over => return false,
    }
}

/// How far an end there is, if it was attached.
pub(crate) fn state_there(spot: &Spot) -> Option<EndState>
    ensures { result ≡ state_in (place_at spot.now) }
{
    match spot {
        Spot::At(end) => return Some(end.state()),
        Spot::Over => return Some(EndState::Gone),
        Spot::Unmade | Spot::Away => return None,
    }
}

/// The reason of an end there fits its state. It costs nothing.
pub(crate) fn fits_there(spot: &Spot)
    ensures { FitsAt (place_at spot.now) (reason_at spot.now) }
{
    match spot {
        Spot::At(end) => {
            let _reason = end.reason();
            return;
        }
        Spot::Unmade | Spot::Away | Spot::Over => return,
    }
}

/// Why an end there was asked, if it was.
pub(crate) fn reason_there(spot: &Spot) -> Option<Reason>
    ensures { result ≡ reason_at spot.now }
{
    match spot {
        Spot::At(end) => return end.reason(),
        Spot::Unmade | Spot::Away | Spot::Over => return None,
    }
}

// Whether an end with this state and reason has met the delimiter of the pipe that it reads.
fn has_met(state: EndState, reason: Option<Reason>) -> bool
    ensures { result ≡ has_met state reason }
{
    match reason {
        Some(_) => return false,
        None => match state {
            EndState::DelimiterGot | EndState::AckSent => return true,
            EndState::Active | EndState::WaitDelimiter | EndState::AskedOnce => return false,
            EndState::AskedTwice | EndState::Gone => return false,
        },
    }
}

/// Whether an end there has met the delimiter of the pipe that it reads, and was asked for no reason.
pub(crate) fn met_there(spot: &Spot) -> bool
    ensures { result ≡ met_in (place_at spot.now) (reason_at spot.now) }
{
    match spot {
        Spot::At(end) => return has_met(end.state(), end.reason()),
        Spot::Unmade | Spot::Away | Spot::Over => return false,
    }
}

/// Where this end of the pair is.
pub(crate) fn spot_in(pair: &Entry, a: bool) -> &Spot
    ensures { result.now ≡ spot_in pair.now a }
{
    if a {
        return &pair.a;
    }
    &pair.b
}

/// Whose this end of the pair is.
pub(crate) fn owner_in(pair: &Entry, a: bool) -> ObjId
    ensures { result ≡ owner_in pair.now a }
{
    if a {
        return pair.a_owner;
    }
    pair.b_owner
}

/// Whether this end was struck.
pub(crate) fn struck_in(pair: &Entry, a: bool) -> bool
    ensures { result ≡ struck_in pair.now a }
{
    if a {
        return pair.a_struck;
    }
    pair.b_struck
}

/// An event of this end of the pair.
pub(crate) fn step_in(pair: &mut Entry, a: bool, event: EndEvent) -> EndCommands
    requires { spot_comes event (spot_in pair.old a) ≡ true }
    ensures next { pair.new ≡ entry_with a (spot_after event (spot_in pair.old a)) pair.old }
    ensures commands { result ≡ spot_commands event (spot_in pair.old a) }
{
    if a {
        return step(&mut pair.a, event);
    }
    step(&mut pair.b, event)
}
