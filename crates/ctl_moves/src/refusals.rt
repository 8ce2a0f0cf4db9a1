ghost use Rattle.std.specs.Prelude.{◌≡◌, Some, None, not, nat_lt};
ghost use Rattle.zq_base.specs.declared.kind.Kind.{Kind};
ghost use Rattle.zq_base.specs.declared.options.Options.{Options};
ghost use Rattle.spec_control.specs.declared.request.Req.TheVariants.{Socket as MakeSocket, Bind, Connect, Unbind, Disconnect};
ghost use Rattle.spec_control.specs.declared.request.Refusal.TheVariants.{TooMany};
ghost use Rattle.spec_control.specs.declared.request.Reply.{Reply};
ghost use Rattle.spec_control.specs.Rows.{obj};
ghost use Rattle.spec_control.specs.Control.{Control};
ghost use Rattle.spec_control.specs.After.{binding_by, kind_of};
ghost use Rattle.spec_control.specs.Reply.{reply_of, connect_reply_at, unless, has_object, has_pairs, has_room, living_sockets, most_living_sockets};
ghost use Rattle.ctl_state.specs.Objects.{RootOwnsSockets};
ghost use Rattle.ctl_state.specs.Stands.{Stands};
ghost use Rattle.ctl_moves.specs.Refusals.{refusal_in, takes_bind};

use crate::stages::root_lives;
use ctl_state::State;
use spec_control::{Binding, ObjKind, Refusal};
use zq_base::{Endpoint, Kind, ObjId};

/// How many sockets may live at once.
const MOST_LIVING_SOCKETS: u64 = 1023;

/// How many objects are ever made, the root among them.
const MOST_OBJECTS: usize = 1_000_000;

/// Below this stay the numbers of pairs, and number 0 is no pair's.
const PAIRS_END: usize = 1_000_002;

// Whether one more object may be made.
fn has_object<L: Drop>(state: &State<L>) -> bool
    ensures { (c : Control) → Stands state.now c → result ≡ has_object c }
{
    state.objects() < MOST_OBJECTS
}

// Whether so many more pairs may be made.
fn has_pairs<L: Drop>(state: &State<L>, more: usize) -> bool
    ensures { (c : Control) → Stands state.now c → result ≡ has_pairs more c }
{
    match state.pairs().checked_add(more) {
        Some(pairs) => return pairs < PAIRS_END,
        None => return false,
    }
}

// Whether one more socket may live.
fn has_socket<L: Drop>(state: &State<L>) -> bool
    requires sockets { RootOwnsSockets state.now.objects }
    ensures { (c : Control) → Stands state.now c →
        result ≡ nat_lt (living_sockets c) most_living_sockets }
{
    state.living_sockets() < MOST_LIVING_SOCKETS
}

/// Why a socket would not be made, if it would not.
pub fn socket_refusal<L: Drop>(state: &State<L>) -> Option<Refusal>
    requires sockets { RootOwnsSockets state.now.objects }
    ensures { (c : Control) → Stands state.now c → (kind : Kind) (options : Options) →
        result ≡ refusal_in (reply_of c (MakeSocket kind options)) }
{
    if !root_lives(state) {
        return Some(Refusal::Term);
    }
    if !has_socket(state) {
        return Some(Refusal::TooMany);
    }
    if !has_object(state) {
        return Some(Refusal::TooMany);
    }
    None
}

// The kind of a socket.
fn kind_in(kind: ObjKind) -> Kind
    ensures { result ≡ kind_of kind }
{
    match kind {
        ObjKind::Socket(kind) => return kind,
        ObjKind::Root | ObjKind::Listener | ObjKind::Session => return Kind::Pair,
    }
}

/// The kind of an object, if it is a socket.
pub(crate) fn kind_of<L: Drop>(state: &State<L>, id: ObjId) -> Kind
    ensures { (c : Control) → Stands state.now c → result ≡ kind_of (obj c.rows id.0).kind }
{
    match state.row(id) {
        Some(row) => return kind_in(row.kind),
        None => return Kind::Pair,
    }
}

/// What a socket is to the names.
pub fn binding_by<L: Drop>(state: &State<L>, socket: ObjId) -> Binding
    ensures { (c : Control) → Stands state.now c → result ≡ binding_by socket.0 c }
{
    Binding {
        holder: socket,
        kind: kind_of(state, socket),
    }
}

// Whether there may be what a bind makes: over inproc a pair for each connect that it fulfils, over
// tcp its listener.
fn takes_bind<L: Drop>(state: &State<L>, socket: ObjId, at: &Endpoint) -> bool
    ensures { (c : Control) → Stands state.now c → result ≡ takes_bind socket.0 at.now c }
{
    match at {
        Endpoint::Inproc(_) => {
            let many = state.count_waiting(at, binding_by(state, socket));
            return has_pairs(state, many);
        }
        Endpoint::Tcp(_) => return has_object(state),
    }
}

/// Why a bind would be refused, if it would be.
pub fn bind_refusal<L: Drop>(state: &State<L>, socket: ObjId, at: &Endpoint) -> Option<Refusal>
    ensures { (c : Control) → Stands state.now c →
        result ≡ refusal_in (reply_of c (Bind socket at.now)) }
{
    if !root_lives(state) {
        return Some(Refusal::Term);
    }
    if state.find(at).is_some() {
        return Some(Refusal::InUse);
    }
    if !takes_bind(state, socket, at) {
        return Some(Refusal::TooMany);
    }
    None
}

// Why a connect to this holder of its name would be refused, if it would be.
fn joins_refusal<L: Drop>(state: &State<L>, socket: ObjId, binding: Binding) -> Option<Refusal>
    ensures { (c : Control) → Stands state.now c →
        result ≡ refusal_in (connect_reply_at socket.0 (Some binding) c) }
{
    if binding.holder == socket {
        return Some(Refusal::BadPair);
    }
    if !binding.kind.fits(kind_of(state, socket)) {
        return Some(Refusal::BadPair);
    }
    if !has_pairs(state, 1) {
        return Some(Refusal::TooMany);
    }
    None
}

// Why a connect to a name would be refused, if it would be: where nobody holds the name it waits.
fn name_refusal<L: Drop>(state: &State<L>, socket: ObjId, at: &Endpoint) -> Option<Refusal>
    ensures { (c : Control) → Stands state.now c →
        result ≡ refusal_in (connect_reply_at socket.0 (c.names.held at.now) c) }
{
    match state.find(at) {
        Some(binding) => return joins_refusal(state, socket, binding),
        None => return None,
    }
}

// Why a connect over tcp would be refused, if it would be.
fn dial_refusal<L: Drop>(state: &State<L>) -> Option<Refusal>
    ensures { (c : Control) → Stands state.now c → (reply : Reply) →
        refusal_in reply ≡ None → result ≡ refusal_in (unless (not (has_room c)) TooMany reply) }
{
    if !state.has_room() {
        return Some(Refusal::TooMany);
    }
    None
}

/// Why a connect would be refused, if it would be.
pub fn connect_refusal<L: Drop>(state: &State<L>, socket: ObjId, at: &Endpoint) -> Option<Refusal>
    ensures { (c : Control) → Stands state.now c →
        result ≡ refusal_in (reply_of c (Connect socket at.now)) }
{
    if !root_lives(state) {
        return Some(Refusal::Term);
    }
    match at {
        Endpoint::Inproc(_) => return name_refusal(state, socket, at),
        Endpoint::Tcp(_) => return dial_refusal(state),
    }
}

/// Why an unbind would be refused, if it would be.
pub fn unbind_refusal<L: Drop>(state: &State<L>, socket: ObjId, at: &Endpoint) -> Option<Refusal>
    ensures { (c : Control) → Stands state.now c →
        result ≡ refusal_in (reply_of c (Unbind socket at.now)) }
{
    if !root_lives(state) {
        return Some(Refusal::Term);
    }
    if !state.has_bind(socket, at) {
        return Some(Refusal::NotBound);
    }
    None
}

/// Why a disconnect would be refused, if it would be.
pub fn disconnect_refusal<L: Drop>(
    state: &State<L>,
    socket: ObjId,
    at: &Endpoint,
) -> Option<Refusal>
    ensures { (c : Control) → Stands state.now c →
        result ≡ refusal_in (reply_of c (Disconnect socket at.now)) }
{
    if !root_lives(state) {
        return Some(Refusal::Term);
    }
    if !state.has_connect(socket, at) {
        return Some(Refusal::NotBound);
    }
    None
}
