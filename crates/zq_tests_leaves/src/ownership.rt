ghost use Rattle.std.specs.Prelude.{◌≡◌, ◌∷◌, [], true, OnOk};
ghost use Rattle.zq_tests_leaves.specs.Trees.{root, made, asked};

use crate::checks::check;
use own_tree::{Ending, ObjKind, OwnTree, Row, Use};
use std::alloc::{AllocError, Global};
use std::test::Fail;
use zq_base::{Kind, ObjId, SlotId};

const ROOT: ObjId = ObjId(0);

const SOCKET: ObjId = ObjId(1);

const SESSION: ObjId = ObjId(2);

// Makes a socket and a session of it. Whether they have these numbers.
fn make_both(alloc: Global, tree: &mut OwnTree) -> Result<bool, AllocError>
    requires { tree.old ≡ root ∷ [] }
    ensures { OnOk result (tree.new ≡ made) }
{
    let push = ObjKind::Socket(Kind::Push);
    let socket = tree.make(alloc, ROOT, push, SlotId(1), false)?;
    let session = tree.make(alloc, SOCKET, ObjKind::Session, SlotId(2), true)?;
    Ok((socket, session, tree.len()) == (SOCKET, SESSION, 3))
}

// Whether the socket, which is asked while the Own of its session is in flight, waits for that.
fn waits_for_the_own(tree: &mut OwnTree) -> bool
    requires { tree.old ≡ made }
    ensures { result ≡ true → tree.new ≡ asked }
{
    if tree.try_end(SOCKET) != Ending::NotAsked {
        return false;
    }
    tree.ask(ROOT);
    if tree.try_end(ROOT) != Ending::Owes(1) {
        return false;
    }
    tree.tell(ROOT, SOCKET);
    tree.ask(SOCKET);
    if tree.try_end(SOCKET) != Ending::Behind(1, 0) {
        return false;
    }
    tree.note_child(SOCKET, SESSION);
    tree.try_end(SOCKET) == Ending::Owes(1)
}

// Whether the session, which is told to end and has an end and a Plug to process, ends behind these,
// and the socket waits for its acknowledgement.
fn waits_for_the_session(tree: &mut OwnTree) -> bool
    requires { tree.old ≡ asked }
{
    tree.tell(SOCKET, SESSION);
    tree.owe(SESSION);
    tree.ask(SESSION);
    if tree.try_end(SESSION) != Ending::Behind(1, 0) {
        return false;
    }
    tree.on_plug(SESSION);
    if tree.try_end(SESSION) != Ending::Owes(1) {
        return false;
    }
    tree.on_gone(SESSION);
    if tree.try_end(SESSION) != Ending::Ended {
        return false;
    }
    let living = tree.living_children(SOCKET);
    living == 0 && tree.try_end(SOCKET) == Ending::Owes(1)
}

// Whether the socket waits for both.
fn waits_for_its_session(alloc: Global, tree: &mut OwnTree) -> Result<bool, AllocError>
    requires { tree.old ≡ root ∷ [] }
{
    let numbered = make_both(alloc, tree)?;
    if !waits_for_the_own(tree) {
        return Ok(false);
    }
    Ok(waits_for_the_session(tree) && numbered)
}

#[test]
fn a_socket_waits_for_its_session(rt: HostRuntime) -> Result<(), Fail> {
    let mut tree = OwnTree::new(rt.alloc(), SlotId(0))?;
    let waits = waits_for_its_session(rt.alloc(), &mut tree);
    drop(tree);
    check(waits?)
}

// Whether the objects' children are these, in order of making, and counted.
fn lists_in_order(alloc: Global, tree: &mut OwnTree) -> Result<bool, AllocError>
    requires { tree.old ≡ root ∷ [] }
{
    let pull = ObjKind::Socket(Kind::Pull);
    let first = tree.make(alloc, ROOT, pull, SlotId(1), false)?;
    let listener = tree.make(alloc, first, ObjKind::Listener, SlotId(9), true)?;
    let second = tree.make(alloc, ROOT, pull, SlotId(2), false)?;
    let session = tree.make(alloc, first, ObjKind::Session, SlotId(9), false)?;
    let listed = owns(tree, ROOT, &[first, second]) && owns(tree, first, &[listener, session]);
    let counted = tree.live() == 5 && tree.unnoted_children(first) == 2;
    Ok(listed && counted && owns(tree, session, &[]))
}

// Whether an object owns these.
fn owns(tree: &OwnTree, owner: ObjId, children: &[ObjId]) -> bool {
    tree.children(owner) == children
}

#[test]
fn an_owner_lists_its_children_in_order_of_making(rt: HostRuntime) -> Result<(), Fail> {
    let mut tree = OwnTree::new(rt.alloc(), SlotId(0))?;
    let lists = lists_in_order(rt.alloc(), &mut tree);
    drop(tree);
    check(lists?)
}

// Whether what was sent to an object, with its ends and its asking, is counted so.
fn is_counted(row: Option<Row>) -> bool {
    match row {
        Some(row) => {
            let sent = (row.sent, row.processed, row.binds) == (1, 1, 0);
            let owed = (row.owed, row.ends, row.request) == (1, 1, Use::Used);
            sent && owed && !row.may_be_asked()
        }
        None => false,
    }
}

// Whether a bind and an asking are counted until they come.
fn counts_until_they_come(alloc: Global, tree: &mut OwnTree) -> Result<bool, AllocError>
    requires { tree.old ≡ root ∷ [] }
{
    let socket = tree.make(alloc, ROOT, ObjKind::Socket(Kind::Pair), SlotId(1), false)?;
    tree.on_sent(socket);
    tree.ask_over(socket);
    tree.on_request(socket);
    tree.tell(ROOT, socket);
    tree.ask(socket);
    if tree.try_end(socket) != Ending::Behind(1, 0) {
        return Ok(false);
    }
    tree.on_processed(socket);
    tree.owe(socket);
    tree.add_up();
    Ok(is_counted(tree.row(socket)))
}

#[test]
fn a_bind_and_an_asking_are_counted_until_they_come(rt: HostRuntime) -> Result<(), Fail> {
    let mut tree = OwnTree::new(rt.alloc(), SlotId(0))?;
    let counts = counts_until_they_come(rt.alloc(), &mut tree);
    drop(tree);
    check(counts?)
}
