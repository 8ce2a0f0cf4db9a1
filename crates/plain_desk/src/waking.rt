use ctl_plane::History;
use msg_pipe::Pipes;
use zq_base::{ObjId, SlotId};

// Whose waker wakes the owner of a mailbox. A socket's is the reaper's from its close on.
fn owner_of<P: Pipes>(history: &History<P>, slot: SlotId) -> u32 {
    let workers = history.workers();
    if slot.0 <= workers {
        return slot.0;
    }
    let socket = ObjId(slot.0 - workers);
    if history.is_reap_coming(socket) || history.is_taken_over(socket) {
        return 0;
    }
    slot.0
}

/// Wakes the owner of each mailbox that the last event put into. Nothing is promised of it.
pub(crate) fn wake_owners<P: Pipes>(history: &History<P>, wakers: &[P::Waker]) {
    'each: for slot in history.mailed() {
        match wakers.get(owner_of(history, *slot) as usize) {
            Some(waker) => P::wake(waker),
            None => {}
        }
    }
}
