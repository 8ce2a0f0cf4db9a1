ghost use Rattle.std.specs.Prelude.{◌≡◌, ◌+◌, ◌<◌, ◌≤◌, [], ◌++◌, Some, None, IfOk, IfErr, OnOk, OnErr, MatchOption, take, drop, length, vec_len, vec_capacity};
ghost use Rattle.spec_pattern.specs.Envelope.{split_envelope};

use zq_base::{Frame, Message};

// Splits a message behind its first empty frame, where something stands behind it. The front goes
// into the envelope.
pub(crate) fn split(message: Message, envelope: &mut Vec<Frame>) -> Option<Message>
    requires empty { envelope.old.items ≡ [] }
    requires room { Message.MAX_COMMITTED ≤ vec_capacity envelope.old }
    ensures split { MatchOption result
        ((split_envelope message ≡ None) × (envelope.new ≡ envelope.old))
        (λ rest. split_envelope message ≡ Some (envelope.new.items, rest)) }
{
    let Some(count) = envelope_len(message.frames()) else {
        return None;
    };
    let mut frames = message.into_frames();
    move_front(&mut frames, count, envelope);
    Some(Message::of_frames(frames))
}

// Puts the envelope before a message. Want of memory hands the message back.
pub(crate) fn put_before(envelope: &mut Vec<Frame>, message: Message) -> Result<Message, Message>
    requires fits { length envelope.old.items + length message ≤ Message.MAX }
    ensures ok { IfOk result (λ whole. whole ≡ envelope.old.items ++ message) }
    ensures taken { OnOk result (envelope.new.items ≡ []) }
    ensures back { IfErr result (λ back. back ≡ message) }
    ensures err { OnErr result (envelope.new.items ≡ envelope.old.items) }
{
    let mut frames = message.into_frames();
    let count = frames.len();
    let Ok(()) = frames.append(envelope) else {
        return Err(Message::of_frames(frames));
    };
    frames.rotate_left(count);
    Ok(Message::of_frames(frames))
}

// How many frames stand up to and with the first empty one, where something stands behind it.
fn envelope_len(frames: &[Frame]) -> Option<usize>
    ensures { MatchOption result (split_envelope frames.now ≡ None)
        (λ count. (count < length frames.now)
        × (split_envelope frames.now ≡ Some (take count frames.now, drop count frames.now))) }
{
    'frames: for i in 0..frames.len() {
        if frames[i].len() == 0 {
            if i + 1 < frames.len() {
                return Some(i + 1);
            }
            return None;
        }
    }
    None
}

// Moves so many frames from the front into a list that is empty and has room for them.
fn move_front(frames: &mut Vec<Frame>, count: usize, into: &mut Vec<Frame>)
    requires within { count ≤ vec_len frames.old }
    requires empty { into.old.items ≡ [] }
    requires room { count ≤ vec_capacity into.old }
    ensures moved { into.new.items ≡ take count frames.old.items }
    ensures rest { frames.new.items ≡ drop count frames.old.items }
{
    frames.reverse();
    'moves: for _moved in 0..count {
        match frames.pop() {
            Some(frame) => into.push_reserved(frame),
            None => {}
        }
    }
    frames.reverse();
}
