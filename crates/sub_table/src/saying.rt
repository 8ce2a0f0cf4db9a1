ghost use Rattle.std.specs.Prelude.{◌≡◌};
ghost use Rattle.spec_pattern.specs.Publishing.{saying_of};
ghost use Rattle.sub_table.specs.Said.{said, SaysTopic};

use zq_base::Message;

/// What a message says: that a topic is subscribed to, or is cancelled, or something else.
pub enum Saying<'a> {
    Adds(&'a [u8]),
    Cancels(&'a [u8]),
    Other,
}

/// What the message says.
pub fn saying_of(message: &Message) -> Saying<'_>
    ensures value { said result ≡ saying_of message.now }
    ensures short { SaysTopic result }
{
    if message.len() != 1 {
        return Saying::Other;
    }
    let frame = message.frame(0);
    if frame.len() == 0 {
        return Saying::Other;
    }
    let octets = frame.as_slice();
    match octets[0] {
        1 => return Saying::Adds(&octets[1..]),
        0 => return Saying::Cancels(&octets[1..]),
        _ => return Saying::Other,
    }
}
