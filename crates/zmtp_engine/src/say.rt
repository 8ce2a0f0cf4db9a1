ghost use Rattle.std.specs.Prelude.{◌≡◌, ◌++◌, ◌∷◌, [], ◌≤◌, IfSome};
ghost use Rattle.std.specs.Option.{option_to_list};
ghost use Rattle.spec_zmtp.specs.Put.{encode_commands};
ghost use Rattle.zmtp_mech.specs.Mechanism.{IsSayable};

use bytes::BytesMut;
use spec_zmtp::{Command, FrameKind};
use zmtp_frame::encode_head;

/// Adds the frame of a command, in room that was kept.
pub(crate) fn say(said: &mut BytesMut, command: &Command)
    requires sayable { IsSayable command.now }
    requires room { 1024 ≤ said.old.spare }
    ensures { said.new.items ≡ said.old.items ++ encode_commands (command.now ∷ []) }
{
    let name = command.name.as_slice();
    let content = command.content.as_slice();
    let head = encode_head(FrameKind::Command, (1 + name.len() + content.len()) as u64);
    said.extend_reserved(head.as_slice());
    said.extend_reserved(&[name.len() as u8]);
    said.extend_reserved(name);
    said.extend_reserved(content);
}

/// Adds the frame of a command, if there is one, in room that was kept.
pub(crate) fn say_if(said: &mut BytesMut, command: &Option<Command>)
    requires sayable { IfSome command.now (λ c. IsSayable c) }
    requires room { 1024 ≤ said.old.spare }
    ensures { said.new.items ≡ said.old.items ++ encode_commands (option_to_list command.now) }
{
    match command {
        Some(c) => say(said, c),
        None => {}
    }
}
