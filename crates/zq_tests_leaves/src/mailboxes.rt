//! A command that goes back, where memory wants for what it asks.
use crate::checks::check;
use mailbox::Mailbox;
use std::alloc::AllocError;
use std::test::Fail;

// Whether a command that is put back is the first again, and took no further room.
fn takes_back(mailbox: &mut Mailbox<u8>) -> Result<bool, AllocError> {
    mailbox.reserve(4)?;
    mailbox.send(7);
    mailbox.send(8);
    let before = mailbox.front() == Some(&7);
    let Some(first) = mailbox.take_front() else {
        return Ok(false);
    };
    mailbox.send(9);
    mailbox.put_back(first);
    let room = mailbox.len() == 3 && mailbox.spare() == 1;
    let behind = mailbox.front() == Some(&7);
    mailbox.release(1);
    Ok(before && room && behind && mailbox.spare() == 0)
}

#[test]
fn a_command_goes_back_into_its_place(rt: HostRuntime) -> Result<(), Fail> {
    let mut mailbox: Mailbox<u8> = Mailbox::new(rt.alloc());
    let takes = takes_back(&mut mailbox);
    drop(mailbox);
    check(takes?)
}
