ghost use Rattle.std.specs.Prelude.{◌≡◌, ◌≢◌, ◌↔◌, List, ℕ, length, IfOk, IfSome, IfNone, OnOk, OnErr, IsTrue, option_map, ◌++◌};
ghost use Rattle.spec_zmtp.specs.Metadata.{IsShort, counted, encode_login, IsLogin, login};
ghost use Rattle.spec_zmtp.specs.Decoding.{is_counted, decode_login};
ghost use Rattle.zq_base.specs.declared.options.Login.{Login};

use std::alloc::{AllocError, Global};
use zq_base::Octets;

// Octets behind one that counts them, at the end of others.
fn push_counted(out: &mut Vec<u8>, octets: &[u8]) -> Result<(), AllocError>
    requires { IsShort octets.now }
    ensures { OnOk result (out.new.items ≡ out.old.items ++ counted octets.now) }
{
    out.push(octets.len() as u8)?;
    out.extend_from_slice(octets)
}

/// The content of a HELLO.
pub fn write_login(alloc: Global, user: &[u8], pass: &[u8]) -> Result<Octets, AllocError>
    requires user { IsShort user.now }
    requires pass { IsShort pass.now }
    ensures { IfOk result (λ content. content ≡ encode_login (login user.now pass.now)) }
{
    let mut content = Vec::new(alloc);
    push_counted(&mut content, user)?;
    push_counted(&mut content, pass)?;
    Ok(Octets::of_vec(content))
}

/// The content of an ERROR.
pub fn write_reason(alloc: Global, reason: &[u8]) -> Result<Octets, AllocError>
    requires { IsShort reason.now }
    ensures { IfOk result (λ content. content ≡ counted reason.now) }
{
    let mut content = Vec::new(alloc);
    push_counted(&mut content, reason)?;
    Ok(Octets::of_vec(content))
}

/// Whether octets are counted by the one in front of them.
pub fn is_reason(content: &[u8]) -> bool
    ensures { result ≡ is_counted content.now }
{
    match content {
        [] => false,
        [n, octets @ ..] => octets.len() == *n as usize,
    }
}

#[tactic(auto, unfolding(spec_zmtp::specs::Decoding::decode_login))]
// The user and the password of a content.
fn split_login(content: &[u8]) -> Option<(&[u8], &[u8])>
    ensures { option_map (λ l. login l.0.now l.1.now) result ≡ decode_login content.now }
{
    match content {
        [] => None,
        [n, octets @ ..] => {
            let n = *n as usize;
            if octets.len() < n {
                return None;
            }
            let (user, rest) = octets.split_at(n);
            match rest {
                [] => None,
                [m, pass @ ..] => {
                    if pass.len() != *m as usize {
                        return None;
                    }
                    Some((user, pass))
                }
            }
        }
    }
}

/// The user and the password of a HELLO's content.
pub fn read_login(content: &[u8]) -> Option<(&[u8], &[u8])>
    // What is read has this content, and a content that is refused is that of no login.
    ensures some { IfSome result (λ l. content.now ≡ encode_login (login l.0.now l.1.now)) }
    ensures short { IfSome result (λ l. IsLogin (login l.0.now l.1.now)) }
    ensures none { IfNone result ((l : Login) → content.now ≢ encode_login l) }

    // The same as a function of the content.
    ensures value { option_map (λ l. login l.0.now l.1.now) result ≡ decode_login content.now }
{
    split_login(content)
}
