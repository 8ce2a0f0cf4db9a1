ghost use Rattle.std.specs.Prelude.{◌≡◌, ◌↔◌, ◌==◌, ◌≤◌, ℕ, if◌then◌else◌, IfOk, IfErr, IsTrue};
ghost use Rattle.std.specs.IoError.{error_kind};
ghost use Rattle.zq_outer.specs.Link.{IsHeard, IsSaid};
ghost use Rattle.zq_net.specs.Answer.{IsDrained, IsForNow, IsGone};

use std::io;
use std::io::ErrorKind;
use zq_outer::{LinkGot, LinkPut};

/// What an error means to a link.
#[derive(Clone, Copy)]
pub(crate) enum Trouble {
    NotReady,
    Ended,
    Failed,
}

/// Whether the socket has nothing to give and no room to take.
pub(crate) fn is_drained<T>(answer: &io::Result<T>) -> bool
    ensures ok { IfOk answer.now (λ _. IsTrue result → ⊥) }
    ensures err { IfErr answer.now (λ e. IsTrue result ↔ IsDrained (error_kind e)) }
{
    match answer {
        Ok(_) => false,
        Err(error) => error.kind() == ErrorKind::WouldBlock,
    }
}

/// What an error means to a link.
pub(crate) fn meaning(error: ErrorKind) -> Trouble
    ensures not_ready { (result ≡ Trouble.NotReady) ↔ IsForNow error }
    ensures ended { (result ≡ Trouble.Ended) ↔ IsGone error }
{
    match error {
        ErrorKind::WouldBlock | ErrorKind::Interrupted => Trouble::NotReady,
        ErrorKind::ConnectionReset | ErrorKind::ConnectionAborted | ErrorKind::BrokenPipe => {
            Trouble::Ended
        }
        _ => Trouble::Failed,
    }
}

/// The answer of a read: no octets are the end.
pub(crate) fn read_answer(got: &io::Result<usize>) -> LinkGot
    ensures counted { (room : ℕ) → IfOk got.now (λ n. n ≤ room) → IsHeard result room }
    ensures bytes { IfOk got.now (λ n. result ≡ (if n == 0 then LinkGot.Ended else LinkGot.Bytes n)) }
    ensures not_ready { IfErr got.now (λ e. (result ≡ LinkGot.NotReady) ↔ IsForNow (error_kind e)) }
    ensures ended { IfErr got.now (λ e. (result ≡ LinkGot.Ended) ↔ IsGone (error_kind e)) }
{
    match got {
        Ok(0) => LinkGot::Ended,
        Ok(count) => LinkGot::Bytes(*count),
        Err(error) => match meaning(error.kind()) {
            Trouble::NotReady => LinkGot::NotReady,
            Trouble::Ended => LinkGot::Ended,
            Trouble::Failed => LinkGot::Failed,
        },
    }
}

/// The answer of a write: no octets taken of some are a fault.
pub(crate) fn write_answer(put: &io::Result<usize>) -> LinkPut
    ensures counted { (len : ℕ) → IfOk put.now (λ n. n ≤ len) → IsSaid result len }
    ensures took { IfOk put.now (λ n. result ≡ (if n == 0 then LinkPut.Failed else LinkPut.Took n)) }
    ensures not_ready { IfErr put.now (λ e. (result ≡ LinkPut.NotReady) ↔ IsForNow (error_kind e)) }
    ensures ended { IfErr put.now (λ e. (result ≡ LinkPut.Ended) ↔ IsGone (error_kind e)) }
{
    match put {
        Ok(0) => LinkPut::Failed,
        Ok(count) => LinkPut::Took(*count),
        Err(error) => match meaning(error.kind()) {
            Trouble::NotReady => LinkPut::NotReady,
            Trouble::Ended => LinkPut::Ended,
            Trouble::Failed => LinkPut::Failed,
        },
    }
}
