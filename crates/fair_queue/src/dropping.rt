ghost use Rattle.std.specs.Prelude.{◌≡◌, ◌<◌, ◌≤◌, All, Contains, IfOk, OnErr, IsPermutation, vec_len, vec_capacity};
ghost use Rattle.spec_pattern.specs.Duty.{Duty};
ghost use Rattle.spec_pattern.specs.declared.answers.RecvAnswer.TheVariants as got;
ghost use Rattle.msg_pipe.specs.Places.{KeepsPlaces};
ghost use Rattle.spec_pattern.specs.Dropping.{receiving, MatchDropping, DropsFew, ReceivesOver};
ghost use Rattle.fair_queue.specs.Sifting.{IfGiven, UnlessGiven, Looks};

use crate::sieve::Sieve;
use crate::sifted::Sifted;
use crate::turn::{NextIn, next_in};
use msg_pipe::{Peers, Turns};
use spec_pattern::{RecvFault, RecvRefusal, Rule, Skip};
use zq_base::Message;

/// The most messages that one receive drops.
const MOST_DROPS: usize = 256;

/// Receives by turn what the sieve gives, and says from which place. Every other message that comes
/// before it is dropped by the rule and told: `Again` where none is left, `Busy` where one call has
/// dropped 256.
pub fn receive_dropping<S: Sieve, E: Peers>(
    turns: &mut Turns,
    sieve: &mut S,
    rule: Rule,
    peers: &mut E,
    skips: &mut Vec<Skip>,
) -> Result<(usize, Message), RecvFault>
    requires there { All (E.here peers.old) turns.old }
    requires ready { S.ready sieve.old }
    ensures step { MatchDropping result
        (DropsFew E.runs (E.end_at peers.old) (S.gives sieve.old) rule
        (receiving peers.old turns.old skips.old.items)
        (receiving peers.new turns.new skips.new.items))
        (λ place m. (duty : Duty) → ReceivesOver E.runs (E.end_at peers.old) (S.gives sieve.old) rule
        (receiving peers.old turns.old skips.old.items)
        (receiving peers.new turns.new skips.new.items)
        (got.Got (E.end_at peers.old place).pair m) duty
        (S.duty sieve.new (E.end_at peers.old place)))
        (λ refusal. (duty : Duty) → ReceivesOver E.runs (E.end_at peers.old) (S.gives sieve.old) rule
        (receiving peers.old turns.old skips.old.items)
        (receiving peers.new turns.new skips.new.items)
        (got.Refused refusal) duty duty) }
    ensures kept { OnErr result (sieve.new ≡ sieve.old) }
    ensures given { IfOk result (λ item. Contains turns.old item.0) }
    ensures places { IsPermutation turns.old turns.new }
    ensures keeps { KeepsPlaces E.here E.end_at E.writable peers.old peers.new }
{
    'looks: for _count in 0..MOST_DROPS {
        let Ok(()) = skips.reserve(1) else {
            return Err(RecvFault::OutOfMemory);
        };
        match look(turns, sieve, rule, peers, skips) {
            Sifted::Given(place, message) => return Ok((place, message)),
            Sifted::Dropped => {}
            Sifted::Empty => return Err(RecvFault::Refused(RecvRefusal::Again)),
        }
    }
    Err(RecvFault::Refused(RecvRefusal::Busy))
}

// Takes the next message: it is given, or dropped and told.
fn look<S: Sieve, E: Peers>(
    turns: &mut Turns,
    sieve: &mut S,
    rule: Rule,
    peers: &mut E,
    skips: &mut Vec<Skip>,
) -> Sifted
    requires there { All (E.here peers.old) turns.old }
    requires ready { S.ready sieve.old }
    requires room { vec_len skips.old < vec_capacity skips.old }
    ensures looks { Looks E.runs (E.end_at peers.old) (S.gives sieve.old) rule
        (receiving peers.old turns.old skips.old.items)
        (receiving peers.new turns.new skips.new.items) result
        (λ place. S.duty sieve.new (E.end_at peers.old place)) }
    ensures kept { UnlessGiven result (sieve.new ≡ sieve.old) }
    ensures given { IfGiven result (λ place. Contains turns.old place) }
    ensures places { IsPermutation turns.old turns.new }
    ensures keeps { KeepsPlaces E.here E.end_at E.writable peers.old peers.new }
{
    match next_in(turns, peers) {
        NextIn::AllEmpty => return Sifted::Empty,
        NextIn::Got(place, message) => {
            let pair = peers.pair(place);
            match sieve.sift(pair, message) {
                Some(rest) => return Sifted::Given(place, rest),
                None => {
                    skips.push_reserved(Skip { rule, pair });
                    return Sifted::Dropped;
                }
            }
        }
    }
}
