ghost use Rattle.std.specs.Prelude.{◌≡◌, ◌&&◌, ◌==◌, not, nat_eq, nat_le, length, drop, slice_index};
ghost use Rattle.std.specs.List.{starts_with};
ghost use Rattle.spec_zmtp.specs.Greeting.{greeting_of, mechanism_of, judged};

use spec_zmtp::Judgement;
use zq_base::Role;

const NULL: [u8; 20] = *b"NULL\0\0\0\0\0\0\0\0\0\0\0\0\0\0\0\0";

const PLAIN: [u8; 20] = *b"PLAIN\0\0\0\0\0\0\0\0\0\0\0\0\0\0\0";

/// The greeting of a side.
#[derive(Clone, Copy, Debug, PartialEq, Eq)]
pub struct Greeting {
    pub role: Role,
}

// The mechanism's name, filled up with octets 0.
fn mechanism(role: Role) -> [u8; 20]
    ensures { result ≡ mechanism_of role }
{
    match role {
        Role::Null => NULL,
        Role::PlainClient | Role::PlainServer => PLAIN,
    }
}

// Whether the first octet is there and is another.
fn has_bad_first(octets: &[u8]) -> bool
    ensures { result ≡ (nat_le 10 (length octets.now) && not (slice_index octets.now 0 == 255)) }
{
    octets.len() >= 10 && octets[0] != 255
}

// Whether the tenth octet is there and is another.
fn has_bad_tenth(octets: &[u8]) -> bool
    ensures { result ≡ (nat_le 10 (length octets.now) && not (slice_index octets.now 9 == 127)) }
{
    octets.len() >= 10 && octets[9] != 127
}

// Whether a mechanism is there and is another.
fn has_other_mechanism(role: Role, octets: &[u8]) -> bool
    ensures { result ≡ (nat_le 32 (length octets.now)
        && not (starts_with nat_eq (drop 12 octets.now) (mechanism_of role))) }
{
    octets.len() >= 32 && !octets[12..].starts_with(&mechanism(role))
}

impl Greeting {
    /// The octets that this side writes, all at once.
    pub fn write(&self) -> [u8; 64]
        ensures { result ≡ greeting_of self.now.role }
    {
        let m = mechanism(self.role);
        let server = match self.role {
            Role::PlainServer => 1,
            Role::Null | Role::PlainClient => 0,
        };
        [
            255, 0, 0, 0, 0, 0, 0, 0, 0, 127, 3, 0, m[0], m[1], m[2], m[3], m[4], m[5], m[6], m[7],
            m[8], m[9], m[10], m[11], m[12], m[13], m[14], m[15], m[16], m[17], m[18], m[19],
            server, 0, 0, 0, 0, 0, 0, 0, 0, 0, 0, 0, 0, 0, 0, 0, 0, 0, 0, 0, 0, 0, 0, 0, 0, 0, 0,
            0, 0, 0, 0, 0,
        ]
    }

    /// What the first octets of a peer's stream say to this side, be they fewer than 64 or more.
    pub fn read(&self, octets: &[u8]) -> Judgement
        ensures { result ≡ judged self.now.role octets.now }
    {
        if has_bad_first(octets) {
            return Judgement::BadSignature(0);
        }
        if has_bad_tenth(octets) {
            return Judgement::BadSignature(9);
        }
        if octets.len() >= 11 && octets[10] < 3 {
            return Judgement::OldVersion(octets[10]);
        }
        if has_other_mechanism(self.role, octets) {
            return Judgement::OtherMechanism;
        }
        if octets.len() < 64 {
            Judgement::NeedMore
        } else {
            Judgement::Good
        }
    }
}
