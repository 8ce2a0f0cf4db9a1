ghost use Rattle.std.specs.Prelude.{◌≡◌};
ghost use Rattle.closed_ends.specs.Placing.{given_joined, place_given};

use desk::{Given, Halves};
use end_table::{HeldPipes, Place};
use spec_control::EndState;
use zq_base::EndId;

/// An end as it comes, at a place of its own.
pub fn noted_as<P: HeldPipes>(end: &Given<P::Name, P::Out, P::In>) -> Place<P::Name, P::In>
    ensures { result ≡ place_given P.known.in_name end.now }
{
    Place {
        end: end.end,
        written: P::same_name(&end.written),
        read: P::reads(&end.input),
        state: end.state,
        held: true,
        writes: end.out.is_some(),
        sealed: end.sealed,
        met: end.met,
        peer: false,
        dropped: 0,
        input: None,
    }
}

/// An end that joins with these halves.
pub fn joined<P: HeldPipes>(
    end: EndId,
    halves: Halves<P::Out, P::In>,
) -> Given<P::Name, P::Out, P::In>
    ensures { result ≡ given_joined P.known.out_name end halves }
{
    let Halves { out, input } = halves;
    let written = P::name(&out);
    Given {
        end,
        written,
        out: Some(out),
        input,
        met: false,
        sealed: false,
        state: EndState::Active,
    }
}
