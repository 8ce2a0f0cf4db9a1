/// Whether a socket is the plain one of its pair of kinds, or the extended one (RFC 29).
pub trait Extent {
    ghost use Rattle.std.specs.Prelude.{Bool};

    ghost is_extended: { Bool };
}

/// Of a PUB and a SUB.
#[derive(Drop)]
pub struct Plain;

/// Of an XPUB and an XSUB.
#[derive(Drop)]
pub struct Extended;

impl Extent for Plain {
    ghost use Rattle.std.specs.Prelude.{false};

    ghost is_extended = { false };
}

impl Extent for Extended {
    ghost use Rattle.std.specs.Prelude.{true};

    ghost is_extended = { true };
}
