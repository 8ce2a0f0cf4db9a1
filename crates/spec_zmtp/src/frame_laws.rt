ghost use Rattle.std.specs.Prelude.{◌≡◌, ◌++◌, ◌↔◌, Bool, List, ℕ, Some};
ghost use Rattle.spec_zmtp.specs.declared.flags.FrameKind.{FrameKind};
ghost use Rattle.spec_zmtp.specs.FrameFlags.{flags_octet, flags_at};
ghost use Rattle.spec_zmtp.specs.FrameEncoding.{WireFrame, IsWireFrame, octets_of};

/// A flags octet says what it was written for, and no other octet says it.
pub fn flags_are_read_as_written()
    ensures { (octet : ℕ) (kind : FrameKind) (long : Bool) →
        (flags_at octet ≡ Some (record { kind = kind; long = long })) ↔ (octet ≡ flags_octet kind long) }
{}

/// No encoding of a frame is a proper prefix of another, and none encodes two frames.
pub fn no_encoding_begins_another()
    ensures { (f g : WireFrame) (x y : List ℕ) → IsWireFrame f → IsWireFrame g →
        octets_of f ++ x ≡ octets_of g ++ y → (f ≡ g) × (x ≡ y) }
{}
