/// The peer of which a reply is awaited, or to which one is owed.
#[derive(Clone, Copy)]
pub enum Partner {
    Nobody,
    /// The end at this place.
    At(usize),
    /// The peer is gone.
    Gone,
}

impl Partner {
    ghost use Rattle.std.specs.Prelude.{◌≡◌};
    ghost use Rattle.req_rep.specs.Partners.{without_partner};
    ghost use Rattle.req_rep.specs.Partners.{is_nobody as is_nobody_of};

    /// Whether there is no partner.
    pub(crate) fn is_nobody(self) -> bool
        ensures { result ≡ is_nobody_of self }
    {
        match self {
            Partner::Nobody => true,
            Partner::At(_place) => false,
            Partner::Gone => false,
        }
    }

    /// The partner once the end at this place is no peer any more.
    pub(crate) fn without(self, place: usize) -> Partner
        ensures { result ≡ without_partner place self }
    {
        match self {
            Partner::At(other) if other == place => Partner::Gone,
            other => other,
        }
    }
}
