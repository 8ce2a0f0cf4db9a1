/// The octets of a greeting and of the READY of a PAIR.
const HANDSHAKE: u64 = 92;

/// Numbers that look as if they were drawn.
#[derive(Clone, Copy)]
pub struct Dice {
    pub state: u64,
}

impl Dice {
    /// A number below this.
    pub fn roll(&mut self, below: u64) -> u64 {
        self.state = self
            .state
            .wrapping_mul(6_364_136_223_846_793_005)
            .wrapping_add(1_442_695_040_888_963_407);
        (self.state >> 33).checked_rem(below).unwrap_or(0)
    }
}

/// What a history is about: how many messages there are, how many octets each has, and where the
/// first link is cut.
#[derive(Clone, Copy)]
pub struct Drawn {
    pub messages: u64,
    pub size: u64,
    pub cut: u64,
}

impl Drawn {
    // How many octets a message is written in.
    fn length(&self) -> u64 {
        self.size.saturating_add(2)
    }

    // How many octets of messages the first link took, where it was cut.
    fn octets(&self) -> u64 {
        self.cut.saturating_sub(HANDSHAKE)
    }

    /// How many messages it took whole.
    pub fn whole(&self) -> u64 {
        self.octets().checked_div(self.length()).unwrap_or(0)
    }

    /// Whether it took a part of a message.
    pub fn is_torn(&self) -> bool {
        self.octets().checked_rem(self.length()).unwrap_or(0) != 0
    }
}
