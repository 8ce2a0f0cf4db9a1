/// How a call of the program ended.
#[derive(Clone, Copy, Debug, PartialEq, Eq)]
pub enum Status {
    /// The run is done, or the peer's octets were heard and are not refused.
    Done,
    /// The script is refused.
    Script,
    /// The words of the command line are refused.
    Usage,
    /// The source failed.
    ReadFault,
    /// The sink failed.
    WriteFault,
    /// Want of memory: nothing was written.
    OutOfMemory,
    /// The run isn't done after all its turns.
    Unfinished,
    /// The peer's octets are refused.
    Heard,
}

impl Status {
    ghost use Rattle.std.specs.Prelude.{◌≡◌};
    ghost use Rattle.zq_call.specs.ExitCode.{exit_code};

    /// The exit code of the program.
    pub fn code(self) -> u8
        ensures { result ≡ exit_code self }
    {
        match self {
            Status::Done => 0,
            Status::Script => 1,
            Status::Usage => 2,
            Status::ReadFault => 3,
            Status::WriteFault => 4,
            Status::OutOfMemory => 6,
            Status::Unfinished => 8,
            Status::Heard => 9,
        }
    }
}
