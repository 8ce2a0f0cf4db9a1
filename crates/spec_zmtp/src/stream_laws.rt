ghost use Rattle.std.specs.Prelude.{◌≡◌, ◌++◌, List, ℕ, All};
ghost use Rattle.zq_base.specs.declared.options.EngineOpts.{EngineOpts};
ghost use Rattle.spec_zmtp.specs.declared.cause.Refusal.{Refusal};
ghost use Rattle.spec_zmtp.specs.Metadata.{IsOctets};
ghost use Rattle.spec_zmtp.specs.Put.{IsSendable};
ghost use Rattle.spec_zmtp.specs.DecodedStream.{Decoded, Decodes, Refused, GoesOn};

/// All octets have a meaning.
pub fn all_octets_have_a_meaning()
    ensures { (opts : EngineOpts) (octets : List ℕ) → IsOctets octets → (d : Decoded) × Decodes opts octets d }
{}

/// Octets mean one thing.
pub fn octets_have_one_meaning()
    ensures { (opts : EngineOpts) (octets : List ℕ) (d e : Decoded) →
        Decodes opts octets d → Decodes opts octets e → d ≡ e }
{}

/// Once octets are refused, more of them change nothing.
pub fn refused_octets_stay_refused()
    ensures { (opts : EngineOpts) (octets more : List ℕ) (d : Decoded) (r : Refusal) →
        Decodes opts octets d → d.outcome ≡ Refused r → Decodes opts (octets ++ more) d }
{}

/// What octets mean goes on in what more octets mean.
pub fn more_octets_mean_more()
    ensures { (opts : EngineOpts) (octets more : List ℕ) (d e : Decoded) →
        Decodes opts octets d → Decodes opts (octets ++ more) e → GoesOn d e }
{}

/// Each whole message has 1 to 1,023 frames, each of at most 16,777,216 octets.
pub fn each_whole_message_may_be_sent()
    ensures { (opts : EngineOpts) (octets : List ℕ) (d : Decoded) → Decodes opts octets d → All IsSendable d.messages }
{}
