ghost use Rattle.std.specs.Prelude.{◌≡◌, ℕ, List, Ok};
ghost use Rattle.hex.specs.Hex.{IsBytes};
ghost use Rattle.zq_script.specs.Part.{part_of};
ghost use Rattle.spec_run.specs.PartText.{part_text};

/// A part that a journal prints is read back as the same part by a script.
pub fn a_printed_part_is_read_back()
    ensures { (part : List ℕ) → IsBytes part → part_of (part_text part) ≡ Ok part }
{}
