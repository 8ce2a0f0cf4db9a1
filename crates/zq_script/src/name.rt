ghost use Rattle.std.specs.Prelude.{◌≡◌};
ghost use Rattle.std.specs.List.{list_all};
ghost use Rattle.zq_script.specs.Name.{is_name, is_word_octet};

fn all_name_octets(word: &[u8]) -> bool
    ensures { result ≡ list_all is_word_octet word.now }
{
    word.iter().all(|b| b.is_ascii_alphanumeric() || *b == b'_')
}

/// Whether the word is a name of an actor or a socket.
#[tactic(auto, unfolding(crate::specs::Name::is_name))]
pub(crate) fn is_name(word: &[u8]) -> bool
    ensures { result ≡ is_name word.now }
{
    1 <= word.len() && word.len() <= 32 && all_name_octets(word)
}
