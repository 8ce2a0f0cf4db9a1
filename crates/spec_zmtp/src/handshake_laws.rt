ghost use Rattle.std.specs.Prelude.{◌≡◌, ℕ, ◌↔◌, ◌⊎◌, List, [], ◌∷◌, ◌++◌, All};
ghost use Rattle.zq_base.specs.declared.options.EngineOpts.{EngineOpts};
ghost use Rattle.zq_base.specs.declared.options.Login.{Login};
ghost use Rattle.zq_base.specs.declared.options.Role.{Role};
ghost use Rattle.spec_zmtp.specs.declared.command.Command.{Command};
ghost use Rattle.spec_zmtp.specs.declared.command.Property.{Property};
ghost use Rattle.spec_zmtp.specs.declared.greeting.Judgement.TheVariants.{Good, NeedMore};
ghost use Rattle.spec_zmtp.specs.Greeting.{IsAccepted, judged};
ghost use Rattle.spec_zmtp.specs.Metadata.{IsOctets, IsCommand, encode_command, IsLogin, encode_login, IsProperty, encode_meta};
ghost use Rattle.spec_zmtp.specs.Decoding.{decode_command, decode_login, decode_meta};
ghost use Rattle.spec_zmtp.specs.OwnCommands.{IsEngineOpts};
ghost use Rattle.spec_zmtp.specs.Handshake.{Item, handshake, followed_by, next};

/// A greeting that is judged stays judged so, whatever comes behind.
pub fn more_octets_change_no_judgement()
    ensures { (role : Role) (octets more : List ℕ) →
        (judged role octets ≡ NeedMore) ⊎ (judged role (octets ++ more) ≡ judged role octets) }
{}

/// A greeting is judged good exactly where it is one that is accepted.
pub fn a_good_greeting_is_accepted()
    ensures { (role : Role) (octets : List ℕ) → (judged role octets ≡ Good) ↔ IsAccepted role octets }
{}

/// A command's body is decoded to that command.
pub fn a_body_is_its_command()
    ensures { (c : Command) → IsCommand c → decode_command (encode_command c) ≡ Some c }
{}

/// What is decoded from a body is a command of this body.
pub fn a_decoded_command_has_the_body()
    ensures { (body : List ℕ) (c : Command) → IsOctets body → decode_command body ≡ Some c →
        IsCommand c × (body ≡ encode_command c) }
{}

/// The content of a HELLO is decoded to its login.
pub fn a_content_is_its_login()
    ensures { (l : Login) → decode_login (encode_login l) ≡ Some l }
{}

/// What is decoded from a content is a login of this content.
pub fn a_decoded_login_has_the_content()
    ensures { (content : List ℕ) (l : Login) → IsOctets content → decode_login content ≡ Some l →
        IsLogin l × (content ≡ encode_login l) }
{}

/// Metadata is decoded to its properties.
pub fn metadata_is_its_properties()
    ensures { (ps : List Property) → All IsProperty ps → decode_meta (encode_meta ps) ≡ Some ps }
{}

/// What is decoded from metadata are properties of these octets.
pub fn decoded_properties_have_the_octets()
    ensures { (content : List ℕ) (ps : List Property) → IsOctets content → decode_meta content ≡ Some ps →
        All IsProperty ps × (content ≡ encode_meta ps) }
{}

/// A handshake that hears one item more goes on by what that item adds.
pub fn one_item_more()
    ensures { (opts : EngineOpts) (heard : List Item) (item : Item) →
        handshake opts (heard ++ item ∷ [])
        ≡ followed_by (handshake opts heard) (next opts (handshake opts heard).stage item) }
{}
