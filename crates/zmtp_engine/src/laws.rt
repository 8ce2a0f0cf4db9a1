ghost use Rattle.zmtp_engine.specs.Exchange.{HasItsMeaning, HasMeaning, DecodesAsOffered, HearsAsOffered, FittingHandshake, FittingDecodes, FittingHears, FittingMeet, CutDecodes, CutFits};

/// What an engine was given, said and has left is so of what the octets fed mean, whatever memory wanted.
pub fn what_is_left_goes_on_where_it_ends()
    ensures { HasItsMeaning }
{}

/// Once all is taken up, the octets fed have a meaning, and what is left is all of it.
pub fn what_is_taken_up_has_a_meaning()
    ensures { HasMeaning }
{}

/// What one engine has written means to another, whose handshake it is, the messages that were offered.
pub fn what_is_written_means_what_was_offered()
    ensures { DecodesAsOffered }
{}

/// What one engine has written another, whose handshake it is, hears as the messages that were offered.
pub fn what_one_writes_another_hears()
    ensures { HearsAsOffered }
{}

/// What an engine has said, once its handshake is done, is a whole handshake to each side that fits.
pub fn what_is_said_is_a_whole_handshake()
    ensures { FittingHandshake }
{}

/// Two sides that fit, each fed all that the other says, know each other.
pub fn sides_that_fit_shake_hands()
    ensures { FittingMeet }
{}

/// What one engine has written a side that fits decodes to the messages that were offered, and to who offered them.
pub fn a_side_that_fits_decodes_what_was_offered()
    ensures { FittingDecodes }
{}

/// What one engine has written another that fits hears as the messages that were offered.
pub fn what_one_writes_a_fitting_one_hears()
    ensures { FittingHears }
{}

/// Wherever a link is cut, the messages that any side decodes are a front of those that were offered.
pub fn a_link_that_is_cut_gives_a_front()
    ensures { CutDecodes }
{}

/// Wherever a link is cut, a side that fits refuses nothing.
pub fn a_side_that_fits_refuses_nothing()
    ensures { CutFits }
{}
