ghost use Rattle.router_dealer.specs.Laws.{IsTheRouterOfItsEnds};

/// A ROUTER over places answers and does what the ROUTER of the definitions over the ends at these
/// places does.
pub fn places_stand_for_their_ends()
    ensures { IsTheRouterOfItsEnds }
{}
