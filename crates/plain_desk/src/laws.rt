ghost use Rattle.plain_desk.specs.Laws.{EventFits, EventMore, LookMore, LooksChangeNothing, MomentMore, NamesFit, OrderGoesOn, OtherMoments};

/// An event more stands at the end of the order, with its caller.
pub fn one_event_more<N, S>()
    ensures { EventMore N S }
{}

/// A look more stands at the end of the order.
pub fn one_look_more<N, S>()
    ensures { LookMore N S }
{}

/// The order leads to the control state that its events alone lead to, whoever called.
pub fn looks_change_nothing<N, S>()
    ensures { LooksChangeNothing N S }
{}

/// An order goes on with an item that fits it.
pub fn order_goes_on<N, S>()
    ensures { OrderGoesOn N S }
{}

/// The caller of an item has a moment more.
pub fn one_moment_more<N, S>()
    ensures { MomentMore N S }
{}

/// The other callers have none more.
pub fn other_moments_stay<N, S>()
    ensures { OtherMoments N S }
{}

/// An event that fits the events so far fits their order with its looks.
pub fn an_event_fits<N, S>()
    ensures { EventFits N S }
{}

/// An event whose names fit the events so far tells names that fit their order with its looks.
pub fn its_names_fit<N, S>()
    ensures { NamesFit N S }
{}
