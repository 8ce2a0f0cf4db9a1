ghost use Rattle.core_laws.specs.Asked.{AsksItsOwn};

/// A letter that asks an end to read on comes to the closed socket whose end it is.
pub fn asks_its_own<N, O, I, T>()
    ensures { AsksItsOwn N O I T }
{}
