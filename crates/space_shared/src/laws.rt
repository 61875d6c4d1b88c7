//! Laws of what seats do. The function does nothing: its contract is the laws.

ghost use Rattle.space_shared.specs.Exchanges.{CallsAreMine, SeenGrows};

/// A seat that made some calls has them behind its own, in their order, and what it has seen grew.
pub fn seats_keep_their_calls()
    ensures mine { CallsAreMine }
    ensures grown { SeenGrows }
{}
