//! Laws of shapes. Each function does nothing: its contract is the law.

ghost use Rattle.ssap_shape.specs.Laws.{ShapesOnce, ShapesSome, ShapesAreSound};
ghost use Rattle.ssap_shape.specs.Laws.{ToldOnce, ConfirmsAreTold, IndicationsAreTold, ToldIsSound, RequestsAreUnderstood, RequestsAreSayable};
ghost use Rattle.ssap_shape.specs.Examples.{Joins, Removes, Incompletes, Unknowns, Empties, Encodings, Nodeless, Twelves, AsksToJoin, AsksInSparql, TellsRefusal};

/// A message comes to exactly one thing: no request, a wrong one with one status, or one request.
pub fn shape_once()
    ensures once { ShapesOnce }
    ensures some { ShapesSome }
{}

/// What a message comes to that was read from bytes is within all limits of identifiers, terms and texts, and no subject or
/// predicate of its templates is a literal.
pub fn shapes_are_sound()
    ensures { ShapesAreSound }
{}

/// A message tells a client at most one thing: a confirm, an indication, or neither.
pub fn told_once()
    ensures { ToldOnce }
{}

/// The message of a confirm or of an indication that may be sent tells a client what was sent. A confirm may be sent that has
/// a number or results only where its success is sent with them, numbers of at most 64 bits and sound answers.
pub fn replies_are_told()
    ensures confirms { ConfirmsAreTold }
    ensures indications { IndicationsAreTold }
{}

/// What a message tells a client has sound answers, and numbers of at most 64 bits.
pub fn told_is_sound()
    ensures { ToldIsSound }
{}

/// The message of a request that can be asked comes to that request: one within the limits of identifiers, terms and texts,
/// of the transaction of what it asks for, whose templates have no uri that spells the wildcard.
pub fn requests_are_understood()
    ensures { RequestsAreUnderstood }
{}

/// The message of a request that can be asked can be written.
pub fn requests_are_sayable()
    ensures { RequestsAreSayable }
{}

/// Small messages: a request to join, one to remove with wildcards, one without a parameter that it must have, one with
/// an unknown parameter, a graph with an empty uri, the same in another encoding, and a message without a node; the confirm
/// of a subscription; the messages that ask to join and to subscribe in SPARQL; and what a refusal tells.
pub fn worked_examples()
    ensures joins { Joins }
    ensures removes { Removes }
    ensures incompletes { Incompletes }
    ensures unknowns { Unknowns }
    ensures empties { Empties }
    ensures encodings { Encodings }
    ensures nodeless { Nodeless }
    ensures twelves { Twelves }
    ensures asks_to_join { AsksToJoin }
    ensures asks_in_sparql { AsksInSparql }
    ensures tells_refusal { TellsRefusal }
{}
