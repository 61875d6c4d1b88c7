use kp_client::Mirror;

/// A task without what it asks for.
#[derive(Clone, Copy, Debug, PartialEq, Eq)]
pub(crate) enum Goal {
    Insert,
    Query,
    /// So many changes are awaited.
    Watch(u32),
}

/// What a party to a talk awaits.
#[derive(Debug, Drop)]
pub(crate) enum Stage {
    /// The confirm that it joined.
    Joining,
    /// The confirm of its task.
    Asking,
    /// So many more changes, of which none is left out.
    Following { left: u32, mirror: Mirror },
    /// The confirm that the subscription of this number ended.
    Unsubscribing(u64),
    /// The confirm that it left.
    Leaving,
}
