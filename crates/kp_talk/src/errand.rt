use m3_terms::{Text, Triple};

/// What a client is to do in a space, under a node.
#[derive(Debug, Drop)]
pub struct Errand {
    pub space: Text,
    pub node: Text,
    pub task: Task,
}

/// A task, between joining the space and leaving it.
#[derive(Debug, Drop)]
pub enum Task {
    /// Insert this triple.
    Insert(Triple),
    /// Ask this query in SPARQL.
    Query(Text),
    /// Subscribe to this query in SPARQL, and take so many of its changes.
    Watch { text: Text, count: u32 },
}
