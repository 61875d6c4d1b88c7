//! The messages of the tests, in their canonical spelling: of the node `k` and the space `X`.

/// The query of the tests.
pub(crate) const TEXT: &str = "SELECT DISTINCT ?s { ?s <p> \"1\" }";

/// The request to join.
pub(crate) const JOIN: &str =
    "<SSAP_message><message_type>REQUEST</message_type><transaction_type>JOIN</transaction_type><transaction_id>1</transaction_id><node_id>k</node_id><space_id>X</space_id></SSAP_message>";

/// The request to insert a triple.
pub(crate) const INSERT: &str =
    "<SSAP_message><message_type>REQUEST</message_type><transaction_type>INSERT</transaction_type><transaction_id>2</transaction_id><node_id>k</node_id><space_id>X</space_id><parameter name=\"insert_graph\" encoding=\"RDF-M3\"><triple_list><triple><subject type=\"uri\">a</subject><predicate>p</predicate><object type=\"literal\">1</object></triple></triple_list></parameter></SSAP_message>";

/// The request that asks the query.
pub(crate) const QUERY: &str =
    "<SSAP_message><message_type>REQUEST</message_type><transaction_type>QUERY</transaction_type><transaction_id>2</transaction_id><node_id>k</node_id><space_id>X</space_id><parameter name=\"type\">sparql</parameter><parameter name=\"query\">SELECT DISTINCT ?s { ?s &lt;p&gt; &quot;1&quot; }</parameter></SSAP_message>";

/// The request to subscribe to the query.
pub(crate) const SUBSCRIBE: &str =
    "<SSAP_message><message_type>REQUEST</message_type><transaction_type>SUBSCRIBE</transaction_type><transaction_id>2</transaction_id><node_id>k</node_id><space_id>X</space_id><parameter name=\"type\">sparql</parameter><parameter name=\"query\">SELECT DISTINCT ?s { ?s &lt;p&gt; &quot;1&quot; }</parameter></SSAP_message>";

/// The request to end subscription 1.
pub(crate) const UNSUBSCRIBE: &str =
    "<SSAP_message><message_type>REQUEST</message_type><transaction_type>UNSUBSCRIBE</transaction_type><transaction_id>3</transaction_id><node_id>k</node_id><space_id>X</space_id><parameter name=\"subscription_id\">1</parameter></SSAP_message>";

/// The request to leave behind a task of one request.
pub(crate) const LEAVE: &str =
    "<SSAP_message><message_type>REQUEST</message_type><transaction_type>LEAVE</transaction_type><transaction_id>3</transaction_id><node_id>k</node_id><space_id>X</space_id></SSAP_message>";

/// The request to leave behind a subscription.
pub(crate) const LEAVE_LAST: &str =
    "<SSAP_message><message_type>REQUEST</message_type><transaction_type>LEAVE</transaction_type><transaction_id>4</transaction_id><node_id>k</node_id><space_id>X</space_id></SSAP_message>";

/// The node joined.
pub(crate) const JOINED: &str =
    "<SSAP_message><message_type>CONFIRM</message_type><transaction_type>JOIN</transaction_type><transaction_id>1</transaction_id><node_id>k</node_id><space_id>X</space_id><parameter name=\"status\">m3:Success</parameter></SSAP_message>";

/// The node may not join this space.
pub(crate) const REFUSED: &str =
    "<SSAP_message><message_type>CONFIRM</message_type><transaction_type>JOIN</transaction_type><transaction_id>1</transaction_id><node_id>k</node_id><space_id>X</space_id><parameter name=\"status\">m3:KP.Error.Request</parameter></SSAP_message>";

/// The triple was inserted.
pub(crate) const INSERTED: &str =
    "<SSAP_message><message_type>CONFIRM</message_type><transaction_type>INSERT</transaction_type><transaction_id>2</transaction_id><node_id>k</node_id><space_id>X</space_id><parameter name=\"status\">m3:Success</parameter></SSAP_message>";

/// The answer of the query has no rows.
pub(crate) const ANSWERED_NONE: &str =
    "<SSAP_message><message_type>CONFIRM</message_type><transaction_type>QUERY</transaction_type><transaction_id>2</transaction_id><node_id>k</node_id><space_id>X</space_id><parameter name=\"status\">m3:Success</parameter><parameter name=\"results\"><sparql xmlns=\"http://www.w3.org/2005/sparql-results#\"><head><variable name=\"s\"/></head><results></results></sparql></parameter></SSAP_message>";

/// An answer of two columns and two rows, with an unbound cell and texts that are written with references.
pub(crate) const ANSWERED_TWO: &str =
    "<SSAP_message><message_type>CONFIRM</message_type><transaction_type>QUERY</transaction_type><transaction_id>2</transaction_id><node_id>k</node_id><space_id>X</space_id><parameter name=\"status\">m3:Success</parameter><parameter name=\"results\"><sparql xmlns=\"http://www.w3.org/2005/sparql-results#\"><head><variable name=\"s\"/><variable name=\"n\"/></head><results><result><binding name=\"s\"><uri>a&amp;b</uri></binding></result><result><binding name=\"s\"><uri>a&amp;b</uri></binding><binding name=\"n\"><literal>&lt;1&gt;</literal></binding></result></results></sparql></parameter></SSAP_message>";

/// Subscription 1 was made, and its answer has no rows.
pub(crate) const SUBSCRIBED: &str =
    "<SSAP_message><message_type>CONFIRM</message_type><transaction_type>SUBSCRIBE</transaction_type><transaction_id>2</transaction_id><node_id>k</node_id><space_id>X</space_id><parameter name=\"status\">m3:Success</parameter><parameter name=\"subscription_id\">1</parameter><parameter name=\"results\"><sparql xmlns=\"http://www.w3.org/2005/sparql-results#\"><head><variable name=\"s\"/></head><results></results></sparql></parameter></SSAP_message>";

/// Change 1 of the subscription: the row `a` is new.
pub(crate) const GAINED: &str =
    "<SSAP_message><message_type>INDICATION</message_type><transaction_type>SUBSCRIBE</transaction_type><transaction_id>2</transaction_id><node_id>k</node_id><space_id>X</space_id><parameter name=\"subscription_id\">1</parameter><parameter name=\"ind_sequence\">1</parameter><parameter name=\"new_results\"><sparql xmlns=\"http://www.w3.org/2005/sparql-results#\"><head><variable name=\"s\"/></head><results><result><binding name=\"s\"><uri>a</uri></binding></result></results></sparql></parameter><parameter name=\"obsolete_results\"><sparql xmlns=\"http://www.w3.org/2005/sparql-results#\"><head><variable name=\"s\"/></head><results></results></sparql></parameter></SSAP_message>";

/// Change 2 of the subscription: the row `a` is obsolete.
pub(crate) const LOST: &str =
    "<SSAP_message><message_type>INDICATION</message_type><transaction_type>SUBSCRIBE</transaction_type><transaction_id>2</transaction_id><node_id>k</node_id><space_id>X</space_id><parameter name=\"subscription_id\">1</parameter><parameter name=\"ind_sequence\">2</parameter><parameter name=\"new_results\"><sparql xmlns=\"http://www.w3.org/2005/sparql-results#\"><head><variable name=\"s\"/></head><results></results></sparql></parameter><parameter name=\"obsolete_results\"><sparql xmlns=\"http://www.w3.org/2005/sparql-results#\"><head><variable name=\"s\"/></head><results><result><binding name=\"s\"><uri>a</uri></binding></result></results></sparql></parameter></SSAP_message>";

/// The same under the number 3.
pub(crate) const LOST_LATER: &str =
    "<SSAP_message><message_type>INDICATION</message_type><transaction_type>SUBSCRIBE</transaction_type><transaction_id>2</transaction_id><node_id>k</node_id><space_id>X</space_id><parameter name=\"subscription_id\">1</parameter><parameter name=\"ind_sequence\">3</parameter><parameter name=\"new_results\"><sparql xmlns=\"http://www.w3.org/2005/sparql-results#\"><head><variable name=\"s\"/></head><results></results></sparql></parameter><parameter name=\"obsolete_results\"><sparql xmlns=\"http://www.w3.org/2005/sparql-results#\"><head><variable name=\"s\"/></head><results><result><binding name=\"s\"><uri>a</uri></binding></result></results></sparql></parameter></SSAP_message>";

/// The end of the subscription is confirmed.
pub(crate) const UNSUBSCRIBED: &str =
    "<SSAP_message><message_type>CONFIRM</message_type><transaction_type>UNSUBSCRIBE</transaction_type><transaction_id>3</transaction_id><node_id>k</node_id><space_id>X</space_id><parameter name=\"status\">m3:Success</parameter></SSAP_message>";

/// The subscription ended as the node asked.
pub(crate) const OVER: &str =
    "<SSAP_message><message_type>INDICATION</message_type><transaction_type>UNSUBSCRIBE</transaction_type><transaction_id>2</transaction_id><node_id>k</node_id><space_id>X</space_id><parameter name=\"subscription_id\">1</parameter><parameter name=\"status\">m3:Success</parameter></SSAP_message>";

/// The subscription ended, since a limit was passed.
pub(crate) const EXHAUSTED: &str =
    "<SSAP_message><message_type>INDICATION</message_type><transaction_type>UNSUBSCRIBE</transaction_type><transaction_id>2</transaction_id><node_id>k</node_id><space_id>X</space_id><parameter name=\"subscription_id\">1</parameter><parameter name=\"status\">m3:SIB.Failure.OutOfResources</parameter></SSAP_message>";

/// The node left behind a task of one request.
pub(crate) const LEFT: &str =
    "<SSAP_message><message_type>CONFIRM</message_type><transaction_type>LEAVE</transaction_type><transaction_id>3</transaction_id><node_id>k</node_id><space_id>X</space_id><parameter name=\"status\">m3:Success</parameter></SSAP_message>";

/// The node left behind a subscription.
pub(crate) const LEFT_LAST: &str =
    "<SSAP_message><message_type>CONFIRM</message_type><transaction_type>LEAVE</transaction_type><transaction_id>4</transaction_id><node_id>k</node_id><space_id>X</space_id><parameter name=\"status\">m3:Success</parameter></SSAP_message>";
