//! Messages, and their canonical spellings.

/// A JOIN with credentials and white space in a tag, in another order than the canonical one.
pub const JOIN: &str =
    "<SSAP_message><node_id>k</node_id><space_id>X</space_id><transaction_type>JOIN</transaction_type><message_type>REQUEST</message_type><transaction_id>1</transaction_id><parameter name = \"credentials\">XYZZY</parameter></SSAP_message>";

/// Its canonical spelling.
pub const JOIN_SHOWN: &str =
    "<SSAP_message><message_type>REQUEST</message_type><transaction_type>JOIN</transaction_type><transaction_id>1</transaction_id><node_id>k</node_id><space_id>X</space_id><parameter name=\"credentials\">XYZZY</parameter></SSAP_message>";

/// An INSERT of one triple, in another order.
pub const INSERT: &str =
    "<SSAP_message><node_id>k</node_id><space_id>X</space_id><transaction_type>INSERT</transaction_type><message_type>REQUEST</message_type><transaction_id>2</transaction_id><parameter name=\"insert_graph\" encoding=\"RDF-M3\"><triple_list><triple><subject type=\"uri\">lamp</subject><predicate>state</predicate><object type=\"literal\">on</object></triple></triple_list></parameter><parameter name=\"confirm\">TRUE</parameter></SSAP_message>";

/// A QUERY of one template, in another order.
pub const QUERY: &str =
    "<SSAP_message><node_id>k</node_id><space_id>X</space_id><transaction_type>QUERY</transaction_type><message_type>REQUEST</message_type><transaction_id>3</transaction_id><parameter name=\"type\">RDF-M3</parameter><parameter name=\"query\"><triple_list><triple><subject type=\"uri\">lamp</subject><predicate>state</predicate><object type=\"uri\">sib:any</object></triple></triple_list></parameter></SSAP_message>";
