ghost use Rattle.std.specs.Prelude.{◌≡◌, IfOk};
ghost use Rattle.ssap_shape.specs.Shape.{IsShape};

use crate::asks::ask;
use crate::ranks::{is_no_request, refusal};
use crate::{Arrived, Request};
use m3_terms::NoMemory;
use ssap_items::{Envelope, Heads};
use std::alloc::Global;

fn copied_heads(heads: &Heads) -> Result<Heads, NoMemory>
    ensures { IfOk result (λ copied. copied ≡ heads.now) }
{
    Ok(Heads {
        message: heads.message,
        transaction: heads.transaction,
        transaction_id: heads.transaction_id.copy()?,
        node_id: heads.node_id.copy()?,
        space_id: heads.space_id.copy()?,
    })
}

/// What the message comes to. It is `NotRequest` where it is no request, or its transaction id, its node or its space is
/// empty or longer than 1,024 bytes. It is `Wrong` with the first of these that applies: `Incomplete` where a parameter
/// is missing; `Syntax` where one is doubled, unknown or filled wrongly; `NotImplemented` where a graph has another
/// encoding, a query another language, or a term is a blank node; `OutOfResources` where a term is longer than 4,096
/// bytes or a query has more than 32 templates. Otherwise it is the request.
pub fn shape(alloc: Global, envelope: &Envelope) -> Result<Arrived, NoMemory>
    ensures { IfOk result (IsShape envelope.now) }
{
    if is_no_request(&envelope.heads) {
        return Ok(Arrived::NotRequest);
    }
    let heads = copied_heads(&envelope.heads)?;
    match refusal(envelope) {
        Some(status) => Ok(Arrived::Wrong { heads, status }),
        None => {
            let ask = ask(alloc, envelope)?;
            Ok(Arrived::Request(Request { heads, ask }))
        }
    }
}
