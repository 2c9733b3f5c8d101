//! The order of the processes, as a list of ranks.
ghost use Rattle.std.specs.Prelude.{◌≡◌, ◌<◌, IfOk, option_map};
ghost use Rattle.serde_json.specs.View.{view};
ghost use Rattle.ticklab_json.specs.Steps.{label_order, rank_data, ticket_order};

use serde_json::Value;
use std::alloc::{AllocError, Global};
use ticket_core::Tickets;
use ticklab_trace::{label_rank, ticket_rank};
use word_core::LabelWord;

/// By these tickets, where there are some.
pub fn ticket_order(alloc: Global, tickets: Option<Tickets>) -> Result<Option<Value>, AllocError>
    ensures { IfOk result (λ found. option_map view found ≡ option_map ticket_order tickets) }
{
    let Some(tickets) = tickets else {
        return Ok(None);
    };
    let mut ranks = Vec::new(alloc);
    for i in 0..tickets.count() {
        ranks.push(rank_value(ticket_rank(&tickets, i)))?;
    }
    Ok(Some(Value::Array(ranks)))
}

/// By these labels, where there are some.
pub fn label_order(alloc: Global, labels: Option<LabelWord>) -> Result<Option<Value>, AllocError>
    ensures { IfOk result (λ found. option_map view found ≡ option_map label_order labels) }
{
    let Some(labels) = labels else {
        return Ok(None);
    };
    let mut ranks = Vec::new(alloc);
    for i in 0..labels.n() {
        ranks.push(rank_value(label_rank(&labels, i)))?;
    }
    Ok(Some(Value::Array(ranks)))
}

fn rank_value(rank: Option<u8>) -> Value
    ensures { view result ≡ rank_data rank }
{
    match rank {
        Some(rank) => Value::from(rank),
        None => Value::Null,
    }
}
