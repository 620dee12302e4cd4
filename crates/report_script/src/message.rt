//! Messages that come in at system ports (ES 201 873-1, 22.2).
ghost use Rattle.std.specs.Prelude.{◌≡◌, IfOk, Some, true};
ghost use Rattle.check_scope.specs.internal.Checking.{view};
ghost use Rattle.report_script.specs.Scripts as spec;
ghost use Rattle.semantics.specs.Statements.{takes, types_at};
ghost use Rattle.serde_json.specs.View.{items_view, view as data_of};

use crate::value::read_value;
use check_rules::port_meant;
use check_scope::scope::{Scope, type_meant};
use check_scope::types::{DataType, Target};
use serde_json::Value as Json;
use std::alloc::{AllocError, Global};
use ttcn_syntax::Seq;
use value_types::Value;

/// Whether messages of a type come in at a port whose type stands at a position, if that is known.
fn comes_in(scope: &Scope<'_>, port: Option<usize>, data_type: DataType) -> bool
    ensures { result ≡ takes (types_at (view scope.now).definitions true port) (Some data_type) }
{
    let Some(at) = port else {
        return false;
    };
    match scope.traffic(at) {
        Some(traffic) => traffic.towards(true).lists(data_type),
        None => false,
    }
}

/// The type of a message whose only member has this name.
fn type_named(scope: &Scope<'_>, name: &str) -> Option<DataType>
    ensures { result ≡ spec.type_named (view scope.now).definitions name.now }
{
    match name {
        "integer" => Some(DataType::Integer),
        "boolean" => Some(DataType::Boolean),
        _ => type_meant(scope.in_module(name.as_bytes())),
    }
}

/// The message of a type that comes in at a port.
fn read_typed(
    alloc: Global,
    scope: &Scope<'_>,
    port: Option<usize>,
    json: &Json,
    data_type: Option<DataType>,
) -> Result<Option<Value>, AllocError>
    ensures { IfOk result (λ message. message ≡ spec.message_of (view scope.now).definitions port (data_of json.now) data_type) }
{
    match data_type {
        Some(of) if comes_in(scope, port, of) => {
            let target = Target {
                data_type,
                optional: false,
            };
            read_value(alloc, scope, json, target)
        }
        _ => Ok(None),
    }
}

/// A message that comes in at a port: an object with one member.
fn read_message(
    alloc: Global,
    scope: &Scope<'_>,
    port: Option<usize>,
    json: &Json,
) -> Result<Option<Value>, AllocError>
    ensures { IfOk result (λ message. message ≡ spec.message_given (view scope.now).definitions port (data_of json.now)) }
{
    let Some(members) = json.as_object() else {
        return Ok(None);
    };
    let mut members = members.iter();
    match (members.next(), members.next()) {
        (Some((name, json)), None) => {
            let data_type = type_named(scope, name.as_str());
            read_typed(alloc, scope, port, json, data_type)
        }
        _ => Ok(None),
    }
}

/// The messages of a list that come in at a port.
fn read_messages(
    alloc: Global,
    scope: &Scope<'_>,
    port: Option<usize>,
    list: &[Json],
) -> Result<Option<Seq<Value>>, AllocError>
    ensures { IfOk result (λ messages. messages ≡ spec.messages_in (view scope.now).definitions port (items_view list.now)) }
{
    let mut messages = Vec::with_capacity(alloc, list.len())?;
    for json in list {
        let Some(message) = read_message(alloc, scope, port, json)? else {
            return Ok(None);
        };
        messages.push(message)?;
    }
    Ok(Some(Seq::from_vec(messages)))
}

/// The messages that come in at the port of a name.
pub(crate) fn read_port(
    alloc: Global,
    scope: &Scope<'_>,
    name: &[u8],
    json: &Json,
) -> Result<Option<Seq<Value>>, AllocError>
    ensures { IfOk result (λ messages. messages ≡ spec.port_given (view scope.now).definitions (view scope.now).names name.now (data_of json.now)) }
{
    let (Some(port), Some(list)) = (port_meant(scope.get(name)), json.as_array()) else {
        return Ok(None);
    };
    read_messages(alloc, scope, port, list.as_slice())
}
