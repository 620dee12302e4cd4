//! Scripts of test cases, read from JSON (ES 201 873-1, 9).
ghost use Rattle.std.specs.Prelude.{◌≡◌, ◌≢◌, ◌<◌, ◌↔◌, [], IfErr, IfOk, Err, Ok, Some, None, length};
ghost use Rattle.std.specs.Option.{option_map};
ghost use Rattle.check_scope.specs.Scopes.{scope_on};
ghost use Rattle.check_scope.specs.internal.Checking.{view};
ghost use Rattle.report_script.specs.Scripts as spec;
ghost use Rattle.report_script.specs.Scripts.{most_bytes, test_with};
ghost use Rattle.report_script.specs.declared.error.ScriptError.TheVariants as refusal;
ghost use Rattle.semantics.specs.Statements as said;
ghost use Rattle.serde_json.specs.Find.{as_object};
ghost use Rattle.serde_json.specs.View.{members_view, view as data_of};
ghost use Rattle.step_script.specs.Fitting.{FitsScript};

use crate::error::ScriptError;
use crate::message::read_port;
use check_rules::{Program, TestId, component_named, port_meant};
use check_scope::least::Least;
use check_scope::scope::Scope;
use serde_json::error::Category;
use serde_json::{Map, Value as Json};
use std::alloc::{AllocError, Global};
use step_script::Script;
use ttcn_syntax::{Definition, DefinitionKind, Name, Seq};
use value_types::Value;

/// A text has at most so many bytes.
const MOST_BYTES: usize = 1_048_576;

/// The name of the component type whose ports are the system ports of a test case: that behind `system`, or else that of the
/// type that it runs on.
fn system_name<'a>(kind: Option<&'a DefinitionKind>) -> Option<&'a Name>
    ensures { option_map (λ name. name.now) result ≡ said.system_name (option_map (λ kind. kind.now) kind.entry) }
{
    match kind {
        Some(DefinitionKind::Testcase(testcase)) => match &testcase.system {
            Some(name) => Some(name),
            None => Some(&testcase.runs_on),
        },
        _ => None,
    }
}

/// The position of that component type, for the test case at a position.
fn system_type(scope: &Scope<'_>, testcase: usize) -> usize
    ensures { result ≡ said.system_type (test_with (view scope.now).definitions testcase []) }
{
    match component_named(scope, system_name(scope.kind(testcase))) {
        Some(at) => at,
        None => 0,
    }
}

/// What is visible in that component type.
fn system_scope<'a>(
    alloc: Global,
    definitions: &'a [Definition],
    testcase: usize,
) -> Result<Scope<'a>, AllocError>
    ensures { IfOk result (λ scope. view scope ≡ scope_on definitions.now (Some (said.system_type (test_with definitions.now testcase [])))) }
{
    let mut scope = Scope::new(alloc, definitions, &mut Least { fault: None })?;
    let system_type = system_type(&scope, testcase);
    scope.go_to_behaviour(alloc, Some(system_type));
    Ok(scope)
}

/// Whether each member has the name of a port.
fn are_ports(scope: &Scope<'_>, members: &Map<String, Json>) -> bool
    ensures { result ≡ spec.are_ports (view scope.now).names (members_view members.now.entries) }
{
    for (name, _) in members.iter() {
        if port_meant(scope.get(name.as_bytes())).is_none() {
            return false;
        }
    }
    true
}

/// The messages at each port that a member names.
fn read_ports(
    alloc: Global,
    scope: &Scope<'_>,
    members: &Map<String, Json>,
) -> Result<Option<Seq<(Name, Seq<Value>)>>, AllocError>
    ensures { IfOk result (λ ports. ports ≡ spec.ports_given (view scope.now).definitions (view scope.now).names (members_view members.now.entries)) }
{
    let mut ports = Vec::new(alloc);
    for (name, json) in members.iter() {
        let Some(messages) = read_port(alloc, scope, name.as_bytes(), json)? else {
            return Ok(None);
        };
        ports.push((Name::new(alloc, name.as_bytes())?, messages))?;
    }
    Ok(Some(Seq::from_vec(ports)))
}

/// The JSON that a text is.
fn read_json(alloc: Global, text: &[u8]) -> Result<Json, ScriptError>
    ensures read { IfOk result (λ json. spec.json_in text.now ≡ Some (data_of json)) }
    ensures refused { IfErr result (λ error. error ≢ refusal.Memory → (error ≡ refusal.BadJson) × (spec.json_in text.now ≡ None)) }
{
    match Json::from_slice(alloc, text) {
        Ok(json) => Ok(json),
        Err(error) => match error.classify() {
            Category::Memory => Err(ScriptError::Memory),
            _ => Err(ScriptError::BadJson),
        },
    }
}

/// The script that JSON is, where the ports are those of a scope.
fn script_of(alloc: Global, scope: &Scope<'_>, json: &Json) -> Result<Script, ScriptError>
    ensures read { IfOk result (λ script. spec.script_of (view scope.now).definitions (view scope.now).names (as_object (data_of json.now)) ≡ Ok script.ports) }
    ensures refused { IfErr result (λ error. error ≢ refusal.Memory → spec.script_of (view scope.now).definitions (view scope.now).names (as_object (data_of json.now)) ≡ Err error) }
{
    let Some(members) = json.as_object() else {
        return Err(ScriptError::NoSuchPort);
    };
    if !are_ports(scope, members) {
        return Err(ScriptError::NoSuchPort);
    }
    match read_ports(alloc, scope, members)? {
        Some(ports) => Ok(Script { ports }),
        None => Err(ScriptError::BadMessage),
    }
}

/// The script that a text is: what comes in at the system ports of a test case. It is JSON, an object from system ports to lists
/// of messages. A message is an object with one member, which has the name of a type and stands for a value of it.
pub fn read_script(
    alloc: Global,
    text: &[u8],
    program: &Program,
    testcase: TestId,
) -> Result<Script, ScriptError>
    ensures read { IfOk result (λ script. spec.script_said program.now.definitions testcase text.now ≡ Ok script.ports) }
    ensures refused { IfErr result (λ error. error ≢ refusal.Memory → spec.script_said program.now.definitions testcase text.now ≡ Err error) }
    ensures too_large { (result ≡ Err refusal.TooLarge) ↔ (most_bytes < length text.now) }
    ensures fits { IfOk result (λ script. FitsScript (test_with program.now.definitions testcase script.ports)) }
{
    if text.len() > MOST_BYTES {
        return Err(ScriptError::TooLarge);
    }
    let json = read_json(alloc, text)?;
    let definitions = program.module().definitions.as_slice();
    let scope = system_scope(alloc, definitions, testcase.position())?;
    script_of(alloc, &scope, &json)
}
