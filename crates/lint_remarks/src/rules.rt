//! What is said where a rule is broken: the word that it is about, and what was expected.
use crate::scene::Scene;
use check_scope::rule::Rule;
use lint_names::Remark;
use std::alloc::AllocError;

/// What is said of a part that breaks a rule: one remark or more.
pub fn remarks(scene: Scene<'_>, rule: Rule) -> Result<Vec<Remark>, AllocError> {
    let remark = match rule {
        Rule::UnknownName => return scene.wrong_names(),
        Rule::DuplicateName => scene.duplicate(),
        Rule::OperandType => scene.operand(),
        Rule::ValueType => scene.value_type(),
        Rule::Arguments => scene.arguments(),
        Rule::Fields => scene.fields(),
        Rule::RunsOn => scene.runs_on(),
        Rule::PortType => scene.message(),
        Rule::CallKind => scene.call_kind(),
        _ => scene.statement(rule),
    }?;
    let mut remarks = Vec::new(scene.alloc);
    remarks.push(remark)?;
    Ok(remarks)
}
