//! How templates are built that name others (ES 201 873-1, section 15): by the steps that are written down for each. So
//! evaluation goes down one text at a time, however long chains of templates are.
ghost use Rattle.std.specs.Prelude.{◌≡◌, ◌-◌, ◌≤◌, [], drop, length, take};
ghost use Rattle.ttcn_values.specs.internal.Building.{Builds, Gathers, after_step, after_steps};
ghost use Rattle.ttcn_values.specs.internal.Readers.{KnowsConstants, read_by};
ghost use Rattle.value_types.specs.Outcomes.{Gives, GivesBy};
ghost use Rattle.value_types.specs.Templates.{plain, template_wanted};

use super::{Reader, Step, Visible};
use crate::{Fault, Pattern, Template, Value};
use check_rules::DataType;
use std::alloc::Global;
use ttcn_syntax::{Seq, Template as Written};

/// A pattern without `ifpresent`.
fn plain(pattern: Pattern) -> Template
    ensures { result ≡ plain pattern }
{
    Template {
        pattern,
        ifpresent: false,
    }
}

/// The last so many templates leave.
fn gather(templates: &mut Vec<Template>, count: usize) -> Result<Seq<Template>, Fault>
    ensures { Gathers count templates.old.items templates.new.items result }
{
    let Some(start) = templates.len().checked_sub(count) else {
        return Err(Fault::Dynamic);
    };
    Ok(Seq::from_vec(templates.split_off(start)?))
}

impl Reader<'_> {
    /// The template of what stands where one of a type is wanted.
    #[cycle(building)]
    pub(crate) fn template(
        &self,
        alloc: Global,
        template: &Written,
        wanted: Option<DataType>,
    ) -> Result<Template, Fault>
        requires { KnowsConstants self.now }
        ensures { Gives (template_wanted template.now (read_by self.now) wanted) result }
    {
        let mut steps = Vec::new(alloc);
        self.plan(alloc, template, wanted, &mut steps)?;
        let mut templates = self.build(alloc, steps)?;
        match templates.pop() {
            Some(template) => Ok(template),
            None => Err(Fault::Dynamic),
        }
    }

    /// The templates that steps leave.
    #[cycle(building)]
    fn build(&self, alloc: Global, steps: Vec<Step>) -> Result<Vec<Template>, Fault>
        ensures { GivesBy (λ templates. templates.items) (after_steps (read_by self.now) steps.items []) result }
    {
        let mut templates = Vec::new(alloc);
        for step in steps {
            self.advance(alloc, step, &mut templates)?;
        }
        Ok(templates)
    }

    /// What a step makes of the templates so far.
    #[cycle(building)]
    fn advance(&self, alloc: Global, step: Step, templates: &mut Vec<Template>) -> Result<(), Fault>
        ensures { Builds (after_step (read_by self.now) step templates.old.items) templates.new.items result }
    {
        let template = match step {
            Step::Plain(pattern) => plain(pattern),
            Step::Call(at, values) => self.called(alloc, at, values.as_slice())?,
            Step::Complement(count) => plain(Pattern::Complement(gather(templates, count)?)),
            Step::List(count) => plain(Pattern::List(gather(templates, count)?)),
            Step::Record(at, count) => plain(Pattern::Record(at, gather(templates, count)?)),
            Step::Ifpresent => {
                let Some(last) = templates.pop() else {
                    return Err(Fault::Dynamic);
                };
                Template {
                    pattern: last.pattern,
                    ifpresent: true,
                }
            }
        };
        templates.push(template)?;
        Ok(())
    }

    /// What a template of the module gives with these arguments.
    #[cycle(building)]
    fn called(&self, alloc: Global, at: usize, values: &[Value]) -> Result<Template, Fault>
        ensures { Gives ((read_by self.now).templates at values.now) result }
    {
        let Some(depth) = self.depth.checked_sub(1) else {
            return Err(Fault::Dynamic);
        };
        let Some(template) = self.frame.definitions.template(at) else {
            return Err(Fault::Dynamic);
        };
        let reader = Reader {
            frame: self.frame,
            visible: Visible::Parameters(template.parameters.as_slice(), values),
            depth,
            constants: &[],
        };
        let wanted = self.frame.definitions.resolved(&template.type_name);
        reader.template(alloc, template.template.get(), wanted)
    }
}
