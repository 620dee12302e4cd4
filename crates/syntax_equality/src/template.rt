//! Templates.
use crate::Exact;
use ttcn_syntax::{Bound, FieldTemplate, MessageTemplate, Template, TemplateBody};

impl Exact for Bound {
    ghost use Rattle.syntax_equality.specs.Templates.{bound_one};

    ghost exact = { bound_one };
}

impl Exact for TemplateBody {
    ghost use Rattle.syntax_equality.specs.Templates.{body_one};

    ghost exact = { body_one };
}

impl Exact for FieldTemplate {
    ghost use Rattle.syntax_equality.specs.Templates.{field_one};

    ghost exact = { field_one };
}

impl Exact for Template {
    ghost use Rattle.syntax_equality.specs.Templates.{template_one};

    ghost exact = { template_one };
}

impl Exact for MessageTemplate {
    ghost use Rattle.syntax_equality.specs.Templates.{message_one};

    ghost exact = { message_one };
}
