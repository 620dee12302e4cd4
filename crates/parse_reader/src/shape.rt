//! What a template's body is read as.
ghost use Rattle.std.specs.Prelude.{◌≡◌};
ghost use Rattle.parse_reader.specs.internal.Templates as spec;
ghost use Rattle.parse_reader.specs.Trees.{template_of};

use ttcn_syntax::{Expr, Template, TemplateBody};

/// The body of a template: an expression, or anything else.
#[derive(Drop)]
pub enum Shape {
    Expr(Expr),
    Pattern(TemplateBody),
}

impl Shape {
    /// The template with this body.
    pub fn into_template(self, ifpresent: bool) -> Template
        ensures { result ≡ template_of (spec.body_of self) ifpresent }
    {
        let body = match self {
            Shape::Expr(expr) => TemplateBody::Expr(expr),
            Shape::Pattern(body) => body,
        };
        Template { body, ifpresent }
    }
}
