//! Templates (section 15).
use crate::{Boxed, Call, Expr, Name, Seq, TypeName};

/// A template: its body, and whether `ifpresent` stands behind it.
#[cycle(template)]
#[derive(PartialEq, Eq)]
pub struct Template {
    pub body: TemplateBody,
    pub ifpresent: bool,
}

impl Drop for Template {
    #[cycle(drop_template)]
    fn drop(self) {
        let Template {
            body: _body,
            ifpresent: _ifpresent,
        } = self;
    }
}

#[cycle(template)]
#[derive(Drop, PartialEq, Eq)]
pub enum TemplateBody {
    /// `?`
    Any,
    /// `*`
    AnyOrOmit,
    Omit,
    Complement(Seq<Template>),
    /// `(1, 2)`
    List(Seq<Template>),
    /// `(1 .. infinity)`
    Range(Bound, Bound),
    /// A named template with its arguments.
    Call(Call),
    Expr(Expr),
    /// `{ 1, ? }`: the fields by their order.
    Listed(Seq<Template>),
    /// `{ f := 1, g := ? }`: the fields by their names.
    Assigned(Seq<FieldTemplate>),
}

/// A field of a record template.
#[cycle(template)]
#[derive(Drop, PartialEq, Eq)]
pub struct FieldTemplate {
    pub name: Name,
    pub template: Template,
}

/// An end of a range. An infinite one bounds nothing, whatever its sign.
#[derive(PartialEq, Eq)]
pub enum Bound {
    Expr(Expr),
    Infinity,
}

impl Drop for Bound {
    fn drop(self) {
        match self {
            Bound::Expr(_expression) => {}
            Bound::Infinity => {}
        }
    }
}

/// The template of a message, with its type where the text names it.
#[derive(PartialEq, Eq)]
pub struct MessageTemplate {
    pub type_name: Option<TypeName>,
    pub template: Boxed<Template>,
}

impl Drop for MessageTemplate {
    fn drop(self) {
        let MessageTemplate {
            type_name: _type_name,
            template: _template,
        } = self;
    }
}
