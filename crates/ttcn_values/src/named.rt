//! Things that have a name, in lists.
ghost use Rattle.std.specs.Prelude.{◌≡◌, bytes_eq};
ghost use Rattle.std.specs.List.{find, position};
ghost use Rattle.std.specs.Option.{option_map};

use ttcn_syntax::{Enumerator, Field, FieldTemplate, Name, Parameter};

/// Something that has a name.
pub(crate) trait Named {
    ghost use Rattle.std.specs.Prelude.{ℕ, List};

    ghost name_of: { Self → List ℕ };

    fn name(&self) -> &Name
        ensures { result.now ≡ Self.name_of self.now };
}

impl Named for Field {
    ghost name_of = { λ field. field.name };

    fn name(&self) -> &Name {
        &self.name
    }
}

impl Named for Enumerator {
    ghost name_of = { λ enumerator. enumerator.name };

    fn name(&self) -> &Name {
        &self.name
    }
}

impl Named for Parameter {
    ghost name_of = { λ parameter. parameter.name };

    fn name(&self) -> &Name {
        &self.name
    }
}

impl Named for FieldTemplate {
    ghost use Rattle.ttcn_syntax.specs.declared.tree.template.FieldTemplate.{out-FieldTemplate};

    ghost name_of = { λ element. (out-FieldTemplate element).name };

    fn name(&self) -> &Name {
        &self.name
    }
}

/// The first thing of a name.
pub(crate) fn first_of<'a, T: Named>(things: &'a [T], name: &Name) -> Option<&'a T>
    ensures { option_map (λ thing. thing.now) result ≡ find (λ thing. bytes_eq (T.name_of thing) name.now) things.now }
{
    things.iter().find(|thing| thing.name() == name)
}

/// The position of the first thing of a name.
pub(crate) fn position_of<T: Named>(things: &[T], name: &Name) -> Option<usize>
    ensures { result ≡ position (λ thing. bytes_eq (T.name_of thing) name.now) things.now }
{
    for (at, thing) in things.iter().enumerate() {
        if thing.name() == name {
            return Some(at);
        }
    }
    None
}
