//! The verdicts of components (ES 201 873-1, 24.1).
ghost use Rattle.std.specs.Prelude.{◌≡◌, bytes_eq};
ghost use Rattle.std.specs.List.{find};
ghost use Rattle.std.specs.Option.{option_map};
ghost use Rattle.chart_steps.specs.Stories as spec;
ghost use Rattle.config_parts.specs.Legend.{Legend, config_by};

use config_parts::{Component, Config};
use ttcn_syntax::Verdict;
use value_types::Path;

/// The component of a path, where there is one.
fn component_of<'b>(components: &'b [Component], path: &Path) -> Option<&'b Component>
    ensures { option_map (λ component. component.now) result ≡ find (λ component. bytes_eq component.itself.path.numbers path.now.numbers) components.now }
{
    components
        .iter()
        .find(|component| component.itself.path.numbers == path.numbers)
}

/// The verdict of the component with a path, if it is there: where the test case ended, the verdict of that.
pub fn verdict_at(config: &Config, path: &Path) -> Option<Verdict>
    ensures { (legend : Legend) → result ≡ spec.verdict_at (config_by legend config.now) path.now }
{
    match config {
        Config::Ended(verdict) => Some(*verdict),
        Config::Going(going) => match component_of(going.components.as_slice(), path) {
            Some(component) => Some(component.verdict),
            None => None,
        },
    }
}
