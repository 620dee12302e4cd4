//! Laws of evaluation: constants and templates stand for what is written of them.
#![tactic(auto)]

mod laws;
mod typing;
mod uses;

pub use laws::{
    constants_stand_for_their_values, more_links_change_nothing, nothing_else_stands_so,
    templates_stand_for_their_bodies,
};
pub use typing::{
    arguments_are_given, chains_fit_their_module, expressions_are_met,
    expressions_give_their_types, fields_differ, modules_have_all, parameters_are_known,
    templates_are_met, templates_go_where_they_are_wanted, values_are_met,
    values_go_where_they_are_wanted, wanted_expressions_go,
};
pub use uses::{
    all_parameters_are_known, arguments_are_met, assignments_keep_types, components_are_given,
    conditions_are_met, references_are_given, specific_values_go,
};
