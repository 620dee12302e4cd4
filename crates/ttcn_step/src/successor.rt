//! Labels with the configurations to which they lead.
use config_parts::Config;
use step_labels::Label;

/// An enabled label, and the configuration to which it leads.
#[derive(Drop)]
pub struct Successor {
    pub label: Label,
    pub config: Config,
}
