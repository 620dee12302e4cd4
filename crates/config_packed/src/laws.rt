//! Laws of the bytes that spell configurations: they run no code.
ghost use Rattle.std.specs.Prelude.{◌≡◌, ℕ, ◌++◌, List, true};
ghost use Rattle.config_packed.specs.Packs.{same_bytes};
ghost use Rattle.config_packed.specs.Pieces.{SeeTheSame, ShareOutline, spell_key};
ghost use Rattle.config_packed.specs.Reading.{config_in, read_config};
ghost use Rattle.config_packed.specs.Spelling.{spell_config, spell_outline};
ghost use Rattle.config_parts.specs.declared.component.Component.{Component};
ghost use Rattle.config_parts.specs.declared.config.Config.{Config};
ghost use Rattle.config_parts.specs.declared.config.Going.{Going};

/// From the bytes that spell a configuration it is read back, whatever follows them.
#[tactic(auto, using(crate::proofs::ConfigsBack::read_config_back, crate::proofs::ConfigsBack::config_back))]
pub fn spelled_configs_are_read_back()
    ensures front { (config : Config) (rest : List ℕ) → read_config (spell_config config ++ rest) ≡ (config, rest) }
    ensures whole { (config : Config) → config_in (spell_config config) ≡ config }
{}

/// The bytes that spell a configuration spell no other one.
#[tactic(auto, using(crate::proofs::ConfigsBack::spelled_once))]
pub fn configs_are_spelled_apart()
    ensures { (a b : Config) → spell_config a ≡ spell_config b → a ≡ b }
{}

/// `==` on packed configurations is true of a configuration and itself alone.
#[tactic(auto, using(crate::proofs::ConfigsBack::same_bytes_one, crate::proofs::ConfigsBack::same_bytes_itself))]
pub fn same_bytes_are_one()
    ensures one { (a b : Config) → same_bytes a b ≡ true → a ≡ b }
    ensures itself { (a : Config) → same_bytes a a ≡ true }
{}

/// The bytes of what all components see tell what that is.
pub fn outlines_tell_what_all_see()
    ensures { (g h : Going) → spell_outline g ≡ spell_outline h → ShareOutline g h }
{}

/// The key of a component tells what it sees.
pub fn keys_tell_what_is_seen()
    ensures { (g h : Going) (at i : ℕ) (c d : Component) → spell_key g at c ≡ spell_key h i d → SeeTheSame g h at i c d }
{}
