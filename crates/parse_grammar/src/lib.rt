//! The grammar of the language, and that a module is read exactly where the grammar has one.
#![tactic(auto)]

ghost use Rattle.std.specs.Prelude.{◌≡◌, List, [], Some};
ghost use Rattle.parse_grammar.specs.Grammar.{IsModule};
ghost use Rattle.parse_reader.specs.Modules.{whole};
ghost use Rattle.ttcn_syntax.specs.declared.token.Spanned.{Spanned};
ghost use Rattle.ttcn_syntax.specs.declared.tree.definition.Module.{Module};

use ttcn_syntax::Spanned;

/// What is read of tokens as a module is spelled by them, and what they spell is read, to the last of them.
#[tactic(auto, using(crate::proofs::SoundDefinitions::reads_module, crate::proofs::Complete::reads_whole))]
pub fn reads_what_is_spelled(tokens: &[Spanned])
    ensures spelled { (tree : Module) (rest : List Spanned) → whole tokens.now ≡ Some (tree, rest) → IsModule tokens.now tree }
    ensures read { (tree : Module) → IsModule tokens.now tree → whole tokens.now ≡ Some (tree, []) }
{}
