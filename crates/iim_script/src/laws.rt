//! Lemmas about scripts and their lines. The functions do nothing: their contracts are the lemmas.

ghost use Rattle.iim_script.specs.Laws.{ScriptLaws};

use iim_fields::laws::record_laws;

/// Proves the lemmas about scripts and their lines. The record has a field for each lemma.
pub fn script_laws()
    ensures { ScriptLaws }
{
    record_laws();
}
