//! Laws about the encoding of steps.
ghost use Rattle.sat_base.specs.steps.Formats.{IsUniquelyDecodable};
ghost use Rattle.std.specs.Prelude.{◌≡◌, ℕ, List};
ghost use Rattle.sat_base.specs.steps.Steps.{Step};
ghost use Rattle.sat_base.specs.steps.StepBytes.{step_bytes};
ghost use Rattle.sat_base.specs.steps.StepText.{SpellsStep, SpellsSteps};

/// States that no encoding of a step is a proper prefix of another encoding, and that no bytes encode two different
/// steps.
pub fn steps_have_one_form()
    ensures { IsUniquelyDecodable SpellsStep }
{}

/// States that no bytes encode two different lists of steps.
pub fn texts_are_read_one_way()
    ensures { (xs ys : List Step) (text : List ℕ) → SpellsSteps xs text → SpellsSteps ys text → xs ≡ ys }
{}

/// States that no step has two different encodings.
pub fn steps_have_one_spelling()
    ensures { (step : Step) (a b : List ℕ) → SpellsStep step a → SpellsStep step b → a ≡ b }
{}

/// States that the bytes written for a step are its only encoding.
pub fn written_steps_are_spellings()
    ensures { (step : Step) (text : List ℕ) → SpellsStep step text → text ≡ step_bytes step }
{}
