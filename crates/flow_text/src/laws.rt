//! Laws of the definitions: each contract is a theorem, and no body does anything.

ghost use Rattle.std.specs.Prelude.{◌≡◌, ℕ, List, None};
ghost use Rattle.flow_text.specs.Text.{Reads};
ghost use Rattle.flow_text.specs.TextFaults.{text_fault};
ghost use Rattle.flow_text.specs.Picks.{EachIndexIsJudged};
ghost use Rattle.flow_text.specs.StartText.{EachStartIsJudged};
ghost use Rattle.flow_text.specs.declared.text.block.Block.{Block};

/// A text has no fault exactly where it has a reading, and it has one reading at most.
pub fn texts_have_no_fault()
    ensures is { (text : List ℕ) → text_fault text ≡ None → (blocks : List Block) × Reads text blocks }
    ensures has { (text : List ℕ) (blocks : List Block) → Reads text blocks → text_fault text ≡ None }
    ensures one { (text : List ℕ) (blocks others : List Block) → Reads text blocks → Reads text others →
        blocks ≡ others }
{}

/// A text is a start that says one thing, or has one first fault, and not both.
pub fn each_start_is_judged()
    ensures { EachStartIsJudged }
{}

/// An index names one block of a text, or has one fault, and not both.
pub fn each_index_is_judged()
    ensures { EachIndexIsJudged }
{}
