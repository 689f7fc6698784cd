//! Laws of the language of lines, as contracts of functions with no work to do.

ghost use Rattle.std.specs.Prelude.{◌≡◌, ◌↔◌, ℕ, List, None};
ghost use Rattle.aio_base.specs.Lines.{Reads, Written, fault_of};
ghost use Rattle.aio_base.specs.declared.steps.Step.{Step};

/// A written line reads as its step and as no other.
pub fn a_written_line_reads_as_its_step_alone()
    ensures reads { (s : Step) (line : List ℕ) → Written s line → Reads s line }
    ensures alone { (s t : Step) (line : List ℕ) → Written s line → Reads t line → t ≡ s }
{}

/// At most one step reads from a line, and one does exactly where the line has no fault.
pub fn a_line_reads_as_one_step_or_has_a_fault()
    ensures one { (s t : Step) (line : List ℕ) → Reads s line → Reads t line → s ≡ t }
    ensures some { (line : List ℕ) → ((s : Step) × Reads s line) ↔ (fault_of line ≡ None) }
{}
