//! Laws of assembly text: each function's contract is the law.

ghost use Rattle.std.specs.Prelude.{◌≡◌, ◌<◌, ◌^◌, ℕ, ℤ, List, length, Option, Some, Ok, FitsSigned};
ghost use Rattle.std.specs.Fmt.{decimal, signed_decimal};
ghost use Rattle.std.specs.Int.{w32};
ghost use Rattle.std.specs.List.{AllByRecursion};
ghost use Rattle.tp_decode.specs.Table.{entry, functions, operations};
ghost use Rattle.tp_image.specs.Image.{ImageValue};
ghost use Rattle.tpw_asm.specs.declared.program.Program.{Program};
ghost use Rattle.tpw_asm.specs.Assembly.{IsAssembly};
ghost use Rattle.tpw_asm.specs.Labelling.{IsDisassembly};
ghost use Rattle.tpw_text.specs.declared.remarks.Remarks.{Remarks};
ghost use Rattle.tpw_text.specs.declared.fault.SourceFault.{SourceFault};
ghost use Rattle.tpw_text.specs.Faults.{IsRefusal, out_of_memory};
ghost use Rattle.tpw_text.specs.Names.{function_named, operation_named};
ghost use Rattle.tpw_text.specs.Numbers.{natural_said, signed_said};
ghost use Rattle.tpw_text.specs.Programs.{ProgramSaid, SourceSaid, program_said};
ghost use Rattle.tpw_text.specs.Texts.{source_of};
ghost use Rattle.tpw_text.specs.Written.{text_of};
ghost use Rattle.tpw_text_laws.specs.Conditions.{HasOperand, MayBeWritten};
ghost use Rattle.tpw_text_laws.specs.Sources.{IsSource};

/// A natural number of 32 bits is read as it is written in decimal.
#[tactic(auto, using(crate::proofs::ReadNumbers::natural_back))]
pub fn natural_number_is_read_back()
    ensures { (n : ℕ) → n < 2 ^ 32 → natural_said (decimal n) ≡ Some n }
{}

/// A signed number of 32 bits is read as it is written in decimal.
#[tactic(auto, using(crate::proofs::ReadNumbers::signed_back))]
pub fn signed_number_is_read_back()
    ensures { (z : ℤ) → FitsSigned w32 z → signed_said (signed_decimal z) ≡ Some z }
{}

/// An operation is read by its name in the instruction table.
pub fn operation_is_read_by_its_name()
    ensures { AllByRecursion (λ i. operation_named (entry i).name ≡ Some i) operations }
{}

/// A function with an operand of its own is read by its name in the instruction table, whatever the operand.
pub fn function_is_read_by_its_name()
    ensures { (n : ℤ) → AllByRecursion (λ i. function_named (entry i).name ≡ Some (entry i).function) (functions n) }
{}

/// The text of a program that may be written, with any remarks or none, is read back as that program, with the labels
/// of the places that it names. So reading it is refused for want of memory alone.
pub fn written_program_is_read_back()
    ensures read { (p : ProgramSaid) (remarks : Option Remarks) → MayBeWritten p →
        (source : SourceSaid) × (source_of (text_of p remarks) ≡ Ok source) × IsSource p remarks source }
    ensures refused { (p : ProgramSaid) (remarks : Option Remarks) → MayBeWritten p →
        (e : SourceFault) → IsRefusal (source_of (text_of p remarks)) e → e ≡ out_of_memory }
{}

/// Each line of a program that a text says has its position.
pub fn each_line_has_its_position()
    ensures { (text : List ℕ) (source : SourceSaid) → source_of text ≡ Ok source →
        length source.positions ≡ length source.program.lines }
{}

/// A program that has an image may be written, where its operands have 32 bits, as each `i32` has.
pub fn program_with_an_image_may_be_written()
    ensures { (program : Program) (image : ImageValue) → IsAssembly program image →
        AllByRecursion HasOperand program.lines.items → MayBeWritten (program_said program) }
{}

/// The program of an image is read back from its text, with any remarks or none, and a program that says the same is
/// assembled to that image again.
pub fn disassembled_image_is_read_back()
    ensures { (image : ImageValue) (program : Program) (remarks : Option Remarks) →
        IsDisassembly image program → IsAssembly program image →
        (source : SourceSaid) × (source_of (text_of (program_said program) remarks) ≡ Ok source)
        × IsSource (program_said program) remarks source
        × ((again : Program) → program_said again ≡ source.program → IsAssembly again image) }
{}
