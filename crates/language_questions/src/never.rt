ghost use Rattle.std.specs.Prelude.{◌≡◌, ◌≢◌, IfErr, IfOk, Ok, Err};
ghost use Rattle.language_properties.specs.Properties.{formula_of};
ghost use Rattle.language_questions.specs.Reading.{question_of};
ghost use Rattle.language_questions.specs.declared.fault.QuestionFault.TheVariants.{NoMemory};

use crate::fault::QuestionFault;
use crate::reader::Reader;
use language_properties::Property;
use std::alloc::Global;
use tick_kinds::Program;

/// The property that a text is, by the names of a program, or its first fault. Spans are in bytes of the text.
/// A `#` ends the text.
#[tactic(auto, unfolding(crate::specs::Reading::question_of))]
pub fn never_of(alloc: Global, program: &Program, text: &str) -> Result<Property, QuestionFault>
    ensures property { IfOk result (λ property. question_of program.now text.now ≡ Ok (formula_of property)) }
    ensures fault { IfErr result (λ fault. fault ≢ NoMemory → question_of program.now text.now ≡ Err fault) }
{
    let reader = Reader {
        alloc,
        program,
        text: text.as_bytes(),
    };
    let (property, _) = reader.whole(0)?;
    Ok(property)
}
