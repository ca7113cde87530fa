// Prints the result of an evaluation.

ghost use Rattle.std.specs.Prelude.{OnOk, Some, codes, map, string_bytes, ◌++◌, ◌≡◌};
ghost use Rattle.std.specs.Map.{values_of};
ghost use Rattle.just_bench.specs.Prelude.{FunctionCall, binding_lines, compile_refusal, const_refusal_line};
ghost use Rattle.just_bench.specs.Prelude.{frames_view, name_view, open_line, order_line, own_frame, question_lines};
ghost use Rattle.just_bench.specs.Prelude.{quoted, recorded_view, refusal, refusal_line, value_line, with_newline};
ghost use Rattle.just_bench.specs.Prelude.{space_between};

use just_host::fault::fault_text;
use just_host::recorded::Recorded;
use just_syntax::name::Name;
use just_syntax::number::Number;
use just_syntax::out_of_memory::OutOfMemory;
use just_value::compile_error::CompileError;
use just_value::element::Element;
use just_value::error::Error;
use just_value::scope::Scope;
use just_value::value::Value;
use std::alloc::Global;

/// Adds the questions, each on a line after `? `.
pub fn print_questions(text: &mut String, questions: &[Recorded]) -> Result<(), OutOfMemory>
    ensures { OnOk result (string_bytes text.new ≡ string_bytes text.old ++ question_lines
        (map recorded_view questions.now)) }
{
    for question in questions {
        write!(text, "? {question}")?;
        text.push('\n')?;
    }
    Ok(())
}

/// Adds the line of an order: `order`, and each variable that is taken.
pub fn print_order(text: &mut String, taken: &[(&Name, Number)]) -> Result<(), OutOfMemory>
    ensures { OnOk result (string_bytes text.new ≡ string_bytes text.old
        ++ order_line (map (λ taken. name_view taken.0.now) taken.now)) }
{
    text.push_str("order")?;
    for (name, _) in taken {
        write!(text, " {name}")?;
    }
    text.push('\n')?;
    Ok(())
}

/// Adds a scope's own bindings in ascending order of number, each on a line: the name and the value.
pub fn print_bindings<'call>(
    text: &'call mut String,
    scope: &'call Scope,
) -> Result<(), OutOfMemory>
    ensures { OnOk result (string_bytes text.new ≡ string_bytes text.old ++ binding_lines
        (values_of (own_frame (frames_view scope.now)))) }
{
    for binding in scope.bindings() {
        print_value(text, &binding.name, &binding.value)?;
    }
    Ok(())
}

/// Adds the line of a variable: its name and its value.
pub fn print_value(text: &mut String, name: &Name, value: &Value) -> Result<(), OutOfMemory>
    ensures { OnOk result (string_bytes text.new ≡ string_bytes text.old ++ value_line (name_view name.now) value.now) }
{
    write!(text, "{name} = {value}")?;
    text.push('\n')?;
    Ok(())
}

/// Adds the line of a variable whose value is open.
pub fn print_open(text: &mut String, name: &Name) -> Result<(), OutOfMemory>
    ensures { OnOk result (string_bytes text.new ≡ string_bytes text.old ++ open_line (name_view name.now)) }
{
    writeln!(text, "{name} open")?;
    Ok(())
}

/// Adds a line with the reason why assignments were refused before any run.
pub fn print_const_refusal(text: &mut String, refusal: &CompileError) -> Result<(), OutOfMemory>
    ensures { OnOk result (string_bytes text.new ≡ string_bytes text.old ++ const_refusal_line
        (compile_refusal refusal.now)) }
{
    match refusal {
        CompileError::ConstEval { error, .. } => writeln!(text, "refused: {error}")?,
        CompileError::OutOfMemory => text.push_str("refused: OutOfMemory\n")?,
    }
    Ok(())
}

/// Adds the line of a refusal: its number and name, and its message.
pub fn print_refusal(alloc: Global, text: &mut String, error: &Error) -> Result<(), OutOfMemory>
    ensures { OnOk result (string_bytes text.new ≡ string_bytes text.old ++ refusal_line (refusal error.now)) }
{
    match error {
        Error::Assert { message, .. } => print_said(text, "1 Assert", message)?,
        Error::Backtick { output_error, .. } => {
            let fault = fault_text(alloc, output_error)?;
            print_said(text, "2 Backtick", &fault)?;
        }
        Error::Check { message, .. } => print_said(text, "13 Check", message)?,
        Error::Const(_) => writeln!(text, "refused 3 Const")?,
        Error::EmptyListArgument { parameter, recipe } => {
            writeln!(text, "refused 4 EmptyListArgument {parameter} {recipe}")?;
        }
        Error::FunctionCall { function, message } => print_fault(text, function, message)?,
        Error::Internal { message, .. } => print_said(text, "6 Internal", message)?,
        Error::LeftOut { function } => writeln!(text, "refused 7 LeftOut {function}")?,
        Error::LeftOutRegex { .. } => writeln!(text, "refused 8 LeftOutRegex")?,
        Error::ListInStringContext { value, .. } => {
            writeln!(text, "refused 9 ListInStringContext {value}")?;
        }
        Error::ListOperation {
            lhs,
            operator,
            rhs,
            ..
        } => writeln!(text, "refused 10 ListOperation {lhs} {operator} {rhs}")?,
        Error::RecursionLimit { last } => writeln!(text, "refused 11 RecursionLimit {last}")?,
        Error::OutOfMemory => writeln!(text, "refused 12 OutOfMemory")?,
    }
    Ok(())
}

// Adds the line of a refusal with this number and name, and a quoted text.
fn print_said(text: &mut String, refusal: &str, said: &str) -> Result<(), OutOfMemory>
    ensures { OnOk result (string_bytes text.new ≡ string_bytes text.old ++ with_newline
        (space_between (space_between (codes "refused") refusal.now) (quoted said.now))) }
{
    let said = Element(said);
    writeln!(text, "refused {refusal} {said}")?;
    Ok(())
}

// Adds the line of a built-in function's own fault.
fn print_fault(text: &mut String, function: &Name, message: &str) -> Result<(), OutOfMemory>
    ensures { OnOk result (string_bytes text.new ≡ string_bytes text.old ++ refusal_line
        (Some (FunctionCall (name_view function.now) message.now))) }
{
    let function = function.lexeme();
    let message = Element(message);
    writeln!(text, "refused 5 FunctionCall {function} {message}")?;
    Ok(())
}
