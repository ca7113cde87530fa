// A recipe and the arguments of its call.

ghost use Rattle.std.specs.Prelude.{◌<◌};

use crate::recipes::RECIPE;
use crate::recipes::hosts::ReportingHost;
use crate::recipes::texts::{owned, push};
use just_case_reader::token::name;
use just_eval::evaluator::Evaluator;
use just_host::execution_context::ExecutionContext;
use just_syntax::expression::Expression;
use just_syntax::number::Number;
use just_syntax::parameter::Parameter;
use just_syntax::parameter_kind::ParameterKind;
use just_syntax::recipe::Recipe;
use just_value::check_fault::CheckFault;
use just_value::error::Error;
use just_value::scope::Scope;
use just_value::value::Value;
use std::alloc::Global;
use std::cell::RefCell;
use std::collections::BTreeMap;
use std::process::Abort;

/// A recipe, its parameters and arguments, whether it runs as a dependency, and the check of its values.
#[derive(Drop)]
pub(crate) struct Called<'src> {
    pub(crate) arguments: Vec<Value>,
    pub(crate) check: Check,
    // What was checked: each parameter and its value, in order.
    checked: RefCell<String>,
    pub(crate) is_dependency: bool,
    pub(crate) parameters: Vec<Parameter<'src>>,
    pub(crate) recipe: Recipe<'src>,
}

/// The scope of a recipe's lines, its words and its environment, or the refusal.
pub(crate) type Given<'src, 'run> = Result<
    (Scope<'src, 'run>, Vec<String>, BTreeMap<String, String>),
    Error<'src>,
>;

impl<'src> Called<'src> {
    /// A recipe with no attribute and no parameter.
    pub(crate) fn new(alloc: Global) -> Called<'src> {
        Called {
            arguments: Vec::new(alloc),
            check: Check::RefusesNo,
            checked: RefCell::new(String::new(alloc)),
            is_dependency: false,
            parameters: Vec::new(alloc),
            recipe: Recipe::new(alloc, name(RECIPE)),
        }
    }

    /// Adds a parameter and its argument.
    pub(crate) fn push(&mut self, rt: &impl Abort, parameter: Parameter<'src>, argument: Value) {
        push(rt, &mut self.arguments, argument);
        push(rt, &mut self.parameters, parameter);
    }

    /// What was checked: each parameter and its value, in order.
    pub(crate) fn checked(&self, rt: &impl Abort, alloc: Global) -> String {
        match self.checked.try_borrow() {
            Ok(checked) => owned(rt, alloc, &checked),
            Err(_) => panic!(rt; "a check goes on"),
        }
    }

    /// Evaluates the attributes and the parameters in the scope of a context.
    pub(crate) fn evaluate<'run>(
        &self,
        alloc: Global,
        host: &mut ReportingHost,
        context: &ExecutionContext<'src, 'run>,
    ) -> Given<'src, 'run>
        requires may_call { 0 < context.now.recursion_limit }
    {
        let way = self.check;
        let checked = &self.checked;
        let check = |recipe: &Recipe, parameter: &Parameter, value: &Value| {
            report_checked(checked, recipe, parameter, value)?;
            way.check(alloc, value)
        };
        Evaluator::evaluate_parameters(
            alloc,
            host,
            &check,
            &self.arguments,
            context,
            self.is_dependency,
            &self.parameters,
            &self.recipe,
            context.scope,
        )
    }
}

/// A parameter with this number, and a default if one is given.
pub(crate) fn parameter<'src>(
    lexeme: &'src str,
    number: u64,
    default: Option<Expression<'src>>,
) -> Parameter<'src> {
    let mut parameter = Parameter::new(name(lexeme), Number::new(number), ParameterKind::Singular);
    parameter.default = default;
    parameter
}

/// A check of values.
#[derive(Clone, Copy)]
pub(crate) enum Check {
    /// It refuses the one text `no`.
    RefusesNo,
    /// It refuses each value.
    RefusesAll,
    /// It runs out of memory.
    OutOfMemory,
}

impl Check {
    // Checks a value. The message of a refusal is `no`.
    fn check(self, alloc: Global, value: &Value) -> Result<(), CheckFault> {
        match self {
            Check::RefusesNo if !is_no(value) => Ok(()),
            Check::OutOfMemory => Err(CheckFault::OutOfMemory),
            _ => Err(refused(alloc)),
        }
    }
}

// Reports what is checked: a parameter of the recipe, and its value.
fn report_checked(
    checked: &RefCell<String>,
    recipe: &Recipe,
    parameter: &Parameter,
    value: &Value,
) -> Result<(), CheckFault> {
    let name = parameter.name;
    let Ok(mut reported) = checked.try_borrow_mut() else {
        return Err(CheckFault::OutOfMemory);
    };
    let reported_all = if recipe.name() == RECIPE {
        write!(reported, "{name} = {value};")
    } else {
        write!(reported, "another recipe;")
    };
    match reported_all {
        Ok(()) => Ok(()),
        Err(_) => Err(CheckFault::OutOfMemory),
    }
}

fn is_no(value: &Value) -> bool {
    match value.elements() {
        [text] => text.as_str() == "no",
        _ => false,
    }
}

fn refused(alloc: Global) -> CheckFault {
    match String::from_str(alloc, "no") {
        Ok(message) => CheckFault::Refused(message),
        Err(_) => CheckFault::OutOfMemory,
    }
}
