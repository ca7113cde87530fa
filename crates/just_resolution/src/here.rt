// What is evaluated for a recipe: whether its numbers clash, and whether everything is known and bound before it is
// read.

ghost use Rattle.std.specs.Prelude.{IfOk, IsTrue, [], map, ◌++◌, ◌↔◌};
ghost use Rattle.just_resolution.specs.Prelude.{AllKnown, AllReadable, AreApart, AreReadableInTurn, HasValue};
ghost use Rattle.just_resolution.specs.Prelude.{IsAdmitted, IsSameReader, MayAllOccur, MayFollowInTurn, MayOccur};
ghost use Rattle.just_resolution.specs.Prelude.{assignment_view, attribute_expressions, attributes_of};
ghost use Rattle.just_resolution.specs.Prelude.{expressions_view, frames_view, function_view, functions_view};
ghost use Rattle.just_resolution.specs.Prelude.{is_name_in, is_readable, parameter_expressions, recipe_parameter_view};
ghost use Rattle.just_resolution.specs.Prelude.{value_in, view};

use crate::admitted::first_unreadable;
use crate::expressions::{expressions_of, recipe_expressions};
use crate::known::expression_fault;
use crate::numbers::{
    add_parameter_numbers, add_recipe_numbers, assignment_numbers, number_fault, parameter_fault,
};
use crate::readable::Readable;
use just_host::execution_context::ExecutionContext;
use just_host::justfile::Justfile;
use just_syntax::expression::Expression;
use just_syntax::function_definition::FunctionDefinition;
use just_syntax::occurrence::Occurrence;
use just_syntax::out_of_memory::OutOfMemory;
use just_syntax::parameter::Parameter;
use just_syntax::recipe::Recipe;
use just_syntax::table::Table;
use just_value::scope::Scope;
use std::alloc::Global;
use std::collections::BTreeSet;

// Whether the numbers of assignments and of all parameters are distinct, and neither scope binds one of a parameter.
pub(crate) fn are_parameters_apart<'src>(
    alloc: Global,
    module: &Justfile<'src>,
    scope: &Scope<'src, '_>,
    base: &Scope<'src, '_>,
    parameters: &[Parameter<'src>],
) -> Result<bool, OutOfMemory>
    ensures { IfOk result (λ answer. IsTrue answer
        ↔ AreApart (functions_view «module».now) (map assignment_view «module».now.assignments)
        (frames_view base.now) (frames_view scope.now) (map recipe_parameter_view parameters.now)) }
{
    let mut numbers = assignment_numbers(alloc, &module.assignments)?;
    let first_parameter = numbers.len();
    add_parameter_numbers(&mut numbers, &module.functions)?;
    add_recipe_numbers(&mut numbers, parameters)?;
    let of_parameters = &numbers[first_parameter..];
    if parameter_fault(scope, of_parameters).is_some() {
        return Ok(false);
    }
    if parameter_fault(base, of_parameters).is_some() {
        return Ok(false);
    }
    Ok(number_fault(alloc, &numbers)?.is_none())
}

// Whether everything that is evaluated is known and bound before it is read.
pub(crate) fn are_readable_here<'src, 'a, 'run>(
    alloc: Global,
    context: &'a ExecutionContext<'src, 'run>,
    scope: &'a Scope<'src, 'run>,
    recipe: Option<&'a Recipe<'src>>,
    parameters: &'a [Parameter<'src>],
    expressions: Vec<&'a Expression<'src>>,
) -> Result<bool, OutOfMemory>
    ensures { let functions = functions_view context.now.«module».now in let own = value_in (frames_view scope.now) in
        let base = value_in (frames_view context.now.scope.now) in
        let attributes = attribute_expressions (attributes_of recipe.entry) in let ps =
        map recipe_parameter_view parameters.now in let es = expressions_view expressions.entry.items in
        IfOk result (λ answer. IsTrue answer ↔ (AllKnown functions (attributes ++ parameter_expressions ps ++ es)
        × AllReadable functions base (HasValue own) (attributes ++ es)
        × AreReadableInTurn functions base own [] ps)) }
{
    // Only parameters are taken, and they are few.
    let here = Readable::new(alloc, scope, 0)?;
    let bodies = Readable::new(alloc, context.scope, 0)?;
    let mut reader = Reader {
        functions: &context.module.functions,
        here,
        bodies,
        admitted: BTreeSet::new(alloc),
        occurrences: Vec::new(alloc),
        pending: Vec::new(alloc),
    };
    reader.may_occur_and_follow(alloc, recipe, parameters, expressions)
}

// What may be read, and the functions that were scanned.
#[derive(Drop)]
struct Reader<'src, 'a, 'run> {
    functions: &'a Table<FunctionDefinition<'src>>,
    // What expressions here may read by themselves.
    here: Readable<'src, 'a, 'run>,
    // What bodies may read besides their own parameters.
    bodies: Readable<'src, 'a, 'run>,
    admitted: BTreeSet<&'src str>,
    // Filled anew for each expression that is scanned.
    occurrences: Vec<Occurrence<'src, 'a>>,
    pending: Vec<&'src str>,
}

impl<'src, 'a> Reader<'src, 'a, '_> {
    // Whether an expression is known and reads only what it may.
    fn may_occur(
        &mut self,
        alloc: Global,
        expression: &'a Expression<'src>,
    ) -> Result<bool, OutOfMemory>
        requires closed { IsAdmitted (map function_view self.old.functions.now) (is_readable self.old.bodies)
            (is_name_in self.old.admitted) }
        ensures same { IsSameReader self.old self.new }
        ensures exact { IfOk result (λ answer. IsTrue answer ↔ MayOccur (map function_view self.old.functions.now)
            (is_readable self.old.here) (is_readable self.old.bodies) (view expression.now)) }
        ensures closed { IfOk result (λ answer. IsTrue answer
            → IsAdmitted (map function_view self.old.functions.now) (is_readable self.old.bodies)
            (is_name_in self.new.admitted)) }
    {
        if expression_fault(&mut self.occurrences, self.functions, expression)?.is_some() {
            return Ok(false);
        }
        let unreadable = first_unreadable(
            alloc,
            &mut self.occurrences,
            &mut self.pending,
            self.functions,
            &self.here,
            &self.bodies,
            &mut self.admitted,
            expression,
        )?;
        Ok(unreadable.is_none())
    }

    // The same for each of these expressions. The answer does not depend on the order in which they are checked.
    fn may_all_occur(
        &mut self,
        alloc: Global,
        expressions: Vec<&'a Expression<'src>>,
    ) -> Result<bool, OutOfMemory>
        requires closed { IsAdmitted (map function_view self.old.functions.now) (is_readable self.old.bodies)
            (is_name_in self.old.admitted) }
        ensures same { IsSameReader self.old self.new }
        ensures exact { IfOk result (λ answer. IsTrue answer ↔ MayAllOccur (map function_view self.old.functions.now)
            (is_readable self.old.here) (is_readable self.old.bodies) (expressions_view expressions.entry.items)) }
        ensures closed { IfOk result (λ answer. IsTrue answer
            → IsAdmitted (map function_view self.old.functions.now) (is_readable self.old.bodies)
            (is_name_in self.new.admitted)) }
    {
        let mut left = expressions;
        while let Some(expression) = left.pop() {
            if !self.may_occur(alloc, expression)? {
                return Ok(false);
            }
        }
        Ok(true)
    }

    // Whether these expressions and a recipe's attributes are known and read only what they may, and these parameters
    // only that and the earlier ones.
    fn may_occur_and_follow(
        &mut self,
        alloc: Global,
        recipe: Option<&'a Recipe<'src>>,
        parameters: &'a [Parameter<'src>],
        expressions: Vec<&'a Expression<'src>>,
    ) -> Result<bool, OutOfMemory>
        requires closed { IsAdmitted (map function_view self.old.functions.now) (is_readable self.old.bodies)
            (is_name_in self.old.admitted) }
        ensures { let functions = map function_view self.old.functions.now in let may_occur =
            MayAllOccur functions (is_readable self.old.here) (is_readable self.old.bodies) in
            IfOk result (λ answer. IsTrue answer ↔ (may_occur (attribute_expressions (attributes_of recipe.entry))
            × may_occur (expressions_view expressions.entry.items)
            × MayFollowInTurn functions (λ n. IsTrue (is_readable self.old.here n))
            (is_readable self.old.bodies) (map recipe_parameter_view parameters.now))) }
    {
        if !self.may_all_occur(alloc, expressions)? {
            return Ok(false);
        }
        let attributes = recipe_expressions(alloc, recipe)?;
        if !self.may_all_occur(alloc, attributes)? {
            return Ok(false);
        }
        self.may_follow(alloc, parameters)
    }

    // Whether the defaults and values of these parameters are known and read only what they may and the earlier
    // parameters.
    fn may_follow(
        &mut self,
        alloc: Global,
        parameters: &'a [Parameter<'src>],
    ) -> Result<bool, OutOfMemory>
        requires closed { IsAdmitted (map function_view self.old.functions.now) (is_readable self.old.bodies)
            (is_name_in self.old.admitted) }
        ensures exact { IfOk result (λ answer. IsTrue answer
            ↔ MayFollowInTurn (map function_view self.old.functions.now) (λ n. IsTrue (is_readable self.old.here n))
            (is_readable self.old.bodies) (map recipe_parameter_view parameters.now)) }
    {
        for parameter in parameters {
            let own = expressions_of(alloc, parameter)?;
            if !self.may_all_occur(alloc, own)? {
                return Ok(false);
            }
            self.here.take(parameter.number)?;
        }
        Ok(true)
    }
}
