// Whether what is evaluated for a recipe is resolved.

ghost use Rattle.std.specs.Prelude.{IfOk, IsTrue, map, ◌↔◌};
ghost use Rattle.just_resolution.specs.Prelude.{AllKnown, AreApart, IsResolvedWith, assignment_view, attributes_of};
ghost use Rattle.just_resolution.specs.Prelude.{expressions_view, frames_view, functions_view, recipe_parameter_view};

use crate::here::{are_parameters_apart, are_readable_here};
use crate::known::bodies_fault;
use just_host::execution_context::ExecutionContext;
use just_syntax::expression::Expression;
use just_syntax::out_of_memory::OutOfMemory;
use just_syntax::parameter::Parameter;
use just_syntax::recipe::Recipe;
use just_value::scope::Scope;
use std::alloc::Global;

/// Whether what is evaluated for a recipe is resolved: the attributes of `recipe`, if one is given, these parameters,
/// and these expressions (those of lines, for example). If it is, their meaning does not depend on the pending calls.
///
/// - The numbers of all assignments of the context's module, of all parameters of its functions and of these parameters
///   are distinct, and neither `scope` nor the context's scope binds one of a parameter.
/// - Each variable in what is evaluated, and in a function's body, has a number, and each called name takes as many
///   arguments as the call has.
/// - What an attribute or an expression reads by itself is bound in `scope`. What a parameter's default or value reads
///   is bound there or among the earlier parameters. What a reached body reads is its own parameter or bound in the
///   context's scope.
///
/// Each expression and each body is scanned a bounded number of times. The vector of expressions is consumed.
///
/// # Errors
///
/// `OutOfMemory` if an allocation fails: nothing is decided, and `expressions` is consumed all the same.
pub fn resolved_here<'src, 'a, 'run>(
    alloc: Global,
    context: &'a ExecutionContext<'src, 'run>,
    scope: &'a Scope<'src, 'run>,
    recipe: Option<&'a Recipe<'src>>,
    parameters: &'a [Parameter<'src>],
    expressions: Vec<&'a Expression<'src>>,
) -> Result<bool, OutOfMemory>
    ensures exact { IfOk result (λ answer. IsTrue answer ↔ IsResolvedWith context.now (frames_view scope.now)
        (attributes_of recipe.entry) (map recipe_parameter_view parameters.now)
        (expressions_view expressions.entry.items)) }
{
    if !are_apart_and_known(alloc, context, scope, parameters)? {
        return Ok(false);
    }
    are_readable_here(alloc, context, scope, recipe, parameters, expressions)
}

// Whether the numbers of the module and of these parameters do not clash, and each variable and each call in a body is
// known.
fn are_apart_and_known<'src, 'run>(
    alloc: Global,
    context: &ExecutionContext<'src, 'run>,
    scope: &Scope<'src, 'run>,
    parameters: &[Parameter<'src>],
) -> Result<bool, OutOfMemory>
    ensures { let module_now = context.now.«module».now in let functions = functions_view module_now in
        IfOk result (λ answer. IsTrue answer
        ↔ (AreApart functions (map assignment_view module_now.assignments) (frames_view context.now.scope.now)
        (frames_view scope.now) (map recipe_parameter_view parameters.now)
        × AllKnown functions (map (λ f. f.body) functions))) }
{
    let module = context.module;
    if !are_parameters_apart(alloc, module, scope, context.scope, parameters)? {
        return Ok(false);
    }
    Ok(bodies_fault(alloc, &module.functions)?.is_none())
}
