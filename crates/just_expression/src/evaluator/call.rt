// Evaluates calls.

ghost use Rattle.std.specs.Prelude.{Some, length, option_copied, ◌≡◌};
ghost use Rattle.just_expression.specs.Prelude.{Entered, HasTexts, IsExpected, RunsTo, built_in_call, called, callee};
ghost use Rattle.just_expression.specs.Prelude.{context_of, deeper, dynamic, eval, function_named, function_view};
ghost use Rattle.just_expression.specs.Prelude.{inside, meaning, name_view, note, program, row, situation, value_in};
ghost use Rattle.just_expression.specs.Prelude.{view};

use super::ExpressionEvaluator;
use crate::builtin;
use crate::callee::{Callee, resolve_callee};
use crate::parameters::called_scope;
use just_builtins::function::Function;
use just_host::execution_context::ExecutionContext;
use just_host::function::Context;
use just_host::host::Host;
use just_syntax::expression::Expression;
use just_syntax::function_definition::FunctionDefinition;
use just_syntax::name::Name;
use just_syntax::stack;
use just_value::const_error::ConstError;
use just_value::error::Error;
use just_value::scope::Scope;
use just_value::value::Value;
use std::alloc::Global;

// The part of `stack::BODY` that arguments nest on too: Rattle's own compiler inlines the function that enters a body
// into the one that evaluates the arguments.
const ENTRY: usize = 512;

// What is left of `stack::BODY` for the body alone.
const REST_OF_BODY: usize = stack::BODY - ENTRY;

// What a call that is an argument uses around its parts beside `ENTRY`. It is less than `stack::CALL`, since the
// argument's own frame is left out.
const NESTED: usize = 672;

impl<'src, 'run, 'here> ExpressionEvaluator<'src, 'run, 'here> {
    // The value of a call. The arguments are evaluated first, and then the callee.
    #[cycle(evaluate)]
    #[inline(never)]
    pub(crate) fn evaluate_call<H: Host>(
        &self,
        alloc: Global,
        host: &mut H,
        name: &Name<'src>,
        arguments: &[Expression<'src>],
        budget: usize,
    ) -> Result<Value, Error<'src>>
        ensures { let t = name_view name.now in let p = program self.now in
            RunsTo self.now H.step host.old
            (note (Entered t) (called p t (callee p.functions t.lexeme) (deeper self.now) (situation self.now)
            (length arguments.now) (row self.now arguments.now))) result host.new }
    {
        let Some(context) = self.context else {
            return Err(Error::Const(ConstError::FunctionCall(*name)));
        };
        if budget < ENTRY {
            return Err(Error::OutOfMemory);
        }
        let budget = budget - ENTRY;
        let callee = resolve_callee(alloc, context, name, self.calls_left, arguments.len())?;
        let mut values = Vec::with_capacity(alloc, arguments.len())?;
        for argument in arguments {
            let value = self.evaluate_argument(alloc, host, argument, budget)?;
            if !callee.takes(values.len(), &value) {
                return builtin::refuse_list(name, value);
            }
            values.push(value)?;
        }
        match callee {
            Callee::BuiltIn(function) => {
                self.evaluate_builtin_function(alloc, host, context, name, function, values)
            }
            Callee::Defined(function, calls_left) => {
                self.evaluate_defined_function(alloc, host, function, calls_left, values, budget)
            }
        }
    }

    // The value of an argument. A call is evaluated at once, and this is inlined, so that calls which nest in arguments
    // take one frame each.
    #[cycle(evaluate)]
    #[inline(always)]
    fn evaluate_argument<H: Host>(
        &self,
        alloc: Global,
        host: &mut H,
        argument: &Expression<'src>,
        budget: usize,
    ) -> Result<Value, Error<'src>>
        ensures { RunsTo self.now H.step host.old (meaning self.now (view argument.now)) result host.new }
    {
        match argument {
            Expression::Call { arguments, name } if stack::FORM <= budget => {
                self.evaluate_call(alloc, host, name, arguments, budget - NESTED)
            }
            _ => self.evaluate_value(alloc, host, argument, budget),
        }
    }

    // The value of a function's body, one call deeper, with its parameters bound to as many values. It is entered after
    // the arguments, so that they nest without its frame.
    #[cycle(evaluate)]
    #[inline(never)]
    fn evaluate_defined_function<H: Host>(
        &self,
        alloc: Global,
        host: &mut H,
        function: &FunctionDefinition<'src>,
        calls_left: usize,
        values: Vec<Value>,
        budget: usize,
    ) -> Result<Value, Error<'src>>
        requires count { length function.now.parameters.items ≡ length values.items }
        ensures { let p = program self.now in let f = function_view function.now in let s = situation self.now in
            RunsTo self.now H.step host.old (eval p (dynamic p calls_left) (inside (value_in s.below) s f values.items)
            f.body) result host.new }
    {
        if budget < REST_OF_BODY {
            return Err(Error::OutOfMemory);
        }
        let budget = budget - REST_OF_BODY;
        let scope = called_scope(alloc, &function.parameters, values, self.below)?;
        let evaluator = (&*self).in_body(calls_left, &scope);
        evaluator.evaluate_value(alloc, host, &function.body, budget)
    }

    // An evaluator of a body in a scope, with this many further calls.
    fn in_body<'body>(
        &'body self,
        calls_left: usize,
        inner: &'body Scope<'src, 'body>,
    ) -> ExpressionEvaluator<'src, 'run, 'body>
        ensures { result ≡ record self.now { calls_left = calls_left; scope = inner.entry; below = inner.entry } }
    {
        ExpressionEvaluator {
            context: self.context,
            calls_left,
            env: self.env,
            is_dependency: self.is_dependency,
            lists: self.lists,
            non_const_assignments: self.non_const_assignments,
            recipe: self.recipe,
            scope: inner,
            below: inner,
        }
    }

    // What a built-in function returns here.
    #[inline(never)]
    fn evaluate_builtin_function<H: Host>(
        &self,
        alloc: Global,
        host: &mut H,
        context: &ExecutionContext<'src, 'run>,
        name: &Name<'src>,
        function: Function,
        values: Vec<Value>,
    ) -> Result<Value, Error<'src>>
        requires here { context_of self.now ≡ Some context.now }
        requires named { function_named (name_view name.now).lexeme ≡ Some function }
        requires count { IsExpected function (length values.items) }
        requires texts { HasTexts function values.items }
        ensures { RunsTo self.now H.step host.old (built_in_call (program self.now) (situation self.now)
            (name_view name.now) function values.items) result host.new }
    {
        let context = self.function_context(context, name);
        builtin::call(alloc, host, &context, function, &values)
    }

    // The context in which a built-in function of this name is called here.
    fn function_context<'call>(
        &'call self,
        context: &'call ExecutionContext<'src, 'run>,
        name: &Name<'src>,
    ) -> Context<'src, 'call>
        ensures { result ≡ record {
          env = self.now.env;
          execution_context = context.entry;
          is_dependency = self.now.is_dependency;
          name = name.now;
          recipe = option_copied self.now.recipe;
          scope = self.now.scope;
        } }
    {
        Context {
            env: self.env,
            execution_context: context,
            is_dependency: self.is_dependency,
            name: *name,
            recipe: self.recipe.copied(),
            scope: self.scope,
        }
    }
}
