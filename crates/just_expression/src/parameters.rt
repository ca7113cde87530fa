// What a called function's parameters are bound to.

ghost use Rattle.std.specs.Prelude.{IfOk, OnOk, [], length, map, ◌∷◌, ◌≡◌};
ghost use Rattle.just_expression.specs.Prelude.{frames_view, parameter_view};
ghost use Rattle.just_expression.specs.Prelude.{parameters_innermost, with_parameters};

use just_syntax::name::Name;
use just_syntax::number::Number;
use just_syntax::out_of_memory::OutOfMemory;
use just_value::binding::Binding;
use just_value::scope::Scope;
use just_value::value::Value;
use std::alloc::Global;

// A child of a scope, in which parameters are bound to as many values, in order.
pub(crate) fn called_scope<'src, 'inner>(
    alloc: Global,
    parameters: &[(Name<'src>, Number)],
    values: Vec<Value>,
    outer: &'inner Scope<'src, 'inner>,
) -> Result<Scope<'src, 'inner>, OutOfMemory>
    requires count { length parameters.now ≡ length values.items }
    ensures { IfOk result (λ scope. frames_view scope ≡ with_parameters [] (map parameter_view parameters.now)
        values.items ∷ frames_view outer.now) }
{
    let mut scope = outer.child_with_capacity(alloc, parameters.len())?;
    bind_parameters(alloc, &mut scope, parameters, values)?;
    Ok(scope)
}

// Binds parameters to as many values, in order.
fn bind_parameters<'src>(
    alloc: Global,
    scope: &mut Scope<'src, '_>,
    parameters: &[(Name<'src>, Number)],
    values: Vec<Value>,
) -> Result<(), OutOfMemory>
    requires count { length parameters.now ≡ length values.items }
    ensures { OnOk result (frames_view scope.new ≡ parameters_innermost (frames_view scope.old)
        (map parameter_view parameters.now) values.items) }
{
    let mut index = 0;
    for value in values {
        let (name, number) = parameters[index];
        scope.bind(Binding::new(alloc, name, number, value))?;
        index += 1;
    }
    Ok(())
}
