// What a caller of the evaluator needs: `use just_eval::prelude::*`.

// Syntax, as a parser and a resolver give it, and tables of it.
pub use just_syntax::assignment::Assignment;
pub use just_syntax::attribute::Attribute;
pub use just_syntax::attribute_set::AttributeSet;
pub use just_syntax::conditional_operator::ConditionalOperator;
pub use just_syntax::expression::Expression;
pub use just_syntax::fragment::Fragment;
pub use just_syntax::function_definition::FunctionDefinition;
pub use just_syntax::indentation::Indentation;
pub use just_syntax::interpreter::Interpreter;
pub use just_syntax::line::Line;
pub use just_syntax::list_operator::ListOperator;
pub use just_syntax::name::Name;
pub use just_syntax::number::Number;
pub use just_syntax::numerator::Numerator;
pub use just_syntax::parameter::Parameter;
pub use just_syntax::parameter_kind::ParameterKind;
pub use just_syntax::place::Place;
pub use just_syntax::recipe::Recipe;
pub use just_syntax::set::Set;
pub use just_syntax::setting::Setting;
pub use just_syntax::string_context::StringContext;
pub use just_syntax::string_literal::StringLiteral;
pub use just_syntax::table::Table;
pub use just_syntax::token::Token;
pub use just_syntax::variable_error::VariableError;
pub use just_syntax::variables::{number_of, overrides_of, references_of};

// Values, scopes, and the errors of evaluation.
pub use just_syntax::out_of_memory::OutOfMemory;
pub use just_syntax::text::Text;
pub use just_value::binding::Binding;
pub use just_value::check_fault::CheckFault;
pub use just_value::compile_error::CompileError;
pub use just_value::const_error::ConstError;
pub use just_value::const_eval_error::ConstEvalError;
pub use just_value::element::Element;
pub use just_value::error::{CommandFault, Error};
pub use just_value::expression_context::ExpressionContext;
pub use just_value::positional::Positional;
pub use just_value::scope::Scope;
pub use just_value::value::Value;

// What evaluation is given.
pub use just_host::config::Config;
pub use just_host::execution_context::{ExecutionContext, RECURSION_LIMIT};
pub use just_host::justfile::Justfile;
pub use just_host::search::Search;
pub use just_host::setting_value::SettingValue;
pub use just_host::settings::Settings;

// The host, and what it is asked.
pub use just_host::command_host::{CommandHost, Commands};
pub use just_host::command_question::CommandQuestion;
pub use just_host::directory_kind::DirectoryKind;
pub use just_host::exports::{EnvironmentChange, exports};
pub use just_host::host::{Host, STACK_BUDGET, TRIED_STACK_BUDGET};
pub use just_host::map_host::MapHost;
pub use just_host::no_host::NoHost;
pub use just_host::number_question::NumberQuestion;
pub use just_host::recorded::Recorded;
pub use just_host::recorder::Recorder;
pub use just_host::replay_host::{ReplayHost, Reply};
pub use just_host::text_answer::TextAnswer;
pub use just_host::text_question::TextQuestion;

// The built-in functions.
pub use just_builtins::function::{Function, functions, is_left_out};

// Evaluation; whether its input is resolved, and if not, why.
pub use crate::const_survey::{ConstSurvey, RefusedConstant};
pub use crate::evaluator::Evaluator;
pub use crate::steps::Steps;
pub use just_resolution::fault::Fault;
pub use just_resolution::first_fault::first_fault;
pub use just_resolution::resolved::resolved;
pub use just_resolution::resolved_const::resolved_const;
pub use just_resolution::resolved_here::resolved_here;
