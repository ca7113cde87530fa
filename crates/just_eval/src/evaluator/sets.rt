// Evaluation of settings.

ghost use Rattle.std.specs.Prelude.{IfErr, OnErr, map, ◌≡◌};
ghost use Rattle.just_eval.specs.Prelude.{AllResolvedOn, HasOwnToken, IsNotInternal, UnlessStopped};
ghost use Rattle.just_eval.specs.Prelude.{const_ended, const_value, expression_interpreter_view};
ghost use Rattle.just_eval.specs.Prelude.{interpreter_expressions, interpreter_view, kept, name_view, set_expressions};
ghost use Rattle.just_eval.specs.Prelude.{set_view, setting_expressions, setting_view, settings_view, stage_state_of};
ghost use Rattle.just_eval.specs.Prelude.{with_setting};
ghost use Rattle.just_meaning.specs.Settings as meant;

use super::Evaluator;
use just_expression::form;
use just_host::settings::Settings;
use just_syntax::expression::Expression;
use just_syntax::interpreter::Interpreter;
use just_syntax::name::Name;
use just_syntax::set::Set;
use just_syntax::setting::Setting;
use just_syntax::string_context::StringContext;
use just_syntax::table::Table;
use just_value::compile_error::CompileError;
use just_value::const_eval_error::ConstEvalError;
use just_value::value::Value;
use std::alloc::Global;

impl<'src, 'run> Evaluator<'src, 'run> {
    /// The settings that a module sets, evaluated by the const rules in the byte order of their names. It asks nothing.
    /// Any other setting is as in `Settings::new`. The sets are consumed. Upstream's `Evaluator::evaluate_sets`.
    ///
    /// # Errors
    ///
    /// The first refusal: those of `evaluate_value_const`; `ListInStringContext` if a single text is required;
    /// `EmptyInterpreter` if a command and its arguments have no element. `OutOfMemory` if an allocation fails, or if
    /// forms nest too deeply for the stack budget. In each case no settings are returned, and the evaluator is
    /// unchanged.
    pub fn evaluate_sets(
        &self,
        alloc: Global,
        sets: Table<Set<'src>>,
    ) -> Result<Settings, CompileError<'src>>
        ensures headline { UnlessStopped (const_ended settings_view result)
            (meant.settings (const_value (stage_state_of self.now)) (map set_view sets.entry)) }
        ensures never_internal { AllResolvedOn (stage_state_of self.now) (set_expressions (map set_view sets.entry))
            → IsNotInternal (const_ended settings_view result) }
        ensures token { IfErr result HasOwnToken }
    {
        let mut settings = Settings::new(alloc);
        for set in &sets {
            self.evaluate_set(alloc, &mut settings, set)?;
        }
        Ok(settings)
    }

    /// Evaluates one setting by the const rules, under what is settled and what is open, and stores it in `settings`.
    /// It asks nothing. So a linter learns the value of each setting, by `Settings::get`, or why it is refused:
    ///
    /// ```rust
    /// match stage.evaluate_set(alloc, &mut settings, &set) {
    ///     Ok(()) => print!(rt; "{settings}")?,
    ///     Err(error) => println!(rt; "{error}")?,
    /// }
    /// ```
    ///
    /// # Errors
    ///
    /// Those of `evaluate_sets`. The settings and the evaluator are unchanged.
    pub fn evaluate_set(
        &self,
        alloc: Global,
        settings: &mut Settings,
        set: &Set<'src>,
    ) -> Result<(), CompileError<'src>>
        ensures headline { UnlessStopped (const_ended (λ _. settings_view settings.new) result)
            (with_setting (const_value (stage_state_of self.now)) (settings_view settings.old) (set_view set.now).name
            (set_view set.now).value) }
        ensures kept { OnErr result (settings_view settings.new ≡ settings_view settings.old) }
        ensures never_internal { AllResolvedOn (stage_state_of self.now) (setting_expressions (set_view set.now).value)
            → IsNotInternal (const_ended (λ _. settings_view settings.new) result) }
        ensures token { IfErr result HasOwnToken }
    {
        self.store_set(alloc, settings, set)
    }

    // Evaluates one setting and stores it.
    fn store_set(
        &self,
        alloc: Global,
        settings: &mut Settings,
        set: &Set<'src>,
    ) -> Result<(), CompileError<'src>>
        ensures kept { OnErr result (settings_view settings.new ≡ settings_view settings.old) }
        ensures set { UnlessStopped (const_ended (λ _. settings_view settings.new) result)
            (with_setting (const_value (stage_state_of self.now)) (settings_view settings.old) (set_view set.now).name
            (set_view set.now).value) }
        ensures token { IfErr result HasOwnToken }
    {
        let context = StringContext::Setting(set.name);
        match &set.value {
            Setting::DotenvCommand(value) => {
                settings.dotenv_command = self.evaluate_value_const(alloc, value)?;
            }
            Setting::DotenvFilename(value) => {
                settings.dotenv_filename = self.evaluate_value_const(alloc, value)?;
            }
            Setting::DotenvPath(value) => {
                settings.dotenv_path = self.evaluate_value_const(alloc, value)?;
            }
            Setting::ScriptInterpreter(value) => {
                let command = self.evaluate_interpreter(alloc, value, set.name)?;
                settings.script_interpreter = Some(command);
            }
            Setting::Shell(value) => {
                settings.shell = Some(self.evaluate_interpreter(alloc, value, set.name)?);
            }
            Setting::Tempdir(value) => {
                settings.tempdir = Some(self.evaluate_string_const(alloc, value, context)?);
            }
            Setting::WindowsShell(value) => {
                settings.windows_shell = Some(self.evaluate_interpreter(alloc, value, set.name)?);
            }
            Setting::WorkingDirectory(value) => {
                let directory = self.evaluate_string_const(alloc, value, context)?;
                settings.working_directory = Some(directory);
            }
            value => keep(settings, value),
        }
        Ok(())
    }

    /// A command and its first arguments, by the const rules: the elements of all its expressions in order, the first
    /// of which is the command. It asks nothing. Upstream's `Evaluator::evaluate_interpreter`.
    ///
    /// # Errors
    ///
    /// The first refusal: those of `evaluate_value_const`; `EmptyInterpreter` if there is no element at all.
    /// `OutOfMemory` if an allocation fails, or if forms nest too deeply for the stack budget. In each case nothing is
    /// returned, and the evaluator is unchanged.
    pub fn evaluate_interpreter(
        &self,
        alloc: Global,
        interpreter: &Interpreter<Expression<'src>>,
        setting: Name<'src>,
    ) -> Result<Interpreter<String>, CompileError<'src>>
        ensures headline { UnlessStopped (const_ended interpreter_view result)
            (meant.interpreter (const_value (stage_state_of self.now)) (name_view setting.entry)
            (expression_interpreter_view interpreter.now)) }
        ensures never_internal { AllResolvedOn (stage_state_of self.now)
            (interpreter_expressions (expression_interpreter_view interpreter.now))
            → IsNotInternal (const_ended interpreter_view result) }
        ensures token { IfErr result HasOwnToken }
    {
        let mut all = self.evaluate_value_const(alloc, &interpreter.command)?;
        for argument in &interpreter.arguments {
            let value = self.evaluate_value_const(alloc, argument)?;
            all = form::extended(all, value)?;
        }
        command_of(alloc, all, setting)
    }
}

// Stores a setting that needs no evaluation.
fn keep(settings: &mut Settings, setting: &Setting)
    ensures { settings_view settings.new ≡ kept (settings_view settings.old) (setting_view setting.now) }
{
    match setting {
        Setting::AllowDuplicateRecipes(value) => settings.allow_duplicate_recipes = *value,
        Setting::AllowDuplicateVariables(value) => settings.allow_duplicate_variables = *value,
        Setting::DefaultList(value) => settings.default_list = *value,
        Setting::DefaultScript(value) => settings.default_script = *value,
        Setting::DotenvLoad(value) => settings.dotenv_load = *value,
        Setting::DotenvOverride(value) => settings.dotenv_override = *value,
        Setting::DotenvRequired(value) => settings.dotenv_required = *value,
        Setting::Export(value) => settings.export = *value,
        Setting::Fallback(value) => settings.fallback = *value,
        Setting::Guards(value) => settings.guards = *value,
        Setting::IgnoreComments(value) => settings.ignore_comments = *value,
        Setting::Indentation(_, value) => settings.indentation = Some(*value),
        Setting::Lazy(value) => settings.lazy = *value,
        Setting::Lists(value) => settings.lists = *value,
        Setting::NoCd(value) => settings.no_cd = *value,
        Setting::NoExitMessage(value) => settings.no_exit_message = *value,
        Setting::PositionalArguments(value) => settings.positional_arguments = *value,
        Setting::Quiet(value) => settings.quiet = *value,
        Setting::Unstable(value) => settings.unstable = *value,
        Setting::WindowsPowerShell(value) => settings.windows_powershell = *value,
        // The minimum version concerns the reader of the file.
        Setting::MinimumVersion(_) => {}
        // These are evaluated.
        Setting::DotenvCommand(_) | Setting::DotenvFilename(_) | Setting::DotenvPath(_) => {}
        Setting::ScriptInterpreter(_) | Setting::Shell(_) | Setting::WindowsShell(_) => {}
        Setting::Tempdir(_) | Setting::WorkingDirectory(_) => {}
    }
}

// A command and its arguments.
fn command_of<'src>(
    alloc: Global,
    elements: Value,
    setting: Name<'src>,
) -> Result<Interpreter<String>, CompileError<'src>>
    ensures command { UnlessStopped (const_ended interpreter_view result)
        (meant.command_of (name_view setting.entry) elements) }
    ensures token { IfErr result HasOwnToken }
{
    if elements.is_empty() {
        return Err(ConstEvalError::EmptyInterpreter { setting }.into_compile_error());
    }
    let mut arguments = elements.to_strings(alloc)?;
    let command = arguments.remove(0);
    Ok(Interpreter { arguments, command })
}
