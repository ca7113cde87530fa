// Numbers by their names.

ghost use Rattle.std.specs.Prelude.{IfOk, OnOk, [], None, Some, bytes_eq, if◌then◌else◌, map, ℕ, List, ◌++◌, ◌∷◌};
ghost use Rattle.std.specs.Prelude.{◌≡◌};
ghost use Rattle.std.specs.Option.{option_or};
ghost use Rattle.just_resolve.specs.Prelude.{assignment_view, bound_names, first_named, frame_names, frame_view};
ghost use Rattle.just_resolve.specs.Prelude.{frames_view, name_number, name_view, number_in, parameter_named};
ghost use Rattle.just_resolve.specs.Prelude.{parameter_view, variable_named, visible};

use just_host::justfile::Justfile;
use just_resolution::numbers::assignment_numbers;
use just_syntax::name::Name;
use just_syntax::number::Number;
use just_syntax::out_of_memory::OutOfMemory;
use just_value::frame::Frame;
use just_value::scope::Scope;
use std::alloc::Global;
use std::collections::BTreeMap;

/// Numbers by their names: those of parameters, and those of variables, which parameters hide.
#[derive(Drop)]
pub struct Names<'src> {
    parameters: BTreeMap<&'src str, Number>,
    variables: BTreeMap<&'src str, Number>,
}

impl<'src> Names<'src> {
    /// The names that the expressions of a module's recipes and settings can read: those of its assignments and, if no
    /// assignment has the name, those that `outer` binds, the innermost first. It has no parameters yet.
    ///
    /// ```rust
    /// resolve(alloc, &mut module, &outer)?;
    /// let names = Names::of(alloc, &module, &outer)?;
    /// let shell = numbered(&shell, &names)?;
    /// ```
    ///
    /// # Errors
    ///
    /// `OutOfMemory`, if an allocation fails: nothing is created.
    pub fn of(
        alloc: Global,
        module: &Justfile<'src>,
        outer: &Scope<'src, '_>,
    ) -> Result<Names<'src>, OutOfMemory>
        ensures named { IfOk result (λ names. (t : List ℕ) → name_number names t
            ≡ first_named (visible (map assignment_view «module».now.assignments) (frames_view outer.now)) t) }
        ensures parameters { IfOk result (λ names. (t : List ℕ) → parameter_named names t ≡ None) }
    {
        let variables = assignment_numbers(alloc, &module.assignments)?;
        Names::new(alloc, &variables, outer)
    }

    // The names of variables and, if none has the name, those that a scope binds.
    pub(crate) fn new(
        alloc: Global,
        variables: &[(Name<'src>, Number)],
        outer: &Scope<'src, '_>,
    ) -> Result<Names<'src>, OutOfMemory>
        ensures named { IfOk result (λ names. (t : List ℕ) → name_number names t
            ≡ first_named (map parameter_view variables.now ++ bound_names (frames_view outer.now)) t) }
        ensures variables { IfOk result (λ names. (t : List ℕ) → variable_named names t ≡ name_number names t) }
        ensures parameters { IfOk result (λ names. (t : List ℕ) → parameter_named names t ≡ None) }
    {
        let mut all = BTreeMap::new(alloc);
        add_pairs(&mut all, variables)?;
        add_scope(alloc, &mut all, outer)?;
        Ok(Names {
            parameters: BTreeMap::new(alloc),
            variables: all,
        })
    }

    /// Replaces the parameters by these, each a name and its number. If several have one name, the first counts.
    ///
    /// # Errors
    ///
    /// `OutOfMemory`, if an allocation fails: some of the parameters may be missing.
    pub fn set_parameters(&mut self, parameters: &[(Name<'src>, Number)]) -> Result<(), OutOfMemory>
        ensures parameters { OnOk result ((t : List ℕ) → name_number self.new t
            ≡ option_or (first_named (map parameter_view parameters.now) t) (variable_named self.old t)) }
        ensures variables { (t : List ℕ) → variable_named self.new t ≡ variable_named self.old t }
    {
        self.parameters.clear();
        add_pairs(&mut self.parameters, parameters)
    }

    /// Removes the parameters.
    pub fn clear_parameters(&mut self)
        ensures parameters { (t : List ℕ) → parameter_named self.new t ≡ None }
        ensures variables { (t : List ℕ) → variable_named self.new t ≡ variable_named self.old t }
    {
        self.parameters.clear();
    }

    /// Adds a parameter after those that are set. If one of them has its name, that one counts.
    ///
    /// # Errors
    ///
    /// `OutOfMemory`, if an allocation fails: the parameter is not added.
    pub fn add_parameter(&mut self, name: &Name<'src>, number: Number) -> Result<(), OutOfMemory>
        ensures parameters { OnOk result ((t : List ℕ) → parameter_named self.new t
            ≡ option_or (parameter_named self.old t) (first_named ((name_view name.now, number) ∷ []) t)) }
        ensures variables { (t : List ℕ) → variable_named self.new t ≡ variable_named self.old t }
    {
        add(&mut self.parameters, name, number)
    }

    /// The number of a name, if it has one.
    pub fn get(&self, name: &str) -> Option<Number>
        ensures { result ≡ name_number self.now name.now }
    {
        match self.parameters.get(name) {
            Some(number) => Some(*number),
            None => self.variables.get(name).copied(),
        }
    }
}

// Adds the names that a scope binds, the innermost first.
fn add_scope<'src>(
    alloc: Global,
    all: &mut BTreeMap<&'src str, Number>,
    outer: &Scope<'src, '_>,
) -> Result<(), OutOfMemory>
    ensures { OnOk result ((t : List ℕ) → number_in all.new t
        ≡ option_or (number_in all.old t) (first_named (bound_names (frames_view outer.now)) t)) }
{
    add_frame(all, outer.frame())?;
    let frames = outer.outer_frames(alloc)?;
    add_frames(all, &frames)
}

// Adds the names that frames bind, the first frame first.
fn add_frames<'src>(
    all: &mut BTreeMap<&'src str, Number>,
    frames: &[&Frame<'src>],
) -> Result<(), OutOfMemory>
    ensures { OnOk result ((t : List ℕ) → number_in all.new t
        ≡ option_or (number_in all.old t) (first_named (bound_names (map (λ f. frame_view f.now) frames.now)) t)) }
{
    for frame in frames {
        add_frame(all, frame)?;
    }
    Ok(())
}

// Adds the names that a frame binds, the least number first.
fn add_frame<'src>(
    all: &mut BTreeMap<&'src str, Number>,
    frame: &Frame<'src>,
) -> Result<(), OutOfMemory>
    ensures { OnOk result ((t : List ℕ) → number_in all.new t
        ≡ option_or (number_in all.old t) (first_named (frame_names (frame_view frame.now)) t)) }
{
    for binding in frame.bindings() {
        add(all, &binding.name, binding.number)?;
    }
    Ok(())
}

// Adds names with their numbers, the first of them first.
fn add_pairs<'src>(
    all: &mut BTreeMap<&'src str, Number>,
    pairs: &[(Name<'src>, Number)],
) -> Result<(), OutOfMemory>
    ensures { OnOk result ((t : List ℕ) → number_in all.new t
        ≡ option_or (number_in all.old t) (first_named (map parameter_view pairs.now) t)) }
{
    for (name, number) in pairs {
        add(all, name, *number)?;
    }
    Ok(())
}

// Adds a name with its number, unless it has one. A name that has none is looked for once.
fn add<'src>(
    all: &mut BTreeMap<&'src str, Number>,
    name: &Name<'src>,
    number: Number,
) -> Result<(), OutOfMemory>
    ensures { OnOk result ((t : List ℕ) → number_in all.new t
        ≡ option_or (number_in all.old t) (first_named ((name_view name.now, number) ∷ []) t)) }
{
    if let Some(first) = put(all, name, number)? {
        put(all, name, first)?;
    }
    Ok(())
}

// Gives a name a number, and returns the one that it had.
fn put<'src>(
    all: &mut BTreeMap<&'src str, Number>,
    name: &Name<'src>,
    number: Number,
) -> Result<Option<Number>, OutOfMemory>
    ensures old { IfOk result (λ old. old ≡ number_in all.old name.now.token.lexeme.now) }
    ensures new { OnOk result ((t : List ℕ) → number_in all.new t
        ≡ (if bytes_eq name.now.token.lexeme.now t then Some number else number_in all.old t)) }
{
    match all.insert(name.lexeme(), number) {
        Ok(old) => Ok(old),
        Err(_) => Err(OutOfMemory),
    }
}
