// Recipes that depend on themselves, through others too.

use crate::session::Session;
use just_parser::dependency::Dependency;
use just_parser::recipe_definition::RecipeDefinition;
use just_syntax::name::Name;
use just_syntax::out_of_memory::OutOfMemory;
use just_syntax::table::Table;
use std::alloc::Global;
use std::collections::BTreeMap;

// A recipe, and where its dependencies are in the list of all.
#[derive(Clone, Copy)]
struct Node<'src> {
    name: Name<'src>,
    state: State,
    start: usize,
    end: usize,
}

// Whether a recipe was entered, and whether it was left.
#[derive(Clone, Copy, PartialEq, Eq)]
enum State {
    New,
    Entered,
    Left,
}

// A recipe that was entered and not left, and its dependency that is looked at next.
#[derive(Clone, Copy)]
struct Step {
    node: usize,
    next: usize,
}

// A search for circles, depth first, in the order of the names.
#[derive(Drop)]
struct Search<'src> {
    nodes: Vec<Node<'src>>,
    // The place of each recipe among the nodes.
    places: BTreeMap<&'src str, usize>,
    // The recipes that were entered and not left, each a dependency of the one before it.
    steps: Vec<Step>,
    // The dependencies of all recipes.
    targets: Vec<Name<'src>>,
}

/// Reports each dependency that leads back to a recipe whose dependencies led to it. Upstream's
/// `CircularRecipeDependency`.
pub(crate) fn report_circles<'src>(
    alloc: Global,
    recipes: &Table<RecipeDefinition<'src>>,
    session: &mut Session,
) -> Result<(), OutOfMemory> {
    let mut search = Search::of(alloc, recipes)?;
    for node in 0..search.nodes.len() {
        search.enter(node)?;
        search.follow(alloc, session)?;
    }
    Ok(())
}

/// Reports those that a recipe leads to, itself among them.
pub(crate) fn report_circles_of<'src>(
    alloc: Global,
    recipes: &Table<RecipeDefinition<'src>>,
    name: &str,
    session: &mut Session,
) -> Result<(), OutOfMemory> {
    let mut search = Search::of(alloc, recipes)?;
    match search.places.get(name).copied() {
        Some(node) => {
            search.enter(node)?;
            search.follow(alloc, session)
        }
        None => Ok(()),
    }
}

impl<'src> Search<'src> {
    // A search in which no recipe was entered.
    fn of(
        alloc: Global,
        recipes: &Table<RecipeDefinition<'src>>,
    ) -> Result<Search<'src>, OutOfMemory> {
        let mut search = Search {
            nodes: Vec::new(alloc),
            places: BTreeMap::new(alloc),
            steps: Vec::new(alloc),
            targets: Vec::new(alloc),
        };
        for definition in recipes {
            search.add(definition)?;
        }
        Ok(search)
    }

    // Adds a recipe.
    fn add(&mut self, definition: &RecipeDefinition<'src>) -> Result<(), OutOfMemory> {
        let name = definition.recipe.name;
        let start = self.targets.len();
        self.add_targets(&definition.dependencies)?;
        self.add_targets(&definition.subsequents)?;
        self.places.insert(name.lexeme(), self.nodes.len())?;
        self.nodes.push(Node {
            name,
            state: State::New,
            start,
            end: self.targets.len(),
        })?;
        Ok(())
    }

    // Adds the recipes that a recipe depends on.
    fn add_targets(&mut self, dependencies: &[Dependency<'src>]) -> Result<(), OutOfMemory> {
        for dependency in dependencies {
            self.targets.push(dependency.recipe)?;
        }
        Ok(())
    }

    // Enters a recipe, if it is new.
    fn enter(&mut self, node: usize) -> Result<(), OutOfMemory> {
        if let Some(entered) = self.nodes.get_mut(node) {
            if entered.state == State::New {
                entered.state = State::Entered;
                let next = entered.start;
                self.steps.push(Step { node, next })?;
            }
        }
        Ok(())
    }

    // Follows the dependencies of the recipes that were entered, until all are left. Each turn passes a dependency or
    // leaves a recipe.
    fn follow(&mut self, alloc: Global, session: &mut Session) -> Result<(), OutOfMemory> {
        let turns = self.targets.len().saturating_add(self.nodes.len());
        for _ in 0..turns {
            match self.steps.pop() {
                Some(step) => self.turn(alloc, step, session)?,
                None => return Ok(()),
            }
        }
        Ok(())
    }

    // Passes the next dependency of a recipe, or leaves it.
    fn turn(
        &mut self,
        alloc: Global,
        step: Step,
        session: &mut Session,
    ) -> Result<(), OutOfMemory> {
        let Step { node, next } = step;
        match self.target(node, next) {
            Some(target) => {
                let next = next.saturating_add(1);
                self.steps.push(Step { node, next })?;
                self.pass(alloc, target, session)
            }
            None => {
                self.leave(node);
                Ok(())
            }
        }
    }

    // The next dependency of a recipe, if there is one.
    fn target(&self, node: usize, next: usize) -> Option<Name<'src>> {
        match self.nodes.get(node) {
            Some(node) if next < node.end => self.targets.get(next).copied(),
            _ => None,
        }
    }

    // Leaves a recipe.
    fn leave(&mut self, node: usize) {
        if let Some(left) = self.nodes.get_mut(node) {
            left.state = State::Left;
        }
    }

    // Enters a dependency, if it is new, or reports the circle that it closes.
    fn pass(
        &mut self,
        alloc: Global,
        target: Name<'src>,
        session: &mut Session,
    ) -> Result<(), OutOfMemory> {
        let Some(place) = self.places.get(target.lexeme()).copied() else {
            return Ok(());
        };
        if self.is_open(place) {
            self.report(alloc, place, target, session)
        } else {
            self.enter(place)
        }
    }

    // Whether a recipe was entered and not left.
    fn is_open(&self, place: usize) -> bool {
        match self.nodes.get(place) {
            Some(node) => node.state == State::Entered,
            None => false,
        }
    }

    // Reports a circle, which a dependency closes.
    fn report(
        &self,
        alloc: Global,
        place: usize,
        target: Name<'src>,
        session: &mut Session,
    ) -> Result<(), OutOfMemory> {
        let mut circle = String::new(alloc);
        let mut last = target;
        let mut is_inside = false;
        for step in &self.steps {
            is_inside = is_inside || step.node == place;
            if is_inside {
                if let Some(node) = self.nodes.get(step.node) {
                    last = node.name;
                    write!(circle, "{last} -> ")?;
                }
            }
        }
        if last.lexeme() == target.lexeme() {
            let error = format_args!("recipe `{last}` depends on itself");
            session.report(&error, &target.token)
        } else {
            let error = format_args!("recipe `{last}` has circular dependency `{circle}{target}`");
            session.report(&error, &target.token)
        }
    }
}
