// Recipes.

ghost use Rattle.std.specs.Prelude.{IfErr, IfOk, OnOk, [], map, ◌++◌, ◌∷◌, ◌≡◌};
ghost use Rattle.just_syntax.specs.View.{attributes_view, name_view};
ghost use Rattle.just_parser.specs.Attributes.{args_of, recipe_attributes};
ghost use Rattle.just_parser.specs.Parsed.{IsPhraseRefused, unread};
ghost use Rattle.just_parser.specs.Phrase.{Read};
ghost use Rattle.just_parser.specs.Recipes.{bare, parts, recipe};
ghost use Rattle.just_parser.specs.View.{arg_view, recipe_definition_view, written_view};

use crate::arg_attribute::ArgAttribute;
use crate::outcome::{allocated, pushed_some};
use crate::parse_error::ParseError;
use crate::parser::Parser;
use crate::recipe_definition::RecipeDefinition;
use crate::written_attribute::WrittenAttribute;
use just_lexer::kind::TokenKind;
use just_syntax::attribute_set::AttributeSet;
use just_syntax::recipe::Recipe;
use just_syntax::results::followed;

impl<'src> Parser<'_, 'src> {
    /// A recipe after its attributes, which are moved. Its parameters have the number 0.
    #[tactic(auto, unfolding(crate::specs::Recipes::recipe))]
    pub(crate) fn recipe(
        &mut self,
        attributes: &mut Vec<WrittenAttribute<'src>>,
    ) -> Result<RecipeDefinition<'src>, ParseError<'src>>
        ensures ok { IfOk result (λ r. recipe (map written_view attributes.old.items) (unread self.old)
            ≡ Read (recipe_definition_view r) (unread self.new)) }
        ensures refused { IfErr result
            (IsPhraseRefused (recipe (map written_view attributes.old.items) (unread self.old))) }
    {
        let quiet = self.accepted(TokenKind::At)?;
        let name = self.name()?;
        let mut recipe = RecipeDefinition {
            args: Vec::new(self.alloc),
            body: Vec::new(self.alloc),
            dependencies: Vec::new(self.alloc),
            parameters: Vec::new(self.alloc),
            quiet,
            recipe: Recipe::new(self.alloc, name),
            subsequents: Vec::new(self.alloc),
        };
        let filled = self.parts_after(attributes, &mut recipe);
        followed(recipe, filled)
    }

    // The attributes of a recipe, and its parts after its name.
    fn parts_after(
        &mut self,
        attributes: &mut Vec<WrittenAttribute<'src>>,
        recipe: &mut RecipeDefinition<'src>,
    ) -> Result<(), ParseError<'src>>
        requires bare { let r = recipe_definition_view recipe.old in r ≡ bare [] r.quiet r.recipe.name }
        ensures ok { let r = recipe_definition_view recipe.old in
            OnOk result (parts (bare (map written_view attributes.old.items) r.quiet r.recipe.name) (unread self.old)
            ≡ Read (recipe_definition_view recipe.new) (unread self.new)) }
        ensures refused { let r = recipe_definition_view recipe.old in IfErr result
            (IsPhraseRefused
            (parts (bare (map written_view attributes.old.items) r.quiet r.recipe.name) (unread self.old))) }
    {
        keep_attributes(attributes, &mut recipe.args, &mut recipe.recipe.attributes)?;
        self.parts(recipe)
    }

    // The parts of a recipe after its name.
    #[tactic(auto, unfolding(crate::specs::Recipes::parts))]
    fn parts(&mut self, recipe: &mut RecipeDefinition<'src>) -> Result<(), ParseError<'src>>
        requires body { recipe.old.body.items ≡ [] }
        requires dependencies { recipe.old.dependencies.items ≡ [] }
        requires parameters { recipe.old.parameters.items ≡ [] }
        requires subsequents { recipe.old.subsequents.items ≡ [] }
        ensures ok { OnOk result (parts (recipe_definition_view recipe.old) (unread self.old)
            ≡ Read (recipe_definition_view recipe.new) (unread self.new)) }
        ensures refused { IfErr result (IsPhraseRefused (parts (recipe_definition_view recipe.old) (unread self.old))) }
    {
        self.recipe_parameters(&mut recipe.parameters)?;
        self.one(TokenKind::Colon)?;
        self.dependencies(&mut recipe.dependencies)?;
        self.subsequents(&mut recipe.subsequents)?;
        self.line_end()?;
        self.body(&mut recipe.body)
    }
}

// Moves attributes to those of a recipe, and what they say of parameters to what others say.
fn keep_attributes<'src>(
    attributes: &mut Vec<WrittenAttribute<'src>>,
    args: &mut Vec<ArgAttribute<'src>>,
    kept: &mut AttributeSet<'src>,
) -> Result<(), ParseError<'src>>
    ensures args { OnOk result (map arg_view args.new.items
        ≡ map arg_view args.old.items ++ args_of (map written_view attributes.old.items)) }
    ensures attributes { OnOk result (attributes_view kept.new
        ≡ attributes_view kept.old ++ recipe_attributes (map written_view attributes.old.items)) }
    ensures refused { IfErr result (λ refusal. refusal ≡ ParseError.OutOfMemory) }
{
    attributes.reverse();
    while let Some(attribute) = attributes.pop() {
        keep_attribute(attribute, args, kept)?;
    }
    Ok(())
}

// Moves an attribute.
fn keep_attribute<'src>(
    attribute: WrittenAttribute<'src>,
    args: &mut Vec<ArgAttribute<'src>>,
    kept: &mut AttributeSet<'src>,
) -> Result<(), ParseError<'src>>
    ensures args { OnOk result (map arg_view args.new.items
        ≡ map arg_view args.old.items ++ args_of (written_view attribute.entry ∷ [])) }
    ensures attributes { OnOk result (attributes_view kept.new
        ≡ attributes_view kept.old ++ recipe_attributes (written_view attribute.entry ∷ [])) }
    ensures refused { IfErr result (λ refusal. refusal ≡ ParseError.OutOfMemory) }
{
    let WrittenAttribute {
        arg,
        attribute,
        name,
    } = attribute;
    match followed(attribute, pushed_some(args, arg)) {
        Ok(attribute) => allocated(kept.push(attribute, name)),
        Err(refusal) => Err(refusal),
    }
}
