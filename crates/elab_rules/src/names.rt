//! What the names of variables and items give.
ghost use Rattle.std.specs.Prelude.{◌≡◌, slice_get, ℕ};
ghost use Rattle.cdle_model.specs.Derivation.{entry};
ghost use Rattle.cdle_model.specs.Trees.{Tree, name, var};
ghost use Rattle.elab_model.specs.Questions.{limited};
ghost use Rattle.elab_model.specs.Rules.{found_term, found_type, term_name as names_term, type_name as names_type};
ghost use Rattle.elab_model.specs.SourceErasure.{Encodings};
ghost use Rattle.elab_model.specs.Spines.{known_of, spine, starting as starts};
ghost use Rattle.elab_reduce.specs.Items.{env_of};
ghost use Rattle.elab_rules.specs.Answers.{Meets};
ghost use Rattle.elab_rules.specs.Contexts.{entries};
ghost use Rattle.elab_rules.specs.Parts.{kind_known, type_known};
ghost use Rattle.elab_rules.specs.Spines.{MeetsMade, made_of};
ghost use Rattle.elab_tree.specs.Answers.{Gives};
ghost use Rattle.elab_tree.specs.Known.{Known as Items};
ghost use Rattle.scoped_tree.specs.Trees.{place, reference};

use crate::ask::Rules;
use crate::context::{Context, Known};
use crate::fault::{Fault, low};
use crate::spine::{Made, Spine};
use cdle_names::Span;
use elab_match::Solution;
use elab_tree::{EKind, ETerm, EType, OutItem, TreeStop};
use scoped_tree::Reference;

impl Rules<'_> {
    /// A term's name, with the type that is known of it.
    pub fn term_name(
        &self,
        form: Span,
        context: &Context<'_>,
        name: Reference,
    ) -> Result<Made, Fault>
        ensures { (f : Encodings) → MeetsMade self.now.env.now self.now.budget (names_term (env_of self.now.env.now) f (place form) (entries context.now) (reference name)) result }
    {
        match name {
            Reference::Variable(index) => self.variable(form, context, index),
            Reference::Item(item) => self.item(form, item),
            // No scoped term comes to a cast.
            Reference::Cast(_) => Err(Fault::NoMemory),
        }
    }

    /// A type's name, with the kind that is known of it.
    pub fn type_name(
        &self,
        form: Span,
        context: &Context<'_>,
        name: Reference,
    ) -> Result<(EType, EKind), Fault>
        ensures { (f : Encodings) → Meets self.now.env.now self.now.budget (names_type (env_of self.now.env.now) f (place form) (entries context.now) (reference name)) result }
    {
        match name {
            Reference::Variable(index) => self.type_variable(form, context, index),
            Reference::Item(item) => self.type_item(form, item),
            Reference::Cast(_) => Err(Fault::NoMemory),
        }
    }

    /// A variable that is a term, with its type.
    fn variable(&self, form: Span, context: &Context<'_>, index: u32) -> Result<Made, Fault>
        ensures { MeetsMade self.now.env.now self.now.budget (found_term (place form) (var index) (entry (entries context.now) index)) result }
    {
        let ty = self.variable_type(form, context, index)?;
        let term = ETerm::var(self.alloc, index)?;
        Ok(self.starting(form, term, ty))
    }

    /// An item that is a term, with its type.
    fn item(&self, form: Span, item: u32) -> Result<Made, Fault>
        ensures { MeetsMade self.now.env.now self.now.budget (found_term (place form) (name item) (known_of (slice_get (env_of self.now.env.now).items item))) result }
    {
        let ty = self.item_type(form, item)?;
        let term = ETerm::name(self.alloc, item)?;
        Ok(self.starting(form, term, ty))
    }

    /// A variable that is a type, with its kind.
    fn type_variable(
        &self,
        form: Span,
        context: &Context<'_>,
        index: u32,
    ) -> Result<(EType, EKind), Fault>
        ensures { Meets self.now.env.now self.now.budget (found_type (place form) (var index) (entry (entries context.now) index)) result }
    {
        let kind = self.variable_kind(form, context, index)?;
        let ty = EType::var(self.alloc, index)?;
        Ok((ty, kind))
    }

    /// An item that is a type, with its kind.
    fn type_item(&self, form: Span, item: u32) -> Result<(EType, EKind), Fault>
        ensures { Meets self.now.env.now self.now.budget (found_type (place form) (name item) (known_of (slice_get (env_of self.now.env.now).items item))) result }
    {
        let kind = self.item_kind(form, item)?;
        let ty = EType::name(self.alloc, item)?;
        Ok((ty, kind))
    }

    /// The type of a variable that is a term, as it stands under the binders over it.
    fn variable_type(&self, form: Span, context: &Context<'_>, index: u32) -> Result<EType, Fault>
        ensures { Meets self.now.env.now self.now.budget (type_known (place form) (entry (entries context.now) index)) result }
    {
        let Some(Known::Term(ty)) = context.known(index) else {
            return Err(Fault::NoMemory);
        };
        let Some(binders) = index.checked_add(1) else {
            return Err(Fault::NoMemory);
        };
        type_made(form, ty.shift(self.alloc, 0, binders))
    }

    /// The kind of a variable that is a type, as it stands under the binders over it.
    pub(crate) fn variable_kind(
        &self,
        form: Span,
        context: &Context<'_>,
        index: u32,
    ) -> Result<EKind, Fault>
        ensures { Meets self.now.env.now self.now.budget (kind_known (place form) (entry (entries context.now) index)) result }
    {
        let Some(Known::OfType(kind)) = context.known(index) else {
            return Err(Fault::NoMemory);
        };
        let Some(binders) = index.checked_add(1) else {
            return Err(Fault::NoMemory);
        };
        kind_made(form, kind.shift(self.alloc, 0, binders))
    }

    /// The type of an item that is a term.
    fn item_type(&self, form: Span, item: u32) -> Result<EType, Fault>
        ensures { Meets self.now.env.now self.now.budget (type_known (place form) (known_of (slice_get (env_of self.now.env.now).items item))) result }
    {
        if item >= self.env.len() {
            return Err(Fault::NoMemory);
        }
        match self.env.get(item) {
            OutItem::Def { ty, .. } => {
                low(form, ty.depth())?;
                Ok(ty.clone()?)
            }
            OutItem::TypeDef { .. } => Err(Fault::NoMemory),
        }
    }

    /// The kind of an item that is a type.
    pub(crate) fn item_kind(&self, form: Span, item: u32) -> Result<EKind, Fault>
        ensures { Meets self.now.env.now self.now.budget (kind_known (place form) (known_of (slice_get (env_of self.now.env.now).items item))) result }
    {
        if item >= self.env.len() {
            return Err(Fault::NoMemory);
        }
        match self.env.get(item) {
            OutItem::TypeDef { kind, .. } => {
                low(form, kind.depth())?;
                Ok(kind.clone()?)
            }
            OutItem::Def { .. } => Err(Fault::NoMemory),
        }
    }

    /// A spine of this head without arguments.
    pub(crate) fn starting(&self, head: Span, term: ETerm, ty: EType) -> Made
        ensures { made_of result ≡ spine (starts (place head) term ty) }
    {
        Made::Spine(Spine {
            head,
            term,
            ty,
            kinds: Vec::new(self.alloc),
            found: Solution::new(self.alloc),
        })
    }
}

/// The type that a change makes, or the fault of this form.
pub(crate) fn type_made(form: Span, made: Result<EType, TreeStop>) -> Result<EType, Fault>
    ensures { (k : Items) (n : ℕ) (t : Tree) → Gives t made → Meets k n (limited (place form) t) result }
{
    match made {
        Ok(ty) => Ok(ty),
        Err(stop) => Err(Fault::stopped(form, stop)),
    }
}

/// The kind that a change makes, or the fault of this form.
pub(crate) fn kind_made(form: Span, made: Result<EKind, TreeStop>) -> Result<EKind, Fault>
    ensures { (k : Items) (n : ℕ) (t : Tree) → Gives t made → Meets k n (limited (place form) t) result }
{
    match made {
        Ok(kind) => Ok(kind),
        Err(stop) => Err(Fault::stopped(form, stop)),
    }
}
