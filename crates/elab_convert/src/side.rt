//! Erased trees as heads with arguments, and their head forms.
ghost use Rattle.std.specs.Prelude.{◌≡◌, IfOk};
ghost use Rattle.cdle_model.specs.Trees.{shift};
ghost use Rattle.elab_convert.specs.Formers.{part_tree};
ghost use Rattle.elab_convert.specs.Sides.{arg_class, arg_raised, arg_tree, erased_tree, item_of, side_tree};

use elab_tree::{EGuide, EGuideForm, EGuideKind, EPure, EPureForm, NoMemory};
use std::alloc::Global;

/// An erased tree of any class.
#[derive(Drop)]
pub(crate) enum Erased {
    Term(EPure),
    OfType(EGuide),
    Kind(EGuideKind),
}

/// An erased tree of any class that another owns.
#[derive(Clone, Copy)]
pub(crate) enum Part<'a> {
    Term(&'a EPure),
    OfType(&'a EGuide),
    Kind(&'a EGuideKind),
}

/// What a tree is applied to: a pure term by a pure term, a type by a term, or a type by a type.
#[derive(Drop)]
pub(crate) enum Arg {
    OfPure(EPure),
    OfTerm(EPure),
    OfType(EGuide),
}

/// Which of the three an argument is.
#[derive(Clone, Copy, PartialEq, Eq)]
pub(crate) enum ArgClass {
    OfPure,
    OfTerm,
    OfType,
}

/// A tree with what it is applied to, the innermost argument last.
#[derive(Drop)]
pub(crate) struct Side {
    pub(crate) head: Erased,
    pub(crate) args: Vec<Arg>,
}

/// Two trees that are still to be compared.
#[derive(Drop)]
pub(crate) struct SidePair {
    pub(crate) left: Side,
    pub(crate) right: Side,
}

/// What stands at the head of a head form that is no former: a variable, or an item that there is not.
#[derive(Clone, Copy, PartialEq, Eq)]
pub(crate) enum Root {
    Variable(u32),
    Constant(u32),
}

/// A head form: the body of a pure function; a root with what it is applied to, the innermost argument last; or a former, which may be
/// applied too, and then is stuck.
#[derive(Drop)]
pub(crate) enum HeadForm {
    Function(EPure),
    Applied(Root, Vec<Arg>),
    Former(Side),
}

impl Erased {
    pub(crate) fn part(&self) -> Part<'_>
        ensures { part_tree result ≡ erased_tree self.now }
    {
        match self {
            Erased::Term(term) => Part::Term(term),
            Erased::OfType(ty) => Part::OfType(ty),
            Erased::Kind(kind) => Part::Kind(kind),
        }
    }

    /// The same tree once more.
    pub(crate) fn once_more(&self) -> Result<Erased, NoMemory>
        ensures { IfOk result (λ t. erased_tree t ≡ erased_tree self.now) }
    {
        match self {
            Erased::Term(term) => Ok(Erased::Term(term.clone()?)),
            Erased::OfType(ty) => Ok(Erased::OfType(ty.clone()?)),
            Erased::Kind(kind) => Ok(Erased::Kind(kind.clone()?)),
        }
    }

    /// The number of the item, where the tree is a name.
    fn item(&self) -> Option<u32>
        ensures { result ≡ item_of (erased_tree self.now) }
    {
        match self {
            Erased::Term(term) => term_item(term),
            Erased::OfType(ty) => type_item(ty),
            Erased::Kind(kind) => kind_item(kind),
        }
    }
}

fn term_item(term: &EPure) -> Option<u32>
    ensures { result ≡ item_of term.now }
{
    match term.form() {
        EPureForm::Name(item) => Some(*item),
        _ => None,
    }
}

fn type_item(ty: &EGuide) -> Option<u32>
    ensures { result ≡ item_of ty.now }
{
    match ty.form() {
        EGuideForm::Name(item) => Some(*item),
        _ => None,
    }
}

/// No kind is a name.
fn kind_item(kind: &EGuideKind) -> Option<u32>
    ensures { result ≡ item_of kind.now }
{
    kind.known();
    None
}

impl Part<'_> {
    /// The tree without arguments.
    pub(crate) fn whole(self, alloc: Global) -> Result<Side, NoMemory>
        ensures { IfOk result (λ d. side_tree d ≡ part_tree self.entry) }
    {
        let head = match self {
            Part::Term(term) => Erased::Term(term.clone()?),
            Part::OfType(ty) => Erased::OfType(ty.clone()?),
            Part::Kind(kind) => Erased::Kind(kind.clone()?),
        };
        Ok(Side {
            head,
            args: Vec::new(alloc),
        })
    }
}

impl Arg {
    pub(crate) fn part(&self) -> Part<'_>
        ensures { part_tree result ≡ arg_tree self.now }
    {
        match self {
            Arg::OfPure(term) => Part::Term(term),
            Arg::OfTerm(term) => Part::Term(term),
            Arg::OfType(ty) => Part::OfType(ty),
        }
    }

    pub(crate) fn class(&self) -> ArgClass
        ensures { result ≡ arg_class self.now }
    {
        match self {
            Arg::OfPure(_) => ArgClass::OfPure,
            Arg::OfTerm(_) => ArgClass::OfTerm,
            Arg::OfType(_) => ArgClass::OfType,
        }
    }

    /// The same argument once more.
    pub(crate) fn once_more(&self) -> Result<Arg, NoMemory>
        ensures { IfOk result (λ a. a ≡ self.now) }
    {
        match self {
            Arg::OfPure(term) => Ok(Arg::OfPure(term.clone()?)),
            Arg::OfTerm(term) => Ok(Arg::OfTerm(term.clone()?)),
            Arg::OfType(ty) => Ok(Arg::OfType(ty.clone()?)),
        }
    }

    /// The argument under one binder more.
    pub(crate) fn raised(&self, alloc: Global) -> Result<Arg, NoMemory>
        ensures { IfOk result (λ a. a ≡ arg_raised self.now) }
    {
        match self {
            Arg::OfPure(term) => Ok(Arg::OfPure(raised_term(alloc, term)?)),
            Arg::OfTerm(term) => Ok(Arg::OfTerm(raised_term(alloc, term)?)),
            Arg::OfType(ty) => Ok(Arg::OfType(raised_type(alloc, ty)?)),
        }
    }
}

impl Side {
    /// The number of the item, where the side is a name.
    pub(crate) fn item(&self) -> Option<u32>
        ensures { result ≡ item_of (side_tree self.now) }
    {
        if self.args.len() > 0 {
            return None;
        }
        self.head.item()
    }
}

fn raised_term(alloc: Global, term: &EPure) -> Result<EPure, NoMemory>
    ensures { IfOk result (λ t. t ≡ shift 0 1 term.now) }
{
    match term.shift(alloc, 0, 1) {
        Ok(term) => Ok(term),
        // Too deep is not reached: no argument is deeper than 4,096, where none of the trees given is, and no item's body.
        Err(_) => Err(NoMemory),
    }
}

fn raised_type(alloc: Global, ty: &EGuide) -> Result<EGuide, NoMemory>
    ensures { IfOk result (λ t. t ≡ shift 0 1 ty.now) }
{
    match ty.shift(alloc, 0, 1) {
        Ok(ty) => Ok(ty),
        // Too deep is not reached: see `raised_term`.
        Err(_) => Err(NoMemory),
    }
}
