//! The forms whose parts are of the same classes, by a word for each, so that what makes the parts anew is one function for all of them.
ghost use Rattle.std.specs.Prelude.{◌≡◌, IfOk};
ghost use Rattle.elab_tree.specs.Shapes.{kind_over, guides_over, terms_over, typed, types_over};

use crate::guide::{EGuide, EGuideForm};
use crate::term::{EKind, ETerm, ETermForm, EType, ETypeForm};
use cdle_model::NoMemory;
use std::alloc::Global;

/// The forms of a guide over two guides.
#[derive(Clone, Copy)]
pub(crate) enum OverGuides {
    Pi,
    All,
    On,
    Iota,
}

/// The forms of a type over two types.
#[derive(Clone, Copy)]
pub(crate) enum OverTypes {
    Pi,
    All,
    Tlam,
    On,
    Iota,
}

/// The forms of a type over a kind and a type.
#[derive(Clone, Copy)]
pub(crate) enum OverKind {
    Allt,
    Xtlam,
}

/// The forms of a term over two terms.
#[derive(Clone, Copy)]
pub(crate) enum OverTerms {
    App,
    Eapp,
}

/// The forms of a term over a type and a term.
#[derive(Clone, Copy)]
pub(crate) enum Typed {
    Lam,
    Elam,
    Tapp,
    Delta,
}

impl EGuide {
    /// The node of that form.
    pub(crate) fn over(
        alloc: Global,
        form: OverGuides,
        left: EGuide,
        right: EGuide,
    ) -> Result<EGuide, NoMemory>
        ensures { IfOk result (λ t. t ≡ guides_over form left right) }
    {
        match form {
            OverGuides::Pi => EGuide::of(alloc, EGuideForm::Pi(left, right)),
            OverGuides::All => EGuide::of(alloc, EGuideForm::All(left, right)),
            OverGuides::On => EGuide::of(alloc, EGuideForm::On(left, right)),
            OverGuides::Iota => EGuide::of(alloc, EGuideForm::Iota(left, right)),
        }
    }
}

impl EType {
    /// The node of that form.
    pub(crate) fn over(
        alloc: Global,
        form: OverTypes,
        left: EType,
        right: EType,
    ) -> Result<EType, NoMemory>
        ensures { IfOk result (λ t. t ≡ types_over form left right) }
    {
        match form {
            OverTypes::Pi => EType::of(alloc, ETypeForm::Pi(left, right)),
            OverTypes::All => EType::of(alloc, ETypeForm::All(left, right)),
            OverTypes::Tlam => EType::of(alloc, ETypeForm::Tlam(left, right)),
            OverTypes::On => EType::of(alloc, ETypeForm::On(left, right)),
            OverTypes::Iota => EType::of(alloc, ETypeForm::Iota(left, right)),
        }
    }

    /// The node of that form.
    pub(crate) fn over_kind(
        alloc: Global,
        form: OverKind,
        domain: EKind,
        part: EType,
    ) -> Result<EType, NoMemory>
        ensures { IfOk result (λ t. t ≡ kind_over form domain part) }
    {
        match form {
            OverKind::Allt => EType::of(alloc, ETypeForm::Allt(domain, part)),
            OverKind::Xtlam => EType::of(alloc, ETypeForm::Xtlam(domain, part)),
        }
    }
}

impl ETerm {
    /// The node of that form.
    pub(crate) fn over(
        alloc: Global,
        form: OverTerms,
        head: ETerm,
        arg: ETerm,
    ) -> Result<ETerm, NoMemory>
        ensures { IfOk result (λ t. t ≡ terms_over form head arg) }
    {
        match form {
            OverTerms::App => ETerm::of(alloc, ETermForm::App(head, arg)),
            OverTerms::Eapp => ETerm::of(alloc, ETermForm::Eapp(head, arg)),
        }
    }

    /// The node of that form.
    pub(crate) fn typed(
        alloc: Global,
        form: Typed,
        ty: EType,
        part: ETerm,
    ) -> Result<ETerm, NoMemory>
        ensures { IfOk result (λ t. t ≡ typed form ty part) }
    {
        match form {
            Typed::Lam => ETerm::of(alloc, ETermForm::Lam(ty, part)),
            Typed::Elam => ETerm::of(alloc, ETermForm::Elam(ty, part)),
            Typed::Tapp => ETerm::of(alloc, ETermForm::Tapp(part, ty)),
            Typed::Delta => ETerm::of(alloc, ETermForm::Delta(ty, part)),
        }
    }
}
