//! One tree of each form.
ghost use Rattle.std.specs.Prelude.{◌≡◌};
ghost use Rattle.cdle_model.specs.Depth.{depth};

use core_tree::{
    Guide, GuideForm, GuideKind, GuideKindForm, Kind, KindForm, NoMemory, Pure, PureForm, Term,
    TermForm, Ty, TyForm,
};
use std::alloc::Global;

/// A leaf of each class.
#[derive(Drop)]
pub(crate) struct Leaves {
    pure: Pure,
    guide: Guide,
    guide_kind: GuideKind,
    term: Term,
    ty: Ty,
    kind: Kind,
    ghost leaves: { (depth pure ≡ 0) × (depth guide ≡ 0) × (depth guide_kind ≡ 0) × (depth term ≡ 0) × (depth ty ≡ 0) × (depth kind ≡ 0) },
}

impl Leaves {
    pub(crate) fn new(alloc: Global) -> Result<Leaves, NoMemory> {
        Ok(Leaves {
            pure: Pure::var(alloc, 7)?,
            guide: Guide::var(alloc, 7)?,
            guide_kind: GuideKind::star(alloc)?,
            term: Term::var(alloc, 7)?,
            ty: Ty::var(alloc, 7)?,
            kind: Kind::star(alloc)?,
        })
    }
}

/// The tree of that form over leaves.
pub(crate) fn pure_of(alloc: Global, leaves: &Leaves, form: u32) -> Result<Pure, NoMemory> {
    match form {
        0 => Pure::var(alloc, 7),
        1 => Pure::name(alloc, 3),
        2 => Pure::function(alloc, &leaves.pure),
        _ => Pure::ap(alloc, &leaves.pure, &leaves.pure),
    }
}

/// Which form the tree has.
pub(crate) fn pure_form(tree: &Pure) -> u32 {
    match tree.form() {
        PureForm::Var(_) => 0,
        PureForm::Name(_) => 1,
        PureForm::Function(_) => 2,
        PureForm::Ap(_, _) => 3,
    }
}

/// The tree of that form over leaves.
pub(crate) fn guide_of(alloc: Global, leaves: &Leaves, form: u32) -> Result<Guide, NoMemory> {
    match form {
        0 => Guide::var(alloc, 7),
        1 => Guide::name(alloc, 3),
        2 => Guide::pi(alloc, &leaves.guide, &leaves.guide),
        3 => Guide::all(alloc, &leaves.guide, &leaves.guide),
        4 => Guide::allt(alloc, &leaves.guide_kind, &leaves.guide),
        5 => Guide::tlam(alloc, &leaves.guide),
        6 => Guide::xtlam(alloc, &leaves.guide),
        7 => Guide::at(alloc, &leaves.guide, &leaves.pure),
        8 => Guide::on(alloc, &leaves.guide, &leaves.guide),
        9 => Guide::iota(alloc, &leaves.guide, &leaves.guide),
        _ => Guide::eq(alloc, &leaves.pure, &leaves.pure),
    }
}

/// Which form the tree has.
pub(crate) fn guide_form(tree: &Guide) -> u32 {
    match tree.form() {
        GuideForm::Var(_) => 0,
        GuideForm::Name(_) => 1,
        GuideForm::Pi(_, _) => 2,
        GuideForm::All(_, _) => 3,
        GuideForm::Allt(_, _) => 4,
        GuideForm::Tlam(_) => 5,
        GuideForm::Xtlam(_) => 6,
        GuideForm::At(_, _) => 7,
        GuideForm::On(_, _) => 8,
        GuideForm::Iota(_, _) => 9,
        GuideForm::Eq(_, _) => 10,
    }
}

/// The tree of that form over leaves.
pub(crate) fn guide_kind_of(
    alloc: Global,
    leaves: &Leaves,
    form: u32,
) -> Result<GuideKind, NoMemory> {
    match form {
        0 => GuideKind::star(alloc),
        1 => GuideKind::kpi(alloc, &leaves.guide, &leaves.guide_kind),
        _ => GuideKind::kpit(alloc, &leaves.guide_kind, &leaves.guide_kind),
    }
}

/// Which form the tree has.
pub(crate) fn guide_kind_form(tree: &GuideKind) -> u32 {
    match tree.form() {
        GuideKindForm::Star => 0,
        GuideKindForm::Kpi(_, _) => 1,
        GuideKindForm::Kpit(_, _) => 2,
    }
}

/// The tree of that form over leaves.
pub(crate) fn term_of(alloc: Global, leaves: &Leaves, form: u32) -> Result<Term, NoMemory> {
    match form {
        0 => Term::var(alloc, 7),
        1 => Term::name(alloc, 3),
        2 => Term::lam(alloc, &leaves.ty, &leaves.term),
        3 => Term::elam(alloc, &leaves.ty, &leaves.term),
        4 => Term::xlam(alloc, &leaves.kind, &leaves.term),
        5 => Term::app(alloc, &leaves.term, &leaves.term),
        6 => Term::eapp(alloc, &leaves.term, &leaves.term),
        7 => Term::tapp(alloc, &leaves.term, &leaves.ty),
        8 => Term::pair(alloc, &leaves.term, &leaves.term, &leaves.ty),
        9 => Term::fst(alloc, &leaves.term),
        10 => Term::snd(alloc, &leaves.term),
        11 => Term::beta(alloc, &leaves.pure, &leaves.pure),
        12 => Term::rho(alloc, &leaves.term, &leaves.guide, &leaves.ty, &leaves.term),
        13 => Term::phi(alloc, &leaves.term, &leaves.term, &leaves.pure),
        _ => Term::delta(alloc, &leaves.ty, &leaves.term),
    }
}

/// Which form the tree has.
pub(crate) fn term_form(tree: &Term) -> u32 {
    match tree.form() {
        TermForm::Var(_) => 0,
        TermForm::Name(_) => 1,
        TermForm::Lam(_, _) => 2,
        TermForm::Elam(_, _) => 3,
        TermForm::Xlam(_, _) => 4,
        TermForm::App(_, _) => 5,
        TermForm::Eapp(_, _) => 6,
        TermForm::Tapp(_, _) => 7,
        TermForm::Pair(_, _, _) => 8,
        TermForm::Fst(_) => 9,
        TermForm::Snd(_) => 10,
        TermForm::Beta(_, _) => 11,
        TermForm::Rho(_, _, _, _) => 12,
        TermForm::Phi(_, _, _) => 13,
        TermForm::Delta(_, _) => 14,
    }
}

/// The tree of that form over leaves.
pub(crate) fn ty_of(alloc: Global, leaves: &Leaves, form: u32) -> Result<Ty, NoMemory> {
    match form {
        0 => Ty::var(alloc, 7),
        1 => Ty::name(alloc, 3),
        2 => Ty::pi(alloc, &leaves.ty, &leaves.ty),
        3 => Ty::all(alloc, &leaves.ty, &leaves.ty),
        4 => Ty::allt(alloc, &leaves.kind, &leaves.ty),
        5 => Ty::tlam(alloc, &leaves.ty, &leaves.ty),
        6 => Ty::xtlam(alloc, &leaves.kind, &leaves.ty),
        7 => Ty::at(alloc, &leaves.ty, &leaves.term),
        8 => Ty::on(alloc, &leaves.ty, &leaves.ty),
        9 => Ty::iota(alloc, &leaves.ty, &leaves.ty),
        _ => Ty::eq(alloc, &leaves.pure, &leaves.pure),
    }
}

/// Which form the tree has.
pub(crate) fn ty_form(tree: &Ty) -> u32 {
    match tree.form() {
        TyForm::Var(_) => 0,
        TyForm::Name(_) => 1,
        TyForm::Pi(_, _) => 2,
        TyForm::All(_, _) => 3,
        TyForm::Allt(_, _) => 4,
        TyForm::Tlam(_, _) => 5,
        TyForm::Xtlam(_, _) => 6,
        TyForm::At(_, _) => 7,
        TyForm::On(_, _) => 8,
        TyForm::Iota(_, _) => 9,
        TyForm::Eq(_, _) => 10,
    }
}

/// The tree of that form over leaves.
pub(crate) fn kind_of(alloc: Global, leaves: &Leaves, form: u32) -> Result<Kind, NoMemory> {
    match form {
        0 => Kind::star(alloc),
        1 => Kind::kpi(alloc, &leaves.ty, &leaves.kind),
        _ => Kind::kpit(alloc, &leaves.kind, &leaves.kind),
    }
}

/// Which form the tree has.
pub(crate) fn kind_form(tree: &Kind) -> u32 {
    match tree.form() {
        KindForm::Star => 0,
        KindForm::Kpi(_, _) => 1,
        KindForm::Kpit(_, _) => 2,
    }
}
