//! The table of the forms of Core text.
ghost use Rattle.std.specs.Prelude.{◌≡◌, IfSome};
ghost use Rattle.cdle_model.specs.CoreGrammar.{form_of, name_sort, pieces, class_of_form};
ghost use Rattle.cdle_model.specs.CoreNames.{same_sort};
ghost use Rattle.cdle_model.specs.CoreFaults.{wanted_part};
ghost use Rattle.cdle_model.specs.declared.grammar.Class.TheVariants as class;

use cdle_model::{Class, CoreWanted, Form, Piece, Sort};

/// The word for a part of a class.
pub(crate) fn wanted_of(class: Class) -> CoreWanted
    ensures { result ≡ wanted_part class }
{
    match class {
        Class::Kind => CoreWanted::Kind,
        Class::Ty => CoreWanted::Ty,
        Class::Term => CoreWanted::Term,
        Class::Pure => CoreWanted::Pure,
        Class::Guide => CoreWanted::Guide,
        Class::GuideKind => CoreWanted::GuideKind,
    }
}

/// What a name stands for where a part of the class is wanted, if a name may stand there.
pub(crate) fn sort_of_names(class: Class) -> Option<Sort>
    ensures { result ≡ name_sort class }
{
    match class {
        Class::Kind | Class::GuideKind => None,
        Class::Ty | Class::Guide => Some(Sort::OfType),
        Class::Term | Class::Pure => Some(Sort::OfTerm),
    }
}

pub(crate) fn is_same(left: Sort, right: Sort) -> bool
    ensures { result ≡ same_sort left right }
{
    match left {
        Sort::OfTerm => matches!(right, Sort::OfTerm),
        Sort::OfType => matches!(right, Sort::OfType),
    }
}

fn kind_form(word: &[u8]) -> Option<Form>
    ensures value { result ≡ form_of class.Kind word.now }
    ensures class { IfSome result (λ f. class_of_form f ≡ class.Kind) }
{
    match word {
        b"kpi" => Some(Form::Kpi),
        b"kpit" => Some(Form::Kpit),
        _ => None,
    }
}

fn ty_form(word: &[u8]) -> Option<Form>
    ensures value { result ≡ form_of class.Ty word.now }
    ensures class { IfSome result (λ f. class_of_form f ≡ class.Ty) }
{
    match word {
        b"pi" => Some(Form::Pi),
        b"all" => Some(Form::All),
        b"allt" => Some(Form::Allt),
        b"tlam" => Some(Form::Tlam),
        b"xtlam" => Some(Form::Xtlam),
        b"at" => Some(Form::At),
        b"on" => Some(Form::On),
        b"iota" => Some(Form::Iota),
        b"eq" => Some(Form::Eq),
        _ => None,
    }
}

fn term_form(word: &[u8]) -> Option<Form>
    ensures value { result ≡ form_of class.Term word.now }
    ensures class { IfSome result (λ f. class_of_form f ≡ class.Term) }
{
    match word {
        b"lam" => Some(Form::Lam),
        b"elam" => Some(Form::Elam),
        b"xlam" => Some(Form::Xlam),
        b"app" => Some(Form::App),
        b"eapp" => Some(Form::Eapp),
        b"tapp" => Some(Form::Tapp),
        b"pair" => Some(Form::Pair),
        b"fst" => Some(Form::Fst),
        b"snd" => Some(Form::Snd),
        b"beta" => Some(Form::Beta),
        b"rho" => Some(Form::Rho),
        b"phi" => Some(Form::Phi),
        b"delta" => Some(Form::Delta),
        _ => None,
    }
}

fn pure_form(word: &[u8]) -> Option<Form>
    ensures value { result ≡ form_of class.Pure word.now }
    ensures class { IfSome result (λ f. class_of_form f ≡ class.Pure) }
{
    match word {
        b"fn" => Some(Form::Function),
        b"ap" => Some(Form::Ap),
        _ => None,
    }
}

fn guide_form(word: &[u8]) -> Option<Form>
    ensures value { result ≡ form_of class.Guide word.now }
    ensures class { IfSome result (λ f. class_of_form f ≡ class.Guide) }
{
    match word {
        b"pi" => Some(Form::GuidePi),
        b"all" => Some(Form::GuideAll),
        b"allt" => Some(Form::GuideAllt),
        b"tlam" => Some(Form::GuideTlam),
        b"xtlam" => Some(Form::GuideXtlam),
        b"at" => Some(Form::GuideAt),
        b"on" => Some(Form::GuideOn),
        b"iota" => Some(Form::GuideIota),
        b"eq" => Some(Form::GuideEq),
        _ => None,
    }
}

fn guide_kind_form(word: &[u8]) -> Option<Form>
    ensures value { result ≡ form_of class.GuideKind word.now }
    ensures class { IfSome result (λ f. class_of_form f ≡ class.GuideKind) }
{
    match word {
        b"kpi" => Some(Form::GuideKpi),
        b"kpit" => Some(Form::GuideKpit),
        _ => None,
    }
}

/// The form of that word, where a part of the class is wanted.
pub(crate) fn find_form(class: Class, word: &[u8]) -> Option<Form>
    ensures value { result ≡ form_of class word.now }
    ensures class { IfSome result (λ f. class_of_form f ≡ class) }
{
    match class {
        Class::Kind => kind_form(word),
        Class::Ty => ty_form(word),
        Class::Term => term_form(word),
        Class::Pure => pure_form(word),
        Class::Guide => guide_form(word),
        Class::GuideKind => guide_kind_form(word),
    }
}

/// What stands in a form, behind its word.
pub(crate) fn pieces_of(form: Form) -> &'static [Piece]
    ensures { result.now ≡ pieces form }
{
    match form {
        Form::Kpi => &[
            Piece::Binder(Sort::OfTerm),
            Piece::Part(Class::Ty),
            Piece::Under(Class::Kind),
        ],
        Form::Kpit => &[
            Piece::Binder(Sort::OfType),
            Piece::Part(Class::Kind),
            Piece::Under(Class::Kind),
        ],
        Form::Pi | Form::All | Form::Tlam | Form::Iota => &[
            Piece::Binder(Sort::OfTerm),
            Piece::Part(Class::Ty),
            Piece::Under(Class::Ty),
        ],
        Form::Allt | Form::Xtlam => &[
            Piece::Binder(Sort::OfType),
            Piece::Part(Class::Kind),
            Piece::Under(Class::Ty),
        ],
        Form::At => &[Piece::Part(Class::Ty), Piece::Part(Class::Term)],
        Form::On => &[Piece::Part(Class::Ty), Piece::Part(Class::Ty)],
        Form::Eq | Form::Beta | Form::Ap | Form::GuideEq => &[
            Piece::Part(Class::Pure),
            Piece::Part(Class::Pure),
        ],
        Form::Lam | Form::Elam => &[
            Piece::Binder(Sort::OfTerm),
            Piece::Part(Class::Ty),
            Piece::Under(Class::Term),
        ],
        Form::Xlam => &[
            Piece::Binder(Sort::OfType),
            Piece::Part(Class::Kind),
            Piece::Under(Class::Term),
        ],
        Form::App | Form::Eapp => &[Piece::Part(Class::Term), Piece::Part(Class::Term)],
        Form::Tapp => &[Piece::Part(Class::Term), Piece::Part(Class::Ty)],
        Form::Pair => &[
            Piece::Part(Class::Term),
            Piece::Part(Class::Term),
            Piece::Binder(Sort::OfTerm),
            Piece::Under(Class::Ty),
        ],
        Form::Fst | Form::Snd => &[Piece::Part(Class::Term)],
        Form::Rho => &[
            Piece::Part(Class::Term),
            Piece::Binder(Sort::OfTerm),
            Piece::Under(Class::Guide),
            Piece::Part(Class::Ty),
            Piece::Part(Class::Term),
        ],
        Form::Phi => &[
            Piece::Part(Class::Term),
            Piece::Part(Class::Term),
            Piece::Part(Class::Pure),
        ],
        Form::Delta => &[Piece::Part(Class::Ty), Piece::Part(Class::Term)],
        Form::Function => &[Piece::Binder(Sort::OfTerm), Piece::Under(Class::Pure)],
        Form::GuidePi | Form::GuideAll | Form::GuideIota => &[
            Piece::Binder(Sort::OfTerm),
            Piece::Part(Class::Guide),
            Piece::Under(Class::Guide),
        ],
        Form::GuideAllt => &[
            Piece::Binder(Sort::OfType),
            Piece::Part(Class::GuideKind),
            Piece::Under(Class::Guide),
        ],
        Form::GuideTlam => &[Piece::Binder(Sort::OfTerm), Piece::Under(Class::Guide)],
        Form::GuideXtlam => &[Piece::Binder(Sort::OfType), Piece::Under(Class::Guide)],
        Form::GuideAt => &[Piece::Part(Class::Guide), Piece::Part(Class::Pure)],
        Form::GuideOn => &[Piece::Part(Class::Guide), Piece::Part(Class::Guide)],
        Form::GuideKpi => &[
            Piece::Binder(Sort::OfTerm),
            Piece::Part(Class::Guide),
            Piece::Under(Class::GuideKind),
        ],
        Form::GuideKpit => &[
            Piece::Binder(Sort::OfType),
            Piece::Part(Class::GuideKind),
            Piece::Under(Class::GuideKind),
        ],
    }
}

/// The class that a form is of.
pub(crate) fn class_of(form: Form) -> Class
    ensures { result ≡ class_of_form form }
{
    match form {
        Form::Kpi | Form::Kpit => Class::Kind,
        Form::Pi
        | Form::All
        | Form::Allt
        | Form::Tlam
        | Form::Xtlam
        | Form::At
        | Form::On
        | Form::Iota
        | Form::Eq => Class::Ty,
        Form::Lam
        | Form::Elam
        | Form::Xlam
        | Form::App
        | Form::Eapp
        | Form::Tapp
        | Form::Pair
        | Form::Fst
        | Form::Snd
        | Form::Beta
        | Form::Rho
        | Form::Phi
        | Form::Delta => Class::Term,
        Form::Function | Form::Ap => Class::Pure,
        Form::GuidePi
        | Form::GuideAll
        | Form::GuideAllt
        | Form::GuideTlam
        | Form::GuideXtlam
        | Form::GuideAt
        | Form::GuideOn
        | Form::GuideIota
        | Form::GuideEq => Class::Guide,
        Form::GuideKpi | Form::GuideKpit => Class::GuideKind,
    }
}
