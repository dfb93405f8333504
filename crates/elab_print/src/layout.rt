//! What stands in the text of a node: the grammar's table, read from nodes.
ghost use Rattle.std.specs.Prelude.{◌≡◌, ◌∷◌, [], codes};
ghost use Rattle.elab_print.specs.declared.layout.Node.TheVariants as node;
ghost use Rattle.elab_print.specs.declared.layout.Slot.TheVariants.{Binder, Part, Under, Nothing};
ghost use Rattle.cdle_model.specs.declared.grammar.Class.TheVariants as class;
ghost use Rattle.cdle_model.specs.declared.grammar.Sort.TheVariants as sort;
ghost use Rattle.elab_print.specs.Layouts.{IsLayout, slots_in, node_class, node_tree};

use cdle_model::Sort;
use elab_tree::{
    EGuide, EGuideForm, EGuideKind, EGuideKindForm, EKind, EKindForm, EPure, EPureForm, ETerm,
    ETermForm, EType, ETypeForm,
};

/// A node of any class.
#[derive(Clone, Copy)]
pub(crate) enum Node<'a> {
    Kind(&'a EKind),
    Ty(&'a EType),
    Term(&'a ETerm),
    Pure(&'a EPure),
    Guide(&'a EGuide),
    GuideKind(&'a EGuideKind),
}

/// What stands in a form behind its word: a binder, a part, a part under that binder, or nothing more.
#[derive(Clone, Copy)]
pub(crate) enum Slot<'a> {
    Binder(Sort),
    Part(Node<'a>),
    Under(Node<'a>),
    Nothing,
}

/// A form's word, and what stands behind it.
#[derive(Clone, Copy)]
pub(crate) struct Slots<'a> {
    pub(crate) word: &'a str,
    pub(crate) first: Slot<'a>,
    pub(crate) second: Slot<'a>,
    pub(crate) third: Slot<'a>,
    pub(crate) fourth: Slot<'a>,
    pub(crate) fifth: Slot<'a>,
}

/// A variable, an item's name, `*`, or a form.
#[derive(Clone, Copy)]
pub(crate) enum Layout<'a> {
    Var(u32),
    Name(u32),
    Star,
    Form(Slots<'a>),
}

/// A binder, a part, and a part under the binder.
fn bound<'a>(word: &'a str, sort: Sort, first: Node<'a>, second: Node<'a>) -> Slots<'a>
    ensures word { result.word.now ≡ word.now }
    ensures slots { slots_in result ≡ Binder sort ∷ Part first.entry ∷ Under second.entry ∷ Nothing ∷ Nothing ∷ [] }
{
    Slots {
        word,
        first: Slot::Binder(sort),
        second: Slot::Part(first),
        third: Slot::Under(second),
        fourth: Slot::Nothing,
        fifth: Slot::Nothing,
    }
}

/// A binder, and a part under it.
fn body<'a>(word: &'a str, sort: Sort, part: Node<'a>) -> Slots<'a>
    ensures word { result.word.now ≡ word.now }
    ensures slots { slots_in result ≡ Binder sort ∷ Under part.entry ∷ Nothing ∷ Nothing ∷ Nothing ∷ [] }
{
    Slots {
        word,
        first: Slot::Binder(sort),
        second: Slot::Under(part),
        third: Slot::Nothing,
        fourth: Slot::Nothing,
        fifth: Slot::Nothing,
    }
}

fn one<'a>(word: &'a str, part: Node<'a>) -> Slots<'a>
    ensures word { result.word.now ≡ word.now }
    ensures slots { slots_in result ≡ Part part.entry ∷ Nothing ∷ Nothing ∷ Nothing ∷ Nothing ∷ [] }
{
    Slots {
        word,
        first: Slot::Part(part),
        second: Slot::Nothing,
        third: Slot::Nothing,
        fourth: Slot::Nothing,
        fifth: Slot::Nothing,
    }
}

fn two<'a>(word: &'a str, first: Node<'a>, second: Node<'a>) -> Slots<'a>
    ensures word { result.word.now ≡ word.now }
    ensures slots { slots_in result ≡ Part first.entry ∷ Part second.entry ∷ Nothing ∷ Nothing ∷ Nothing ∷ [] }
{
    Slots {
        word,
        first: Slot::Part(first),
        second: Slot::Part(second),
        third: Slot::Nothing,
        fourth: Slot::Nothing,
        fifth: Slot::Nothing,
    }
}

/// Two terms, a binder, and a type under it.
fn pair<'a>(left: &'a ETerm, right: &'a ETerm, ty: &'a EType) -> Slots<'a>
    ensures word { result.word.now ≡ codes "pair" }
    ensures slots { slots_in result ≡ Part (node.Term left.entry) ∷ Part (node.Term right.entry) ∷ Binder sort.OfTerm ∷ Under (node.Ty ty.entry) ∷ Nothing ∷ [] }
{
    Slots {
        word: "pair",
        first: Slot::Part(Node::Term(left)),
        second: Slot::Part(Node::Term(right)),
        third: Slot::Binder(Sort::OfTerm),
        fourth: Slot::Under(Node::Ty(ty)),
        fifth: Slot::Nothing,
    }
}

/// A proof, a binder, a guide under it, and behind that a type and a term.
fn rho<'a>(proof: &'a ETerm, guide: &'a EGuide, ty: &'a EType, part: &'a ETerm) -> Slots<'a>
    ensures word { result.word.now ≡ codes "rho" }
    ensures slots { slots_in result ≡ Part (node.Term proof.entry) ∷ Binder sort.OfTerm ∷ Under (node.Guide guide.entry) ∷ Part (node.Ty ty.entry) ∷ Part (node.Term part.entry) ∷ [] }
{
    Slots {
        word: "rho",
        first: Slot::Part(Node::Term(proof)),
        second: Slot::Binder(Sort::OfTerm),
        third: Slot::Under(Node::Guide(guide)),
        fourth: Slot::Part(Node::Ty(ty)),
        fifth: Slot::Part(Node::Term(part)),
    }
}

/// A proof, a term, and what is kept.
fn phi<'a>(proof: &'a ETerm, part: &'a ETerm, kept: &'a EPure) -> Slots<'a>
    ensures word { result.word.now ≡ codes "phi" }
    ensures slots { slots_in result ≡ Part (node.Term proof.entry) ∷ Part (node.Term part.entry) ∷ Part (node.Pure kept.entry) ∷ Nothing ∷ Nothing ∷ [] }
{
    Slots {
        word: "phi",
        first: Slot::Part(Node::Term(proof)),
        second: Slot::Part(Node::Term(part)),
        third: Slot::Part(Node::Pure(kept)),
        fourth: Slot::Nothing,
        fifth: Slot::Nothing,
    }
}

/// The layout of a node.
pub(crate) fn layout_of(node: Node<'_>) -> Layout<'_>
    ensures { IsLayout (node_class node.entry) (node_tree node.entry) result }
{
    match node {
        Node::Kind(kind) => kind_layout(kind),
        Node::Ty(ty) => ty_layout(ty),
        Node::Term(term) => term_layout(term),
        Node::Pure(pure) => pure_layout(pure),
        Node::Guide(guide) => guide_layout(guide),
        Node::GuideKind(kind) => guide_kind_layout(kind),
    }
}

fn kind_layout(kind: &EKind) -> Layout<'_>
    ensures { IsLayout class.Kind kind.now result }
{
    match kind.form() {
        EKindForm::Star => Layout::Star,
        EKindForm::Kpi(a, b) => Layout::Form(bound(
            "kpi",
            Sort::OfTerm,
            Node::Ty(a),
            Node::Kind(b),
        )),
        EKindForm::Kpit(a, b) => Layout::Form(bound(
            "kpit",
            Sort::OfType,
            Node::Kind(a),
            Node::Kind(b),
        )),
    }
}

fn ty_layout(ty: &EType) -> Layout<'_>
    ensures { IsLayout class.Ty ty.now result }
{
    match ty.form() {
        ETypeForm::Var(index) => Layout::Var(*index),
        ETypeForm::Name(item) => Layout::Name(*item),
        ETypeForm::Unknown(_) => Layout::Star,
        ETypeForm::Pi(a, b) => Layout::Form(bound("pi", Sort::OfTerm, Node::Ty(a), Node::Ty(b))),
        ETypeForm::All(a, b) => Layout::Form(bound("all", Sort::OfTerm, Node::Ty(a), Node::Ty(b))),
        ETypeForm::Allt(a, b) => Layout::Form(bound(
            "allt",
            Sort::OfType,
            Node::Kind(a),
            Node::Ty(b),
        )),
        ETypeForm::Tlam(a, b) => Layout::Form(bound(
            "tlam",
            Sort::OfTerm,
            Node::Ty(a),
            Node::Ty(b),
        )),
        ETypeForm::Xtlam(a, b) => Layout::Form(bound(
            "xtlam",
            Sort::OfType,
            Node::Kind(a),
            Node::Ty(b),
        )),
        ETypeForm::At(a, b) => Layout::Form(two("at", Node::Ty(a), Node::Term(b))),
        ETypeForm::On(a, b) => Layout::Form(two("on", Node::Ty(a), Node::Ty(b))),
        ETypeForm::Iota(a, b) => Layout::Form(bound(
            "iota",
            Sort::OfTerm,
            Node::Ty(a),
            Node::Ty(b),
        )),
        ETypeForm::Eq(a, b) => Layout::Form(two("eq", Node::Pure(a), Node::Pure(b))),
    }
}

fn term_layout(term: &ETerm) -> Layout<'_>
    ensures { IsLayout class.Term term.now result }
{
    match term.form() {
        ETermForm::Var(index) => Layout::Var(*index),
        ETermForm::Name(item) => Layout::Name(*item),
        ETermForm::Lam(a, b) => Layout::Form(bound(
            "lam",
            Sort::OfTerm,
            Node::Ty(a),
            Node::Term(b),
        )),
        ETermForm::Elam(a, b) => Layout::Form(bound(
            "elam",
            Sort::OfTerm,
            Node::Ty(a),
            Node::Term(b),
        )),
        ETermForm::Xlam(a, b) => Layout::Form(bound(
            "xlam",
            Sort::OfType,
            Node::Kind(a),
            Node::Term(b),
        )),
        ETermForm::App(a, b) => Layout::Form(two("app", Node::Term(a), Node::Term(b))),
        ETermForm::Eapp(a, b) => Layout::Form(two("eapp", Node::Term(a), Node::Term(b))),
        ETermForm::Tapp(a, b) => Layout::Form(two("tapp", Node::Term(a), Node::Ty(b))),
        ETermForm::Pair(a, b, c) => Layout::Form(pair(a, b, c)),
        ETermForm::Fst(a) => Layout::Form(one("fst", Node::Term(a))),
        ETermForm::Snd(a) => Layout::Form(one("snd", Node::Term(a))),
        ETermForm::Beta(a, b) => Layout::Form(two("beta", Node::Pure(a), Node::Pure(b))),
        ETermForm::Rho(a, b, c, d) => Layout::Form(rho(a, b, c, d)),
        ETermForm::Phi(a, b, c) => Layout::Form(phi(a, b, c)),
        ETermForm::Delta(a, b) => Layout::Form(two("delta", Node::Ty(a), Node::Term(b))),
    }
}

fn pure_layout(pure: &EPure) -> Layout<'_>
    ensures { IsLayout class.Pure pure.now result }
{
    match pure.form() {
        EPureForm::Var(index) => Layout::Var(*index),
        EPureForm::Name(item) => Layout::Name(*item),
        EPureForm::Function(a) => Layout::Form(body("fn", Sort::OfTerm, Node::Pure(a))),
        EPureForm::Ap(a, b) => Layout::Form(two("ap", Node::Pure(a), Node::Pure(b))),
    }
}

fn guide_layout(guide: &EGuide) -> Layout<'_>
    ensures { IsLayout class.Guide guide.now result }
{
    match guide.form() {
        EGuideForm::Var(index) => Layout::Var(*index),
        EGuideForm::Name(item) => Layout::Name(*item),
        EGuideForm::Unknown(_) => Layout::Star,
        EGuideForm::Pi(a, b) => Layout::Form(bound(
            "pi",
            Sort::OfTerm,
            Node::Guide(a),
            Node::Guide(b),
        )),
        EGuideForm::All(a, b) => Layout::Form(bound(
            "all",
            Sort::OfTerm,
            Node::Guide(a),
            Node::Guide(b),
        )),
        EGuideForm::Allt(a, b) => Layout::Form(bound(
            "allt",
            Sort::OfType,
            Node::GuideKind(a),
            Node::Guide(b),
        )),
        EGuideForm::Tlam(a) => Layout::Form(body("tlam", Sort::OfTerm, Node::Guide(a))),
        EGuideForm::Xtlam(a) => Layout::Form(body("xtlam", Sort::OfType, Node::Guide(a))),
        EGuideForm::At(a, b) => Layout::Form(two("at", Node::Guide(a), Node::Pure(b))),
        EGuideForm::On(a, b) => Layout::Form(two("on", Node::Guide(a), Node::Guide(b))),
        EGuideForm::Iota(a, b) => Layout::Form(bound(
            "iota",
            Sort::OfTerm,
            Node::Guide(a),
            Node::Guide(b),
        )),
        EGuideForm::Eq(a, b) => Layout::Form(two("eq", Node::Pure(a), Node::Pure(b))),
    }
}

fn guide_kind_layout(kind: &EGuideKind) -> Layout<'_>
    ensures { IsLayout class.GuideKind kind.now result }
{
    match kind.form() {
        EGuideKindForm::Star => Layout::Star,
        EGuideKindForm::Kpi(a, b) => Layout::Form(bound(
            "kpi",
            Sort::OfTerm,
            Node::Guide(a),
            Node::GuideKind(b),
        )),
        EGuideKindForm::Kpit(a, b) => Layout::Form(bound(
            "kpit",
            Sort::OfType,
            Node::GuideKind(a),
            Node::GuideKind(b),
        )),
    }
}
