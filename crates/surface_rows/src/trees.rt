//! One tree of each form, told again field by field, and a tree that has the most levels.
use cdle_model::Mode;
use cdle_names::{NameId, Span};
use std::alloc::Global;
use surf_tree::{
    NameUse, NoMemory, Src, SrcBranch, SrcClass, SrcForm, SrcKind, SrcKindForm, SrcPattern,
    SrcType, SrcTypeForm,
};

/// A field that is left out, or that a form does not have.
const NONE: u32 = 99;

/// The place of each tree under test.
const PLACE: Span = Span { from: 50, to: 60 };

/// The number of the name that each of them binds.
const VAR: NameId = NameId(7);

/// A form's number, its levels, and then its fields in order: a name by its number, a part by its first byte.
type Row = [u32; 6];

/// A name's row has its module and its name. The last ones are of `μ` and `σ`, and have the number of branches last.
const TERMS: &[Row] = &[
    [0, 1, 5, 6, NONE, NONE],
    [1, 2, 7, 20, 0, NONE],
    [2, 2, 7, 30, 0, NONE],
    [3, 2, 0, 10, NONE, NONE],
    [4, 2, 0, 10, NONE, NONE],
    [5, 2, 0, 20, NONE, NONE],
    [6, 2, 0, 10, NONE, NONE],
    [7, 2, 0, NONE, NONE, NONE],
    [8, 2, 0, NONE, NONE, NONE],
    [9, 2, 0, NONE, NONE, NONE],
    [10, 3, 0, 7, 40, 10],
    [11, 2, 0, 10, 15, NONE],
    [12, 2, 20, 0, NONE, NONE],
    [13, 2, 20, 0, NONE, NONE],
    [14, 2, 0, NONE, NONE, NONE],
    [15, 3, 7, 0, 40, 1],
    [16, 2, 0, NONE, 1, NONE],
];

const TYPES: &[Row] = &[
    [0, 1, NONE, 6, NONE, NONE],
    [1, 2, 7, 20, 25, NONE],
    [2, 2, NONE, 20, 25, NONE],
    [3, 2, 7, 30, 20, NONE],
    [4, 2, 7, 20, 25, NONE],
    [5, 2, 7, 30, 20, NONE],
    [6, 2, 20, 0, NONE, NONE],
    [7, 2, 20, 25, NONE, NONE],
    [8, 2, 7, 20, 25, NONE],
    [9, 2, 0, 10, NONE, NONE],
];

const KINDS: &[Row] = &[
    [0, 1, NONE, NONE, NONE, NONE],
    [1, 2, NONE, 20, 30, NONE],
    [2, 2, 7, 30, 35, NONE],
];

/// Parts, each with its own first byte.
#[derive(Drop)]
struct Parts {
    terms: Terms,
    classes: Classes,
}

#[derive(Drop)]
struct Terms {
    x: Src,
    y: Src,
    z: Src,
}

#[derive(Drop)]
struct Classes {
    types: Types,
    k: SrcKind,
    l: SrcKind,
}

/// The third has two levels.
#[derive(Drop)]
struct Types {
    a: SrcType,
    b: SrcType,
    high: SrcType,
}

fn span(from: u32) -> Span {
    Span { from, to: from }
}

fn named(module: Option<NameId>) -> NameUse {
    NameUse {
        module,
        name: NameId(6),
    }
}

fn term_at(alloc: Global, from: u32) -> Result<Src, NoMemory> {
    Src::name(alloc, span(from), named(None))
}

fn type_at(alloc: Global, from: u32) -> Result<SrcType, NoMemory> {
    SrcType::name(alloc, span(from), named(None))
}

fn make_terms(alloc: Global) -> Result<Terms, NoMemory> {
    Ok(Terms {
        x: term_at(alloc, 0)?,
        y: term_at(alloc, 10)?,
        z: term_at(alloc, 15)?,
    })
}

fn make_types(alloc: Global) -> Result<Types, NoMemory> {
    let a = type_at(alloc, 20)?;
    let b = type_at(alloc, 25)?;
    let high = SrcType::on(alloc, span(40), &a, &b)?;
    Ok(Types { a, b, high })
}

fn make_classes(alloc: Global) -> Result<Classes, NoMemory> {
    Ok(Classes {
        types: make_types(alloc)?,
        k: SrcKind::star(alloc, span(30))?,
        l: SrcKind::star(alloc, span(35))?,
    })
}

fn make_parts(alloc: Global) -> Result<Parts, NoMemory> {
    Ok(Parts {
        terms: make_terms(alloc)?,
        classes: make_classes(alloc)?,
    })
}

/// One branch: a name of each mode, and the part at byte 10.
fn branches(alloc: Global, p: &Parts) -> Result<Vec<SrcBranch>, NoMemory> {
    let mut args = Vec::new(alloc);
    for mode in [Mode::Kept, Mode::Erased, Mode::OfType] {
        args.push(SrcPattern {
            mode,
            name: VAR,
            span: span(2),
        })?;
    }
    let part = p.terms.y.clone()?;
    let mut branches = Vec::new(alloc);
    branches.push(SrcBranch {
        ctor: named(None),
        span: span(1),
        args,
        part,
    })?;
    Ok(branches)
}

/// The applications, pairs and projections.
fn plain_term(alloc: Global, p: &Parts, form: u32) -> Result<Src, NoMemory> {
    match form {
        0 => Src::name(alloc, PLACE, named(Some(NameId(5)))),
        3 => Src::app(alloc, PLACE, &p.terms.x, &p.terms.y),
        4 => Src::eapp(alloc, PLACE, &p.terms.x, &p.terms.y),
        5 => Src::tapp(alloc, PLACE, &p.terms.x, &p.classes.types.a),
        6 => Src::pair(alloc, PLACE, &p.terms.x, &p.terms.y),
        7 => Src::fst(alloc, PLACE, &p.terms.x),
        _ => Src::snd(alloc, PLACE, &p.terms.x),
    }
}

/// The forms with a class or a side that may be left out.
fn open_term(alloc: Global, p: &Parts, form: u32) -> Result<Src, NoMemory> {
    match form {
        1 => Src::lam(
            alloc,
            PLACE,
            VAR,
            Some(p.classes.types.a.clone()?),
            &p.terms.x,
        ),
        2 => Src::elam(
            alloc,
            PLACE,
            VAR,
            Some(SrcClass::OfKind(p.classes.k.clone()?)),
            &p.terms.x,
        ),
        9 => Src::beta(alloc, PLACE, Some(p.terms.x.clone()?), None),
        _ => Src::delta(alloc, PLACE, Some(p.classes.types.a.clone()?), &p.terms.x),
    }
}

/// `μ` with its motive, and `σ` without.
fn case_term(alloc: Global, p: &Parts, form: u32) -> Result<Src, NoMemory> {
    let branches = branches(alloc, p)?;
    match form {
        15 => Src::mu(
            alloc,
            PLACE,
            VAR,
            &p.terms.x,
            Some(p.classes.types.high.clone()?),
            branches,
        ),
        _ => Src::sigma(alloc, PLACE, &p.terms.x, None, branches),
    }
}

/// The tree of that form.
fn term_of(alloc: Global, p: &Parts, form: u32) -> Result<Src, NoMemory> {
    match form {
        0 | 3 | 4 | 5 | 6 | 7 | 8 => plain_term(alloc, p, form),
        10 => Src::rho(
            alloc,
            PLACE,
            &p.terms.x,
            VAR,
            &p.classes.types.high,
            &p.terms.y,
        ),
        11 => Src::phi(alloc, PLACE, &p.terms.x, &p.terms.y, &p.terms.z),
        13 => Src::chi(alloc, PLACE, &p.classes.types.a, &p.terms.x),
        14 => Src::flip(alloc, PLACE, &p.terms.x),
        15 | 16 => case_term(alloc, p, form),
        _ => open_term(alloc, p, form),
    }
}

/// The tree of that form.
fn type_of(alloc: Global, p: &Parts, form: u32) -> Result<SrcType, NoMemory> {
    match form {
        0 => SrcType::name(alloc, PLACE, named(None)),
        1 => SrcType::pi(
            alloc,
            PLACE,
            Some(VAR),
            &p.classes.types.a,
            &p.classes.types.b,
        ),
        2 => SrcType::all(alloc, PLACE, None, &p.classes.types.a, &p.classes.types.b),
        3 => SrcType::allt(alloc, PLACE, Some(VAR), &p.classes.k, &p.classes.types.a),
        4 => SrcType::tlam(alloc, PLACE, VAR, &p.classes.types.a, &p.classes.types.b),
        5 => SrcType::xtlam(alloc, PLACE, VAR, &p.classes.k, &p.classes.types.a),
        6 => SrcType::at(alloc, PLACE, &p.classes.types.a, &p.terms.x),
        7 => SrcType::on(alloc, PLACE, &p.classes.types.a, &p.classes.types.b),
        8 => SrcType::iota(alloc, PLACE, VAR, &p.classes.types.a, &p.classes.types.b),
        _ => SrcType::eq(alloc, PLACE, &p.terms.x, &p.terms.y),
    }
}

/// The tree of that form.
fn kind_of(alloc: Global, p: &Parts, form: u32) -> Result<SrcKind, NoMemory> {
    match form {
        0 => SrcKind::star(alloc, PLACE),
        1 => SrcKind::kpi(alloc, PLACE, None, &p.classes.types.a, &p.classes.k),
        _ => SrcKind::kpit(alloc, PLACE, Some(VAR), &p.classes.k, &p.classes.l),
    }
}

fn number(name: Option<NameId>) -> u32 {
    match name {
        Some(id) => id.0,
        None => NONE,
    }
}

fn term_from(part: &Src) -> u32 {
    part.span().from
}

fn type_from(part: &SrcType) -> u32 {
    part.span().from
}

fn kind_from(part: &SrcKind) -> u32 {
    part.span().from
}

fn term_given(part: &Option<Src>) -> u32 {
    match part {
        Some(part) => part.span().from,
        None => NONE,
    }
}

fn type_given(part: &Option<SrcType>) -> u32 {
    match part {
        Some(part) => part.span().from,
        None => NONE,
    }
}

fn class_given(class: &Option<SrcClass>) -> u32 {
    match class {
        Some(SrcClass::OfKind(kind)) => kind.span().from,
        Some(SrcClass::OfType(ty)) => ty.span().from,
        None => NONE,
    }
}

/// How many branches have the names and the part that `branches` gives them.
fn whole_branches(branches: &Vec<SrcBranch>) -> u32 {
    let mut whole = 0u32;
    for branch in branches.iter() {
        let modes = branch.args.len() == 3
            && branch.args[0].mode == Mode::Kept
            && branch.args[1].mode == Mode::Erased
            && branch.args[2].mode == Mode::OfType;
        if modes && branch.ctor == named(None) && branch.part.span() == span(10) {
            whole = whole.saturating_add(1);
        }
    }
    whole
}

/// What the tree tells of itself.
fn term_row(tree: &Src) -> Row {
    let n = tree.levels();
    match tree.form() {
        SrcForm::Name { name } => [0, n, number(name.module), name.name.0, NONE, NONE],
        SrcForm::Lam { var, ty, part } => [1, n, var.0, type_given(ty), term_from(part), NONE],
        SrcForm::Elam { var, class, part } => {
            [2, n, var.0, class_given(class), term_from(part), NONE]
        }
        SrcForm::App { head, arg } => [3, n, term_from(head), term_from(arg), NONE, NONE],
        SrcForm::Eapp { head, arg } => [4, n, term_from(head), term_from(arg), NONE, NONE],
        SrcForm::Tapp { head, arg } => [5, n, term_from(head), type_from(arg), NONE, NONE],
        SrcForm::Pair { left, right } => [6, n, term_from(left), term_from(right), NONE, NONE],
        SrcForm::Fst { part } => [7, n, term_from(part), NONE, NONE, NONE],
        SrcForm::Snd { part } => [8, n, term_from(part), NONE, NONE, NONE],
        SrcForm::Beta { side, kept } => [9, n, term_given(side), term_given(kept), NONE, NONE],
        SrcForm::Rho {
            proof,
            var,
            guide,
            part,
        } => [
            10,
            n,
            term_from(proof),
            var.0,
            type_from(guide),
            term_from(part),
        ],
        SrcForm::Phi { proof, part, kept } => [
            11,
            n,
            term_from(proof),
            term_from(part),
            term_from(kept),
            NONE,
        ],
        SrcForm::Delta { ty, proof } => [12, n, type_given(ty), term_from(proof), NONE, NONE],
        SrcForm::Chi { ty, part } => [13, n, type_from(ty), term_from(part), NONE, NONE],
        SrcForm::Flip { proof } => [14, n, term_from(proof), NONE, NONE, NONE],
        SrcForm::Mu {
            var,
            part,
            motive,
            branches,
        } => [
            15,
            n,
            var.0,
            term_from(part),
            type_given(motive),
            whole_branches(branches),
        ],
        SrcForm::Sigma {
            part,
            motive,
            branches,
        } => [
            16,
            n,
            term_from(part),
            type_given(motive),
            whole_branches(branches),
            NONE,
        ],
    }
}

/// What the tree tells of itself.
fn type_row(tree: &SrcType) -> Row {
    let n = tree.levels();
    match tree.form() {
        SrcTypeForm::Name { name } => [0, n, number(name.module), name.name.0, NONE, NONE],
        SrcTypeForm::Pi { var, domain, part } => {
            [1, n, number(*var), type_from(domain), type_from(part), NONE]
        }
        SrcTypeForm::All { var, domain, part } => {
            [2, n, number(*var), type_from(domain), type_from(part), NONE]
        }
        SrcTypeForm::Allt { var, domain, part } => {
            [3, n, number(*var), kind_from(domain), type_from(part), NONE]
        }
        SrcTypeForm::Tlam { var, domain, part } => {
            [4, n, var.0, type_from(domain), type_from(part), NONE]
        }
        SrcTypeForm::Xtlam { var, domain, part } => {
            [5, n, var.0, kind_from(domain), type_from(part), NONE]
        }
        SrcTypeForm::At { head, arg } => [6, n, type_from(head), term_from(arg), NONE, NONE],
        SrcTypeForm::On { head, arg } => [7, n, type_from(head), type_from(arg), NONE, NONE],
        SrcTypeForm::Iota { var, left, right } => {
            [8, n, var.0, type_from(left), type_from(right), NONE]
        }
        SrcTypeForm::Eq { left, right } => [9, n, term_from(left), term_from(right), NONE, NONE],
    }
}

/// What the tree tells of itself.
fn kind_row(tree: &SrcKind) -> Row {
    let n = tree.levels();
    match tree.form() {
        SrcKindForm::Star => [0, n, NONE, NONE, NONE, NONE],
        SrcKindForm::Kpi { var, domain, part } => {
            [1, n, number(*var), type_from(domain), kind_from(part), NONE]
        }
        SrcKindForm::Kpit { var, domain, part } => {
            [2, n, number(*var), kind_from(domain), kind_from(part), NONE]
        }
    }
}

fn is_term_row(alloc: Global, p: &Parts, row: &Row) -> bool {
    match term_of(alloc, p, row[0]) {
        Ok(tree) => term_row(&tree) == *row && tree.span() == PLACE,
        Err(_) => false,
    }
}

fn is_type_row(alloc: Global, p: &Parts, row: &Row) -> bool {
    match type_of(alloc, p, row[0]) {
        Ok(tree) => type_row(&tree) == *row && tree.span() == PLACE,
        Err(_) => false,
    }
}

fn is_kind_row(alloc: Global, p: &Parts, row: &Row) -> bool {
    match kind_of(alloc, p, row[0]) {
        Ok(tree) => kind_row(&tree) == *row && tree.span() == PLACE,
        Err(_) => false,
    }
}

fn all_rows(alloc: Global, p: &Parts) -> bool {
    TERMS.iter().all(|row| is_term_row(alloc, p, row))
        && TYPES.iter().all(|row| is_type_row(alloc, p, row))
        && KINDS.iter().all(|row| is_kind_row(alloc, p, row))
}

#[test]
fn each_form(rt: HostRuntime) {
    match make_parts(rt.alloc()) {
        Ok(p) => assert!(rt; all_rows(rt.alloc(), &p)),
        Err(_) => assert!(rt; false),
    }
}

/// A name with so many projections.
fn projected(alloc: Global, times: u32) -> Result<Src, NoMemory> {
    let mut tree = term_at(alloc, 0)?;
    for _ in 0..times {
        tree = Src::fst(alloc, PLACE, &tree)?;
    }
    Ok(tree)
}

#[test]
fn most_levels(rt: HostRuntime) {
    match projected(rt.alloc(), 16_383) {
        Ok(tree) => {
            assert!(rt; tree.levels() == 16_384);
            assert!(rt; Src::snd(rt.alloc(), PLACE, &tree).is_err());
        }
        Err(_) => assert!(rt; false),
    }
}
