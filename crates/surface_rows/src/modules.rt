//! Whole modules, each told again part by part with its places, as they were counted by hand; and the limits, at their number and past it.
use crate::faults::read_module;
use cdle_model::{Count, Mode};
use cdle_names::{NameId, NameTable, Span};
use std::alloc::Global;
use std::test::Fail;
use surf_parse::ParseFault;
use surf_tree::{
    NameUse, Src, SrcBranch, SrcClass, SrcCtor, SrcForm, SrcItem, SrcKind, SrcKindForm, SrcModule,
    SrcParam, SrcType, SrcTypeForm,
};

/// Each row has a module `m`, and its imports, items and parts in the order of the text, each with its first byte and the byte behind its last. A form
/// is told by its name in Core, or in the source, and by what it binds.
const MODULES: &[(&str, &str)] = &[
    ("module m.", ""),
    (
        "module m.id:∀X:★.X➔X=ΛX.λx.x.",
        "def id 9-11; allt X 12-26; star 17-20; pi 21-26; name X 21-22; name X 25-26; elam X 27-36; lam x 31-36; name x 35-36; ",
    ),
    (
        "module m.\nimport a.\nimport b'.\nimport a.\n-- only imports\n",
        "import a 17-18; import b' 27-29; ",
    ),
    (
        "module m. K : ★ ➔ Π x : A . Π Y : ★ . ★ = B .",
        "type K 10-11; kpit 14-49; star 14-17; kpi x 22-49; name A 29-30; kpit Y 33-49; star 40-43; star 46-49; name B 52-53; ",
    ),
    (
        "module m. a : Π x : A . M#B ➔ ∀ y : C . ι z : A . { z ≃ z.1.2 } = x .",
        "def a 10-11; pi x 14-71; name A 21-22; pi 25-71; name M#B 25-28; all y 33-71; name C 41-42; iota z 45-71; name A 52-53; eq 56-71; name z 58-59; snd 64-69; fst 64-67; name z 64-65; name x 74-75; ",
    ),
    (
        "module m. a : ★ = λ X : ★ ➔ ★ . λ x : A . X ·(X ·A) x (f x) ➾ B .",
        "type a 10-11; star 14-17; xtlam X 20-77; kpit 27-38; star 27-30; star 35-38; tlam x 41-77; name A 48-49; all 52-77; at 52-70; at 52-65; on 52-62; name X 52-53; on 57-62; name X 57-58; name A 61-62; name x 64-65; app 67-70; name f 67-68; name x 69-70; name B 76-77; ",
    ),
    (
        "module m. a : A = λ x : A ➔ B . Λ y . Λ X : ★ . Λ z : A . f x -y ·X (M#g x).1 .",
        "def a 10-11; name A 14-15; lam x 18-86; pi 25-32; name A 25-26; name B 31-32; elam y 35-86; elam X 42-86; star 49-52; elam z 55-86; name A 62-63; app 66-86; tapp 66-76; eapp 66-72; app 66-69; name f 66-67; name x 68-69; name y 71-72; name X 75-76; fst 78-86; app 78-83; name M#g 78-81; name x 82-83; ",
    ),
    (
        "module m. a : A = [β, β<x>] .\nb : B = β{x} .\nc : C = β<x>{λ x . x}.2 .",
        "def a 10-11; name A 14-15; pair 18-29; beta 19-21; beta< 23-28; name x 26-27; def b 32-33; name B 36-37; beta{ 40-45; name x 43-44; def c 48-49; name C 52-53; snd 56-73; beta<{ 56-71; name x 59-60; lam x 62-70; name x 69-70; ",
    ),
    (
        "module m. a : A = ρ q.1 @ x . { x ≃ y } - χ (A ➔ B) - φ q - (f x) { y } .",
        "def a 10-11; name A 14-15; rho x 18-78; fst 21-24; name q 21-22; eq 31-42; name x 33-34; name y 39-40; chi 45-78; pi 49-56; name A 49-50; name B 55-56; phi 60-78; name q 63-64; app 68-71; name f 68-69; name x 70-71; name y 75-76; ",
    ),
    (
        "module m. a : A = δ - q.1 .\nb : B = δ A - q .",
        "def a 10-11; name A 14-15; delta 18-26; fst 23-26; name q 23-24; def b 29-30; name B 33-34; delta 37-45; name A 40-41; name q 44-45; ",
    ),
    (
        "module m. a : A = μ r . f n @ Q { | zero ➔ b | m#succ x -y ·Z ➔ σ (r x) { } } .",
        "def a 10-11; name A 14-15; mu r 18-84; app 25-28; name f 25-26; name n 27-28; name Q 31-32; branch zero 37-41; name b 46-47; branch m#succ x -y ·Z 50-56; sigma 70-82; app 74-77; name r 74-75; name x 76-77; ",
    ),
    (
        "module m.\ndata D (A : ★) (x : A) : ★ =\n | nil : D\n | cons : A ➔ ∀ y : A . (A ➔ D) ➔ D .\n{- the end -}",
        "data D 15-16; parameter A 18-19; star 22-25; parameter x 28-29; name A 32-33; constructor nil 46-49; name D 52-53; constructor cons 57-61; pi 64-97; name A 64-65; all y 70-97; name A 78-79; pi 83-97; pi 83-90; name A 83-84; name D 89-90; name D 96-97; ",
    ),
    (
        "module m. a : A = (f x) y ((λ x . x)) .",
        "def a 10-11; name A 14-15; app 19-36; app 19-25; app 19-22; name f 19-20; name x 21-22; name y 24-25; lam x 28-36; name x 35-36; ",
    ),
    (
        "module m. a : ((A)) = ((x)) .",
        "def a 10-11; name A 16-17; name x 24-25; ",
    ),
    (
        "module m. a : A = ς (f x) .",
        "def a 10-11; name A 14-15; flip 18-25; app 22-25; name f 22-23; name x 24-25; ",
    ),
];

/// A part that is still to be told.
#[derive(Clone, Copy)]
enum Part<'a> {
    Term(&'a Src),
    Type(&'a SrcType),
    Kind(&'a SrcKind),
    Branch(&'a SrcBranch),
}

fn class_part(class: &SrcClass) -> Part<'_> {
    match class {
        SrcClass::OfKind(kind) => Part::Kind(kind),
        SrcClass::OfType(ty) => Part::Type(ty),
    }
}

/// The text of a name.
fn spelled<'a>(names: &'a NameTable, id: NameId) -> &'a str {
    if id.0 < names.len() {
        names.text(id)
    } else {
        "?"
    }
}

/// A word, what it is of, and a place.
fn told(alloc: Global, word: &str, of: &str, span: Span) -> Result<String, Fail> {
    let (from, to) = (span.from, span.to);
    if of.is_empty() {
        Ok(format!(in alloc; "{word} {from}-{to}; ")?)
    } else {
        Ok(format!(in alloc; "{word} {of} {from}-{to}; ")?)
    }
}

fn told_use(alloc: Global, names: &NameTable, name: &NameUse, span: Span) -> Result<String, Fail> {
    let used = use_text(alloc, names, name)?;
    told(alloc, "name", used.as_str(), span)
}

/// A name as it is used, with its module's where that stands before it.
fn use_text(alloc: Global, names: &NameTable, name: &NameUse) -> Result<String, Fail> {
    let own = spelled(names, name.name);
    match name.module {
        Some(module) => {
            let module = spelled(names, module);
            Ok(format!(in alloc; "{module}#{own}")?)
        }
        None => Ok(String::from_str(alloc, own)?),
    }
}

/// What a form of terms is called, and the name that it binds.
fn term_word(form: &SrcForm) -> (&'static str, Option<NameId>) {
    match form {
        SrcForm::Name { .. } => ("name", None),
        SrcForm::Lam { var, .. } => ("lam", Some(*var)),
        SrcForm::Elam { var, .. } => ("elam", Some(*var)),
        SrcForm::App { .. } => ("app", None),
        SrcForm::Eapp { .. } => ("eapp", None),
        SrcForm::Tapp { .. } => ("tapp", None),
        SrcForm::Pair { .. } => ("pair", None),
        SrcForm::Fst { .. } => ("fst", None),
        SrcForm::Snd { .. } => ("snd", None),
        SrcForm::Beta { side, kept } => (beta_word(side.is_some(), kept.is_some()), None),
        SrcForm::Rho { var, .. } => ("rho", Some(*var)),
        SrcForm::Phi { .. } => ("phi", None),
        SrcForm::Delta { .. } => ("delta", None),
        SrcForm::Chi { .. } => ("chi", None),
        SrcForm::Flip { .. } => ("flip", None),
        SrcForm::Mu { var, .. } => ("mu", Some(*var)),
        SrcForm::Sigma { .. } => ("sigma", None),
    }
}

fn beta_word(has_side: bool, has_kept: bool) -> &'static str {
    match (has_side, has_kept) {
        (false, false) => "beta",
        (true, false) => "beta<",
        (false, true) => "beta{",
        (true, true) => "beta<{",
    }
}

fn type_word(form: &SrcTypeForm) -> (&'static str, Option<NameId>) {
    match form {
        SrcTypeForm::Name { .. } => ("name", None),
        SrcTypeForm::Pi { var, .. } => ("pi", *var),
        SrcTypeForm::All { var, .. } => ("all", *var),
        SrcTypeForm::Allt { var, .. } => ("allt", *var),
        SrcTypeForm::Tlam { var, .. } => ("tlam", Some(*var)),
        SrcTypeForm::Xtlam { var, .. } => ("xtlam", Some(*var)),
        SrcTypeForm::At { .. } => ("at", None),
        SrcTypeForm::On { .. } => ("on", None),
        SrcTypeForm::Iota { var, .. } => ("iota", Some(*var)),
        SrcTypeForm::Eq { .. } => ("eq", None),
    }
}

fn kind_word(form: &SrcKindForm) -> (&'static str, Option<NameId>) {
    match form {
        SrcKindForm::Star => ("star", None),
        SrcKindForm::Kpi { var, .. } => ("kpi", *var),
        SrcKindForm::Kpit { var, .. } => ("kpit", *var),
    }
}

/// A form with the name that it binds.
fn told_form(
    alloc: Global,
    names: &NameTable,
    form: (&str, Option<NameId>),
    span: Span,
) -> Result<String, Fail> {
    match form.1 {
        Some(var) => told(alloc, form.0, spelled(names, var), span),
        None => told(alloc, form.0, "", span),
    }
}

/// A branch with the names of its pattern.
fn told_branch(alloc: Global, names: &NameTable, branch: &SrcBranch) -> Result<String, Fail> {
    let mut pattern = use_text(alloc, names, &branch.ctor)?;
    for arg in branch.args.iter() {
        pattern.push_str(match arg.mode {
            Mode::Kept => " ",
            Mode::Erased => " -",
            Mode::OfType => " ·",
        })?;
        pattern.push_str(spelled(names, arg.name))?;
    }
    told(alloc, "branch", pattern.as_str(), branch.span)
}

/// A part alone.
fn told_part(alloc: Global, names: &NameTable, part: Part<'_>) -> Result<String, Fail> {
    match part {
        Part::Term(term) => match term.form() {
            SrcForm::Name { name } => told_use(alloc, names, name, term.span()),
            form => told_form(alloc, names, term_word(form), term.span()),
        },
        Part::Type(ty) => match ty.form() {
            SrcTypeForm::Name { name } => told_use(alloc, names, name, ty.span()),
            form => told_form(alloc, names, type_word(form), ty.span()),
        },
        Part::Kind(kind) => told_form(alloc, names, kind_word(kind.form()), kind.span()),
        Part::Branch(branch) => told_branch(alloc, names, branch),
    }
}

/// Puts these parts before all that are still to be told.
fn put<'a>(open: &mut Vec<Part<'a>>, parts: &[Option<Part<'a>>]) -> Result<(), Fail> {
    for part in parts.iter().rev() {
        if let Some(part) = part {
            open.push(*part)?;
        }
    }
    Ok(())
}

/// Puts the parts of `μ` and `σ`.
fn put_cases<'a>(
    open: &mut Vec<Part<'a>>,
    part: &'a Src,
    motive: &'a Option<SrcType>,
    branches: &'a Vec<SrcBranch>,
) -> Result<(), Fail> {
    for branch in branches.iter().rev() {
        open.push(Part::Branch(branch))?;
    }
    put(
        open,
        &[Some(Part::Term(part)), motive.as_ref().map(Part::Type)],
    )
}

/// Puts the parts of a term, in their order.
fn put_term<'a>(open: &mut Vec<Part<'a>>, form: &'a SrcForm) -> Result<(), Fail> {
    match form {
        SrcForm::Name { .. } => Ok(()),
        SrcForm::Lam { ty, part, .. } => put(
            open,
            &[ty.as_ref().map(Part::Type), Some(Part::Term(part))],
        ),
        SrcForm::Elam { class, part, .. } => put(
            open,
            &[class.as_ref().map(class_part), Some(Part::Term(part))],
        ),
        SrcForm::App { head, arg } | SrcForm::Eapp { head, arg } => {
            put(open, &[Some(Part::Term(head)), Some(Part::Term(arg))])
        }
        SrcForm::Tapp { head, arg } => {
            put(open, &[Some(Part::Term(head)), Some(Part::Type(arg))])
        }
        SrcForm::Pair { left, right } => {
            put(open, &[Some(Part::Term(left)), Some(Part::Term(right))])
        }
        SrcForm::Fst { part } | SrcForm::Snd { part } => put(open, &[Some(Part::Term(part))]),
        SrcForm::Flip { proof } => put(open, &[Some(Part::Term(proof))]),
        SrcForm::Beta { side, kept } => put(
            open,
            &[side.as_ref().map(Part::Term), kept.as_ref().map(Part::Term)],
        ),
        SrcForm::Rho {
            proof,
            guide,
            part,
            ..
        } => put(
            open,
            &[
                Some(Part::Term(proof)),
                Some(Part::Type(guide)),
                Some(Part::Term(part)),
            ],
        ),
        SrcForm::Phi { proof, part, kept } => put(
            open,
            &[
                Some(Part::Term(proof)),
                Some(Part::Term(part)),
                Some(Part::Term(kept)),
            ],
        ),
        SrcForm::Delta { ty, proof } => put(
            open,
            &[ty.as_ref().map(Part::Type), Some(Part::Term(proof))],
        ),
        SrcForm::Chi { ty, part } => put(open, &[Some(Part::Type(ty)), Some(Part::Term(part))]),
        SrcForm::Mu {
            part,
            motive,
            branches,
            ..
        } => put_cases(open, part, motive, branches),
        SrcForm::Sigma {
            part,
            motive,
            branches,
        } => put_cases(open, part, motive, branches),
    }
}

fn put_type<'a>(open: &mut Vec<Part<'a>>, form: &'a SrcTypeForm) -> Result<(), Fail> {
    match form {
        SrcTypeForm::Name { .. } => Ok(()),
        SrcTypeForm::Pi { domain, part, .. }
        | SrcTypeForm::All { domain, part, .. }
        | SrcTypeForm::Tlam { domain, part, .. } => {
            put(open, &[Some(Part::Type(domain)), Some(Part::Type(part))])
        }
        SrcTypeForm::Allt { domain, part, .. } | SrcTypeForm::Xtlam { domain, part, .. } => {
            put(open, &[Some(Part::Kind(domain)), Some(Part::Type(part))])
        }
        SrcTypeForm::At { head, arg } => put(
            open,
            &[Some(Part::Type(head)), Some(Part::Term(arg))],
        ),
        SrcTypeForm::On { head, arg } => put(
            open,
            &[Some(Part::Type(head)), Some(Part::Type(arg))],
        ),
        SrcTypeForm::Iota { left, right, .. } => {
            put(open, &[Some(Part::Type(left)), Some(Part::Type(right))])
        }
        SrcTypeForm::Eq { left, right } => {
            put(open, &[Some(Part::Term(left)), Some(Part::Term(right))])
        }
    }
}

fn put_kind<'a>(open: &mut Vec<Part<'a>>, form: &'a SrcKindForm) -> Result<(), Fail> {
    match form {
        SrcKindForm::Star => Ok(()),
        SrcKindForm::Kpi { domain, part, .. } => {
            put(open, &[Some(Part::Type(domain)), Some(Part::Kind(part))])
        }
        SrcKindForm::Kpit { domain, part, .. } => {
            put(open, &[Some(Part::Kind(domain)), Some(Part::Kind(part))])
        }
    }
}

fn put_parts<'a>(open: &mut Vec<Part<'a>>, part: Part<'a>) -> Result<(), Fail> {
    match part {
        Part::Term(term) => put_term(open, term.form()),
        Part::Type(ty) => put_type(open, ty.form()),
        Part::Kind(kind) => put_kind(open, kind.form()),
        Part::Branch(branch) => put(open, &[Some(Part::Term(&branch.part))]),
    }
}

/// A part with all that is in it. The rows have far fewer than a hundred.
fn tell_part(
    alloc: Global,
    names: &NameTable,
    part: Part<'_>,
    text: &mut String,
) -> Result<(), Fail> {
    let mut open = Vec::new(alloc);
    open.push(part)?;
    for _ in 0..100 {
        if let Some(next) = open.pop() {
            text.push_str(told_part(alloc, names, next)?.as_str())?;
            put_parts(&mut open, next)?;
        }
    }
    Ok(())
}

fn tell_params(
    alloc: Global,
    names: &NameTable,
    params: &Vec<SrcParam>,
    text: &mut String,
) -> Result<(), Fail> {
    for param in params.iter() {
        let own = told(alloc, "parameter", spelled(names, param.name), param.span)?;
        text.push_str(own.as_str())?;
        tell_part(alloc, names, class_part(&param.class), text)?;
    }
    Ok(())
}

fn tell_ctors(
    alloc: Global,
    names: &NameTable,
    ctors: &Vec<SrcCtor>,
    text: &mut String,
) -> Result<(), Fail> {
    for ctor in ctors.iter() {
        let own = told(alloc, "constructor", spelled(names, ctor.name), ctor.span)?;
        text.push_str(own.as_str())?;
        tell_part(alloc, names, Part::Type(&ctor.ty), text)?;
    }
    Ok(())
}

fn tell_item(
    alloc: Global,
    names: &NameTable,
    item: &SrcItem,
    text: &mut String,
) -> Result<(), Fail> {
    match item {
        SrcItem::Def {
            name,
            span,
            ty,
            body,
        } => {
            text.push_str(told(alloc, "def", spelled(names, *name), *span)?.as_str())?;
            tell_part(alloc, names, Part::Type(ty), text)?;
            tell_part(alloc, names, Part::Term(body), text)
        }
        SrcItem::TypeDef {
            name,
            span,
            kind,
            body,
        } => {
            text.push_str(told(alloc, "type", spelled(names, *name), *span)?.as_str())?;
            tell_part(alloc, names, Part::Kind(kind), text)?;
            tell_part(alloc, names, Part::Type(body), text)
        }
        SrcItem::Data {
            name,
            span,
            params,
            ctors,
        } => {
            text.push_str(told(alloc, "data", spelled(names, *name), *span)?.as_str())?;
            tell_params(alloc, names, params, text)?;
            tell_ctors(alloc, names, ctors, text)
        }
    }
}

/// The whole module.
fn tell(alloc: Global, names: &NameTable, module: &SrcModule) -> Result<String, Fail> {
    let mut text = String::new(alloc);
    for (name, span) in module.imports.iter() {
        text.push_str(told(alloc, "import", spelled(names, *name), *span)?.as_str())?;
    }
    for item in module.items.iter() {
        tell_item(alloc, names, item, &mut text)?;
    }
    Ok(text)
}

/// What the module of this text tells of itself, or how its fault is written.
fn answer(alloc: Global, text: &str) -> Result<String, Fail> {
    let mut names = NameTable::new(alloc);
    match read_module(alloc, text, &mut names) {
        Ok(module) => tell(alloc, &names, &module),
        Err(fault) => fault_text(alloc, fault),
    }
}

fn fault_text(alloc: Global, fault: ParseFault) -> Result<String, Fail> {
    match fault {
        ParseFault::Unexpected { at, .. } => Ok(format!(in alloc; "unexpected at {at}")?),
        ParseFault::TooDeep { at } => Ok(format!(in alloc; "too deep at {at}")?),
        ParseFault::TooMany { at, what } => {
            let what = match what {
                Count::Constructors => "constructors",
                Count::Arguments => "arguments",
                Count::Parameters => "parameters",
                _ => "other",
            };
            Ok(format!(in alloc; "too many {what} at {at}")?)
        }
        ParseFault::NoMemory => Ok(String::from_str(alloc, "out of memory")?),
    }
}

#[test]
fn modules_are_told_again(rt: HostRuntime) -> Result<(), Fail> {
    for (text, wanted) in MODULES {
        assert_eq!(rt; answer(rt.alloc(), text)?.as_str(), *wanted, "of {text}");
    }
    Ok(())
}

/// A text with so many copies of one piece, a middle, and as many copies of another.
type Long = (
    &'static str,
    &'static str,
    usize,
    &'static str,
    &'static str,
    &'static str,
);

/// Each row has a beginning, a piece with the number of its copies, a middle, a piece of as many copies, and an end; and then the fault, or none.
const LIMITS: &[(Long, &str)] = &[
    (("module m.\na : A = ", "(", 200, "x", ")", " ."), ""),
    (("module m.\na : A = ", "(", 256, "x", ")", " ."), ""),
    (
        ("module m.\na : A = ", "(", 257, "x", ")", " ."),
        "too deep at 275",
    ),
    (
        ("module m.\na : A = ", "(", 300, "x", ")", " ."),
        "too deep at 275",
    ),
    (("module m.\na : A = f", " x", 256, "", "", " ."), ""),
    (
        ("module m.\na : A = f", " x", 257, "", "", " ."),
        "too deep at 532",
    ),
    (("module m.\na : A = x", ".1", 1024, "", "", " ."), ""),
    (
        ("module m.\na : A = x", ".1", 1025, "", "", " ."),
        "too deep at 2067",
    ),
    (("module m.\na : A = f x", ".1", 1023, "", "", " ."), ""),
    (
        ("module m.\na : A = f x", ".1", 1024, "", "", " ."),
        "too deep at 2067",
    ),
    (("module m.\na : ", "(", 256, "A", ")", " = x ."), ""),
    (
        ("module m.\na : ", "(", 257, "A", ")", " = x ."),
        "too deep at 271",
    ),
    (("module m.\na : ", "A ➔ ", 256, "A = x .", "", ""), ""),
    (
        ("module m.\na : ", "A ➔ ", 257, "A = x .", "", ""),
        "too deep at 1556",
    ),
    (
        ("module m.\ndata D : ★ =", " | c : D", 64, " .", "", ""),
        "",
    ),
    (
        ("module m.\ndata D : ★ =", " | c : D", 65, " .", "", ""),
        "too many constructors at 537",
    ),
    (
        ("module m.\ndata D", " (A : ★)", 16, " : ★ = .", "", ""),
        "",
    ),
    (
        ("module m.\ndata D", " (A : ★)", 17, " : ★ = .", "", ""),
        "too many parameters at 177",
    ),
    (
        ("module m.\ndata D : ★ = | c : ", "A ➔ ", 32, "D .", "", ""),
        "",
    ),
    (
        ("module m.\ndata D : ★ = | c : ", "A ➔ ", 33, "D .", "", ""),
        "too many arguments at 225",
    ),
    (
        (
            "module m.\ndata D : ★ = | c : ",
            "Π x : A . ",
            32,
            "D .",
            "",
            "",
        ),
        "",
    ),
    (
        (
            "module m.\ndata D : ★ = | c : ",
            "Π x : A . ",
            33,
            "D .",
            "",
            "",
        ),
        "too many arguments at 383",
    ),
    (
        (
            "module m.\ndata D : ★ = | c : A ➔ (",
            "A ➔ ",
            31,
            "D) .",
            "",
            "",
        ),
        "",
    ),
    (
        (
            "module m.\ndata D : ★ = | c : A ➔ (",
            "A ➔ ",
            32,
            "D) .",
            "",
            "",
        ),
        "too many arguments at 31",
    ),
];

fn long_text(alloc: Global, long: &Long) -> Result<String, Fail> {
    let (start, before, copies, middle, after, end) = *long;
    let before = before.repeat(alloc, copies)?;
    let after = after.repeat(alloc, copies)?;
    Ok(format!(in alloc; "{start}{before}{middle}{after}{end}")?)
}

/// The fault of the text, or nothing.
fn fault_of(alloc: Global, text: &str) -> Result<String, Fail> {
    let mut names = NameTable::new(alloc);
    match read_module(alloc, text, &mut names) {
        Ok(module) => {
            drop(module);
            Ok(String::new(alloc))
        }
        Err(fault) => fault_text(alloc, fault),
    }
}

#[test]
fn limits(rt: HostRuntime) -> Result<(), Fail> {
    for (long, wanted) in LIMITS {
        let text = long_text(rt.alloc(), long)?;
        assert_eq!(rt;
            fault_of(rt.alloc(), text.as_str())?.as_str(),
            *wanted,
            "of {text}"
        );
    }
    Ok(())
}
